//! The table of a system's names: its symbols with their arities, and the variables of each rule.
ghost use Rattle.std.specs.Prelude.{◌≡◌, ◌<◌, ◌^◌, ◌++◌, ◌∷◌, [], ◌↔◌, None, IsTrue, IfOk, OnOk, OnErr, length, map, option_map, slice_get, string_bytes};
ghost use Rattle.std.specs.Bool.{OnTrue, OnFalse};
ghost use Rattle.cops_names.specs.NameTable.{number_of, name_at, arity_at, variable_at, all_of};
ghost use Rattle.cops_names.specs.NameLists.{with_names};
ghost use Rattle.cops_names.specs.NamesView.{texts_of};

use crate::name_set::NameSet;
use indexmap::IndexMap;
use std::alloc::Global;
use std::marker::Model;
use term_core::NoMemory;

/// The names of a system: those of its symbols, with their arities, and for each rule those of its
/// variables. Symbols are numbered from 0, rules from 1, the variables of a rule from 0.
#[derive(Drop)]
pub struct Names {
    symbols: IndexMap<String, u32>,
    rules: Vec<Vec<String>>,
}

impl Model for Names {
    ghost use Rattle.std.specs.Prelude.{length, ◌<◌, ◌^◌};
    ghost use Rattle.cops_names.specs.NameTable.{NameTable};

    ghost Value = { NameTable };

    ghost use Rattle.cops_names.specs.NamesView.{names_view};

    ghost view = { names_view };

    ghost invariant = { λ n. length n.symbols.entries < 2 ^ 32 };
}

impl Names {
    /// No symbol and no rule.
    pub fn new(alloc: Global) -> Names
        ensures { result ≡ record { symbols = []; variables = [] } }
    {
        Names {
            symbols: IndexMap::new(alloc),
            rules: Vec::new(alloc),
        }
    }

    /// Puts a symbol last and answers true. Where its name is there already, the answer is false and
    /// nothing has changed.
    pub fn add_symbol(&mut self, name: String, arity: u32) -> Result<bool, NoMemory>
        requires { length self.old.symbols < 2 ^ 31 }
        ensures absent { IfOk result (λ added. IsTrue added ↔ (number_of self.old.symbols (string_bytes name) ≡ None)) }
        ensures last { IfOk result (λ added. OnTrue added (self.new.symbols ≡ self.old.symbols ++ (string_bytes name, arity) ∷ [])) }
        ensures there { IfOk result (λ added. OnFalse added (self.new.symbols ≡ self.old.symbols)) }
        ensures variables { self.new.variables ≡ self.old.variables }
        ensures unchanged { OnErr result (self.new ≡ self.old) }
    {
        if self.symbols.get_index_of(name.as_str()).is_some() {
            return Ok(false);
        }
        self.symbols.insert(name, arity)?;
        Ok(true)
    }

    /// Puts the names of a rule's variables last.
    pub fn add_rule(&mut self, variables: Vec<String>) -> Result<(), NoMemory>
        requires { length self.old.variables < 2 ^ 31 }
        ensures last { OnOk result (self.new.variables ≡ self.old.variables ++ texts_of variables.items ∷ []) }
        ensures symbols { self.new.symbols ≡ self.old.symbols }
        ensures unchanged { OnErr result (self.new ≡ self.old) }
    {
        self.rules.push(variables)?;
        Ok(())
    }

    /// How many symbols there are.
    pub fn symbol_count(&self) -> u32
        ensures { result ≡ length self.now.symbols }
    {
        self.symbols.len() as u32
    }

    /// The name of a symbol.
    pub fn symbol_name(&self, n: u32) -> Option<&str>
        ensures { option_map (λ name. name.now) result ≡ name_at self.now n }
    {
        let (name, _) = self.symbols.get_index(n as usize)?;
        Some(name.as_str())
    }

    /// The number of the symbol with this name.
    pub fn symbol_number(&self, name: &str) -> Option<u32>
        ensures { result ≡ number_of self.now.symbols name.now }
    {
        let n = self.symbols.get_index_of(name)?;
        Some(n as u32)
    }

    /// The arity of a symbol.
    pub fn arity(&self, n: u32) -> Option<u32>
        ensures { result ≡ arity_at self.now n }
    {
        let (_, arity) = self.symbols.get_index(n as usize)?;
        Some(*arity)
    }

    /// The arities of all symbols.
    pub fn arities(&self, alloc: Global) -> Result<Vec<u32>, NoMemory>
        ensures { IfOk result (λ v. v.items ≡ map (λ s. s.1) self.now.symbols) }
    {
        values_of(alloc, &self.symbols)
    }

    /// The names of the variables of all rules, each once.
    pub fn variables<'a>(&'a self, alloc: Global) -> Result<NameSet<'a>, NoMemory>
        ensures { IfOk result (λ set. set ≡ with_names [] (all_of self.now.variables)) }
    {
        let mut set = NameSet::new(alloc);
        add_lists(&mut set, &self.rules)?;
        Ok(set)
    }

    /// The name of variable `k` of a rule.
    pub fn variable_name(&self, rule: u32, k: u32) -> Option<&str>
        ensures { option_map (λ name. name.now) result ≡ variable_at self.now rule k }
    {
        let at = (rule as usize).checked_sub(1)?;
        let names = self.rules.get(at)?;
        text_at(names, k as usize)
    }
}

fn values_of(alloc: Global, symbols: &IndexMap<String, u32>) -> Result<Vec<u32>, NoMemory>
    ensures { IfOk result (λ v. v.items ≡ map (λ e. e.1) symbols.now.entries) }
{
    let values = symbols.values().copied().collect(alloc)?;
    Ok(values)
}

fn add_list<'a>(set: &mut NameSet<'a>, names: &'a [String]) -> Result<(), NoMemory>
    ensures { OnOk result (set.new ≡ with_names set.old (texts_of names.now)) }
{
    'texts: for text in names {
        set.add(text.as_str())?;
    }
    Ok(())
}

fn add_lists<'a>(set: &mut NameSet<'a>, lists: &'a [Vec<String>]) -> Result<(), NoMemory>
    ensures { OnOk result (set.new ≡ with_names set.old (all_of (map (λ v. texts_of v.items) lists.now))) }
{
    'lists: for names in lists {
        add_list(set, names)?;
    }
    Ok(())
}

fn text_at(names: &[String], k: usize) -> Option<&str>
    ensures { option_map (λ name. name.now) result ≡ slice_get (texts_of names.now) k }
{
    let name = names.get(k)?;
    Some(name.as_str())
}
