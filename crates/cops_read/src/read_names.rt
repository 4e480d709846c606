//! The table of names while rules are read, where each arity is counted in full.
ghost use Rattle.std.specs.Prelude.{◌≡◌, ◌<◌, ◌≤◌, ◌^◌, ◌++◌, ◌∷◌, [], None, All, slice_get, OnOk, OnErr, length, string_bytes};
ghost use Rattle.cops_names.specs.NameTable.{number_of, arity_at};
ghost use Rattle.cops_names.specs.NamesView.{texts_of};
ghost use Rattle.cops_read.specs.Bounds.{most_arguments};

use cops_names::Names;
use std::alloc::Global;
use std::marker::Model;
use term_core::NoMemory;

// The names so far. A use is compared with the arity of its symbol before it is known whether the first use was within
// the limits, so an arity may be too great for 32 bits.
#[derive(Drop)]
pub(crate) struct ReadNames {
    // with arities that are cut off
    names: Names,
    arities: Vec<usize>,
}

impl Model for ReadNames {
    ghost use Rattle.cops_names.specs.NameTable.{NameTable};

    ghost Value = { NameTable };

    ghost use Rattle.cops_read.specs.ReadNames.{read_view, AreCut};

    ghost view = { read_view };

    ghost invariant = { λ r. AreCut r.names.symbols r.arities.items };
}

impl ReadNames {
    /// No symbol and no rule.
    pub(crate) fn new(alloc: Global) -> ReadNames
        ensures { result ≡ record { symbols = []; variables = [] } }
    {
        ReadNames {
            names: Names::new(alloc),
            arities: Vec::new(alloc),
        }
    }

    /// Puts a symbol last whose name is new.
    pub(crate) fn add_symbol(&mut self, name: String, arity: usize) -> Result<(), NoMemory>
        requires few { length self.old.symbols < 2 ^ 31 }
        requires absent { number_of self.old.symbols (string_bytes name) ≡ None }
        ensures symbols { OnOk result (self.new.symbols ≡ self.old.symbols ++ (string_bytes name, arity) ∷ []) }
        ensures variables { self.new.variables ≡ self.old.variables }
        ensures unchanged { OnErr result (self.new ≡ self.old) }
    {
        self.arities.reserve(1)?;
        self.names
            .add_symbol(name, arity.min(u32::MAX as usize) as u32)?;
        self.arities.push_reserved(arity);
        Ok(())
    }

    /// Puts the names of a rule's variables last.
    pub(crate) fn add_rule(&mut self, variables: Vec<String>) -> Result<(), NoMemory>
        requires { length self.old.variables < 2 ^ 31 }
        ensures last { OnOk result (self.new.variables ≡ self.old.variables ++ texts_of variables.items ∷ []) }
        ensures symbols { self.new.symbols ≡ self.old.symbols }
        ensures unchanged { OnErr result (self.new ≡ self.old) }
    {
        self.names.add_rule(variables)
    }

    /// How many symbols there are.
    pub(crate) fn symbol_count(&self) -> u32
        ensures { result ≡ length self.now.symbols }
    {
        self.names.symbol_count()
    }

    /// The number of the symbol with this name.
    pub(crate) fn symbol_number(&self, name: &str) -> Option<u32>
        ensures { result ≡ number_of self.now.symbols name.now }
    {
        self.names.symbol_number(name)
    }

    /// The arity of a symbol.
    pub(crate) fn arity(&self, n: u32) -> Option<usize>
        ensures { result ≡ arity_at self.now n }
    {
        item_at(&self.arities, n as usize)
    }

    /// The table where no arity is beyond the limit, so that none was cut off.
    pub(crate) fn into_names(self) -> Names
        requires { All (λ s. s.1 ≤ most_arguments) self.symbols }
        ensures { result ≡ self }
    {
        self.names
    }
}

fn item_at(items: &[usize], at: usize) -> Option<usize>
    ensures { result ≡ slice_get items.now at }
{
    let item = items.get(at)?;
    Some(*item)
}
