//! Sets of names that keep the order in which the names came.
ghost use Rattle.std.specs.Prelude.{◌≡◌, [], Some, IfOk, OnOk, length, map};
ghost use Rattle.cops_names.specs.NameLists.{name_index, is_among, with_name};
ghost use Rattle.cops_names.specs.NamesView.{texts_of};

use indexmap::IndexSet;
use std::alloc::Global;
use std::marker::Model;
use term_core::NoMemory;

/// Distinct names, in the order in which they came.
#[derive(Drop)]
pub struct NameSet<'a> {
    names: IndexSet<&'a str>,
}

impl<'a> Model for NameSet<'a> {
    ghost use Rattle.std.specs.Prelude.{List, ℕ};

    ghost Value = { List (List ℕ) };

    ghost use Rattle.cops_names.specs.NameSetView.{set_view};

    ghost view = { set_view };
}

impl<'a> NameSet<'a> {
    /// No name.
    pub fn new(alloc: Global) -> NameSet<'a>
        ensures { result ≡ [] }
    {
        NameSet {
            names: IndexSet::new(alloc),
        }
    }

    /// Takes all names out.
    pub fn clear(&mut self)
        ensures { self.new ≡ [] }
    {
        self.names.clear();
    }

    /// How many names there are.
    pub fn len(&self) -> usize
        ensures { result ≡ length self.now }
    {
        self.names.len()
    }

    /// Whether the name is there.
    pub fn has(&self, name: &str) -> bool
        ensures { result ≡ is_among self.now name.now }
    {
        self.names.contains(name)
    }

    /// The place of a name, which is put last where it is new.
    pub fn add(&mut self, name: &'a str) -> Result<usize, NoMemory>
        ensures names { OnOk result (self.new ≡ with_name self.old name.now) }
        ensures place { IfOk result (λ i. name_index self.new name.now ≡ Some i) }
    {
        let (place, _) = self.names.insert_full(name)?;
        Ok(place)
    }

    /// The names in order.
    pub fn names(&self) -> &[&'a str]
        ensures { map (λ k. k.now) result.now ≡ self.now }
    {
        self.names.as_slice()
    }

    /// The names in order, each with memory of its own.
    pub fn strings(&self, alloc: Global) -> Result<Vec<String>, NoMemory>
        ensures { IfOk result (λ v. texts_of v.items ≡ self.now) }
    {
        let mut strings = Vec::new(alloc);
        'names: for name in self.names.as_slice() {
            strings.push(String::from_str(alloc, name)?)?;
        }
        Ok(strings)
    }
}
