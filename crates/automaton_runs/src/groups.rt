//! Values grouped by a number, each group in the order in which they came.
ghost use Rattle.std.specs.Prelude.{◌≡◌, ◌++◌, ◌∷◌, ℕ, [], OnOk, nat_eq, if◌then◌else◌};
ghost use Rattle.automaton_runs.specs.Groups.{listed};

use std::alloc::Global;
use std::collections::BTreeMap;
use term_core::NoMemory;

// Values by a number, in the order in which they came.
#[derive(Debug, Drop)]
pub(crate) struct Groups<V> {
    lists: BTreeMap<u32, Vec<V>>,
}

impl<V: Drop> Groups<V> {
    pub(crate) fn new(alloc: Global) -> Groups<V>
        ensures { (q : ℕ) → listed result q ≡ [] }
    {
        Groups {
            lists: BTreeMap::new(alloc),
        }
    }

    // Puts a value last at a number.
    pub(crate) fn put(&mut self, alloc: Global, number: u32, value: V) -> Result<(), NoMemory>
        ensures { OnOk result ((q : ℕ) → listed self.new q ≡ (if nat_eq number q then (listed self.old q ++ value ∷ []) else listed self.old q)) }
    {
        match self.lists.get_mut(&number) {
            Some(list) => {
                list.push(value)?;
            }
            None => {
                let mut list = Vec::new(alloc);
                list.push(value)?;
                self.lists.insert(number, list)?;
            }
        }
        Ok(())
    }

    // The values at a number.
    pub(crate) fn at(&self, number: u32) -> &[V]
        ensures { result.now ≡ listed self.now number }
    {
        match self.lists.get(&number) {
            Some(list) => list,
            None => &[],
        }
    }
}
