//! The ends of choices: lists of states of one length, by their numbers, with the states at each place.
ghost use Rattle.std.specs.Prelude.{◌≡◌, ◌↔◌, ◌<◌, ◌^◌, ℕ, [], List, length, get_or, IfOk, IsTrue};
ghost use Rattle.rewriting.specs.Lists.{IsAmong};
ghost use Rattle.number_sets.specs.Sets.{members};
ghost use Rattle.number_sets.specs.Relation.{Relates};
ghost use Rattle.automaton_runs.specs.Choices.{as_lists};
ghost use Rattle.automaton_runs.specs.Leaves.{AreStatesIn, AreAllStatesIn, AreZeros};

use number_sets::{NumberRelation, NumberSet};
use std::alloc::Global;
use std::marker::Model;
use term_core::NoMemory;

/// Lists of states, all of one length, by their numbers.
#[derive(Debug, Drop)]
pub(crate) struct Tails {
    lists: Vec<Vec<u32>>,
    // Their numbers.
    all: NumberSet,
    // For each place the states that the lists have there, with the numbers of the lists.
    leaves: Vec<NumberRelation>,
    // The state 0 with all numbers.
    zeros: NumberRelation,
    // Whether no list has another state.
    only_zeros: bool,
}

impl Model for Tails {
    ghost use Rattle.automaton_runs.specs.Choices as choices;

    ghost Value = { choices.Tails };

    ghost use Rattle.automaton_runs.specs.TailsView.{tails_view, IsTails};

    ghost view = { tails_view };

    ghost invariant = { IsTails };
}

// The states that lists have at a place, with the numbers of the lists.
fn leaf(alloc: Global, lists: &[Vec<u32>], place: usize) -> Result<NumberRelation, NoMemory>
    requires { length lists.now < 2 ^ 32 }
    ensures { IfOk result (AreStatesIn (as_lists lists.now) place) }
{
    let mut made = NumberRelation::new(alloc);
    for k in 0..lists.len() {
        if let Some(state) = lists[k].get(place) {
            made.insert(alloc, *state, k as u32)?;
        }
    }
    Ok(made)
}

/// The same for each of so many places.
pub(crate) fn leaves(
    alloc: Global,
    lists: &[Vec<u32>],
    width: usize,
) -> Result<Vec<NumberRelation>, NoMemory>
    requires { length lists.now < 2 ^ 32 }
    ensures long { IfOk result (λ made. length made.items ≡ width) }
    ensures each { IfOk result (λ made. AreAllStatesIn (as_lists lists.now) made.items) }
{
    let mut made = Vec::with_capacity(alloc, width)?;
    for place in 0..width {
        made.push(leaf(alloc, lists, place)?)?;
    }
    Ok(made)
}

fn is_zeros(list: &[u32]) -> bool
    ensures { IsTrue result → AreZeros list.now }
{
    for state in list {
        if *state != 0 {
            return false;
        }
    }
    true
}

// Whether no list has another state than 0.
fn are_zeros(lists: &[Vec<u32>]) -> bool
    ensures { IsTrue result → (list : List ℕ) → IsAmong list (as_lists lists.now) → AreZeros list }
{
    for list in lists {
        if !is_zeros(list) {
            return false;
        }
    }
    true
}

impl Tails {
    /// Lists of so many states.
    pub(crate) fn new(alloc: Global, width: usize, lists: Vec<Vec<u32>>) -> Result<Tails, NoMemory>
        requires few { length lists.items < 2 ^ 32 }
        requires wide { (list : List ℕ) → IsAmong list (as_lists lists.items) → length list ≡ width }
        ensures { IfOk result (λ tails. tails ≡ record { width = width; lists = as_lists lists.items }) }
    {
        let all = NumberSet::below(alloc, lists.len() as u32)?;
        let leaves = leaves(alloc, &lists, width)?;
        let mut zeros = NumberRelation::new(alloc);
        zeros.insert_all(alloc, 0, &all)?;
        let only_zeros = are_zeros(&lists);
        Ok(Tails {
            lists,
            all,
            leaves,
            zeros,
            only_zeros,
        })
    }

    /// How many lists there are.
    pub(crate) fn len(&self) -> u32
        ensures { result ≡ length self.now.lists }
    {
        self.lists.len() as u32
    }

    /// How many states a list has.
    pub(crate) fn width(&self) -> usize
        ensures width { result ≡ self.now.width }
        ensures few { result < 2 ^ 63 }
        ensures wide { (list : List ℕ) → IsAmong list self.now.lists → length list ≡ self.now.width }
    {
        self.leaves.len()
    }

    /// The list with a number.
    pub(crate) fn list(&self, k: u32) -> &[u32]
        requires { k < length self.now.lists }
        ensures { result.now ≡ get_or self.now.lists k [] }
    {
        &self.lists[k as usize]
    }

    /// The numbers of the lists.
    pub(crate) fn all(&self) -> &NumberSet
        ensures { (k : ℕ) → IsAmong k (members result.now) ↔ (k < length self.now.lists) }
    {
        &self.all
    }

    /// The states that the lists have at a place.
    pub(crate) fn leaf(&self, place: usize) -> &NumberRelation
        requires { place < self.now.width }
        ensures states { AreStatesIn self.now.lists place result.now }
        ensures within { (list : List ℕ) → IsAmong list self.now.lists → place < length list }
    {
        &self.leaves[place]
    }

    /// The state 0 with all numbers.
    pub(crate) fn zeros(&self) -> &NumberRelation
        ensures { (q k : ℕ) → Relates result.now q k ↔ ((k < length self.now.lists) × (q ≡ 0)) }
    {
        &self.zeros
    }

    /// Whether it is seen that no list has another state than 0.
    pub(crate) fn has_only_zeros(&self) -> bool
        ensures { IsTrue result → (list : List ℕ) → IsAmong list self.now.lists → AreZeros list }
    {
        self.only_zeros
    }
}
