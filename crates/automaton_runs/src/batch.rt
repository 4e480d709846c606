//! Choices of states that have one front, by their numbers, and the states that a variable has by them.
ghost use Rattle.std.specs.Prelude.{◌≡◌, ◌↔◌, ℕ, length, IfOk};
ghost use Rattle.automata.specs.Closed.{state_of};
ghost use Rattle.rewriting.specs.Lists.{IsAmong};
ghost use Rattle.number_sets.specs.Sets.{members};
ghost use Rattle.number_sets.specs.Relation.{Relates};
ghost use Rattle.automaton_runs.specs.Choices.{Holds, choice_of, occurrences_of};
ghost use Rattle.automaton_runs.specs.BatchView.{IsFirstPlace};

use crate::tails::Tails;
use number_sets::{NumberRelation, NumberSet};
use std::alloc::Global;
use std::marker::Model;
use term_core::NoMemory;

/// Choices of states for variable occurrences that begin alike, in order. Each has a number in its batch.
#[derive(Debug, Drop)]
pub struct Batch<'a> {
    front: &'a [u32],
    // For each occurrence of the front its state, with the numbers of the choices.
    leaves: Vec<NumberRelation>,
    tails: &'a Tails,
}

impl<'a> Model for Batch<'a> {
    ghost use Rattle.automaton_runs.specs.Choices as choices;

    ghost Value = { choices.Batch };

    ghost use Rattle.automaton_runs.specs.BatchView.{batch_view, IsBatch};

    ghost view = { batch_view };

    ghost invariant = { IsBatch };
}

// The first place of a name.
fn place_of(names: &[u32], x: u32) -> Option<usize>
    ensures { IsFirstPlace names.now x result }
{
    names.iter().position(|name| *name == x)
}

impl<'a> Batch<'a> {
    /// The choices with a front and each of the tails.
    pub(crate) fn new(
        alloc: Global,
        front: &'a [u32],
        tails: &'a Tails,
    ) -> Result<Batch<'a>, NoMemory>
        ensures { IfOk result (λ b. b ≡ record { front = front.now; width = tails.now.width; tails = tails.now.lists }) }
    {
        let mut leaves = Vec::with_capacity(alloc, front.len())?;
        for state in front {
            let mut leaf = NumberRelation::new(alloc);
            leaf.insert_all(alloc, *state, tails.all())?;
            leaves.push(leaf)?;
        }
        Ok(Batch {
            front,
            leaves,
            tails,
        })
    }

    /// The number of occurrences.
    pub fn occurrences(&self) -> usize
        ensures count { result ≡ occurrences_of self.now }
        ensures wide { (k : ℕ) → Holds self.now k → length (choice_of self.now k) ≡ occurrences_of self.now }
    {
        self.leaves.len() + self.tails.width()
    }

    /// The number of choices.
    pub fn len(&self) -> u32
        ensures { result ≡ length self.now.tails }
    {
        self.tails.len()
    }

    /// The choice with a number.
    pub fn choice(&self, alloc: Global, k: u32) -> Result<Vec<u32>, NoMemory>
        requires { Holds self.now k }
        ensures { IfOk result (λ cs. cs.items ≡ choice_of self.now k) }
    {
        let mut choice = Vec::from_slice(alloc, self.front)?;
        choice.extend_from_slice(self.tails.list(k))?;
        Ok(choice)
    }

    // The numbers of the choices.
    pub(crate) fn all(&self) -> &NumberSet
        ensures { (k : ℕ) → IsAmong k (members result.now) ↔ Holds self.now k }
    {
        self.tails.all()
    }

    // The states that a variable has by the choices: those of its first name, or 0.
    pub(crate) fn states_of(&self, names: &[u32], x: u32) -> &NumberRelation
        requires { length names.now ≡ occurrences_of self.now }
        ensures { (q k : ℕ) → Relates result.now q k ↔ (Holds self.now k × (q ≡ state_of names.now (choice_of self.now k) x)) }
    {
        // Where there is one state alone, there may be very many names; none has another.
        if self.front.is_empty() && self.tails.has_only_zeros() {
            return self.tails.zeros();
        }
        match place_of(names, x) {
            Some(place) if place < self.leaves.len() => &self.leaves[place],
            Some(place) => self.tails.leaf(place - self.leaves.len()),
            None => self.tails.zeros(),
        }
    }
}
