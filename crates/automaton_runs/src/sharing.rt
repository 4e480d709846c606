//! The numbers that the relations of arguments share at some states, kept for all transitions in a row from these.
ghost use Rattle.std.specs.Prelude.{◌≡◌, ◌↔◌, ◌⊎◌, ◌+◌, ◌∷◌, ℕ, [], length, IfOk, OnOk, IsTrue};
ghost use Rattle.rewriting.specs.Lists.{IsAmong};
ghost use Rattle.number_sets.specs.Sets.{members};
ghost use Rattle.number_sets.specs.Relation.{Relates};
ghost use Rattle.number_sets.specs.declared.words.NumberSet.{NumberSet};
ghost use Rattle.automaton_runs.specs.Relations.{relation_of, relations};
ghost use Rattle.automaton_runs.specs.Reached.{AreRelated};
ghost use Rattle.automaton_runs.specs.Shared.{IsIn, AreShared, IsShared};

use crate::relations::Evaluated;
use number_sets::{NumberRelation, NumberSet};
use std::alloc::Global;
use term_core::NoMemory;

// Whether each of some relations has the state at its place: else they share no number, and no set need be made.
fn are_lefts(args: &[Evaluated<'_>], states: &[u32]) -> bool
    ensures asked { (k : ℕ) → AreRelated (relations args.now) states.now k → IsTrue result }
    ensures alike { IsTrue result → length args.now ≡ length states.now }
{
    if args.len() != states.len() {
        return false;
    }
    for place in 0..args.len() {
        if !args[place].relation().has_left(states[place]) {
            return false;
        }
    }
    true
}

fn clear(alloc: Global, set: &mut NumberSet)
    ensures { members set.new ≡ [] }
{
    set.keep_shared(&NumberSet::new(alloc));
}

// Leaves out the numbers that one of some relations lacks at the state at its place.
fn keep_related(alloc: Global, args: &[Evaluated<'_>], states: &[u32], set: &mut NumberSet)
    requires { length args.now ≡ length states.now }
    ensures { (k : ℕ) → IsAmong k (members set.new) ↔ (IsAmong k (members set.old) × AreRelated (relations args.now) states.now k) }
{
    let none = NumberSet::new(alloc);
    for place in 0..args.len() {
        set.keep_shared(args[place].relation().row(states[place]).unwrap_or(&none));
    }
}

// Puts into a set, in place of its numbers, those that each of some relations has at the state at its place.
fn put_related(
    alloc: Global,
    first: &Evaluated<'_>,
    others: &[Evaluated<'_>],
    states: &[u32],
    set: &mut NumberSet,
) -> Result<(), NoMemory>
    requires { length others.now + 1 ≡ length states.now }
    ensures { OnOk result ((k : ℕ) → IsAmong k (members set.new) ↔ AreRelated (relation_of first.now ∷ relations others.now) states.now k) }
{
    clear(alloc, set);
    if let Some(row) = first.relation().row(states[0]) {
        set.insert_all(row)?;
        keep_related(alloc, others, &states[1..], set);
    }
    Ok(())
}

// Where numbers are: in a set, in each of two, or in the one that is made for them, unless there are none.
#[derive(Drop)]
pub(crate) enum Found<'a> {
    Nowhere,
    Row(&'a NumberSet),
    Both(&'a NumberSet, &'a NumberSet),
    Made,
}

// The numbers of the set that is made.
fn made_ones<'a>(made: &NumberSet) -> Found<'a>
    ensures { (k : ℕ) → IsIn result made.now k ↔ IsAmong k (members made.now) }
{
    if made.is_empty() {
        Found::Nowhere
    } else {
        Found::Made
    }
}

// The numbers that two relations share at their states.
fn share_two<'a>(
    first: &'a NumberRelation,
    second: &'a NumberRelation,
    left: u32,
    right: u32,
) -> Found<'a>
    ensures { (made : NumberSet) (k : ℕ) → IsIn result made k ↔ (Relates first.now left k × Relates second.now right k) }
{
    match (first.row(left), second.row(right)) {
        (Some(row), Some(other)) => Found::Both(row, other),
        _ => Found::Nowhere,
    }
}

// The numbers that all relations share at some states.
fn share<'a>(
    alloc: Global,
    all: &'a NumberSet,
    args: &'a [Evaluated<'_>],
    states: &[u32],
    made: &mut NumberSet,
) -> Result<Found<'a>, NoMemory>
    ensures { IfOk result (λ found. AreShared (members all.now) (relations args.now) states.now (IsIn found made.new)) }
{
    if !are_lefts(args, states) {
        return Ok(Found::Nowhere);
    }
    match args {
        [] => Ok(Found::Row(all)),
        [only] => match only.relation().row(states[0]) {
            Some(row) => Ok(Found::Row(row)),
            None => Ok(Found::Nowhere),
        },
        [first, second] => {
            Ok(share_two(first.relation(), second.relation(), states[0], states[1]))
        }
        [first, others @ ..] => {
            put_related(alloc, first, others, states, made)?;
            Ok(made_ones(made))
        }
    }
}

/// The numbers that the relations of arguments share at some states: they serve all transitions in a row from these.
#[derive(Drop)]
pub(crate) struct Shared<'a> {
    states: &'a [u32],
    found: Found<'a>,
    made: NumberSet,
}

impl<'a> Shared<'a> {
    /// Those at no states.
    pub(crate) fn new(alloc: Global, all: &'a NumberSet, args: &[Evaluated<'_>]) -> Shared<'a>
        ensures { IsShared (members all.now) (relations args.now) result }
    {
        Shared {
            states: &[],
            found: if args.is_empty() {
                Found::Row(all)
            } else {
                Found::Nowhere
            },
            made: NumberSet::new(alloc),
        }
    }

    // Makes the set of the numbers that are in each of two: for one use alone that would not pay.
    fn make(&mut self, alloc: Global) -> Result<(), NoMemory>
        ensures same { OnOk result (self.new.states.now ≡ self.old.states.now) }
        ensures numbers { OnOk result ((k : ℕ) → IsIn self.new.found self.new.made k ↔ IsIn self.old.found self.old.made k) }
    {
        if let Found::Both(row, other) = self.found {
            clear(alloc, &mut self.made);
            self.made.insert_shared(row, other)?;
            self.found = made_ones(&self.made);
        }
        Ok(())
    }

    /// Goes on to states, which may be the same.
    pub(crate) fn move_to(
        &mut self,
        alloc: Global,
        all: &'a NumberSet,
        args: &'a [Evaluated<'_>],
        states: &'a [u32],
    ) -> Result<(), NoMemory>
        requires { IsShared (members all.now) (relations args.now) self.old }
        ensures at { OnOk result (self.new.states.now ≡ states.now) }
        ensures shared { OnOk result (IsShared (members all.now) (relations args.now) self.new) }
    {
        if self.states == states {
            return self.make(alloc);
        }
        self.found = share(alloc, all, args, states, &mut self.made)?;
        self.states = states;
        Ok(())
    }

    /// Relates a number to all of them.
    pub(crate) fn put(
        &self,
        alloc: Global,
        left: u32,
        relation: &mut NumberRelation,
    ) -> Result<(), NoMemory>
        ensures { OnOk result ((p q : ℕ) → Relates relation.new p q ↔ (Relates relation.old p q ⊎ ((p ≡ left) × IsIn self.now.found self.now.made q))) }
    {
        match self.found {
            Found::Nowhere => Ok(()),
            Found::Row(row) => relation.insert_all(alloc, left, row),
            Found::Both(row, other) => relation.insert_shared(alloc, left, row, other),
            Found::Made => relation.insert_all(alloc, left, &self.made),
        }
    }
}
