//! The fronts with which a term may arrive, where the occurrences behind them have any states of their pools.
ghost use Rattle.std.specs.Prelude.{◌≡◌, ◌<◌, ◌≤◌, ◌^◌, ℕ, List, drop, length, take, IfOk, OnOk};
ghost use Rattle.std.specs.List.{AllZip};
ghost use Rattle.rewriting.specs.Terms as math;
ghost use Rattle.term_core.specs.View.{view};
ghost use Rattle.rewriting.specs.Lists.{IsAmong};
ghost use Rattle.number_sets.specs.Sets.{members};
ghost use Rattle.number_sets.specs.Relation.{Relates};
ghost use Rattle.automaton_runs.specs.Choices.{as_lists};
ghost use Rattle.automaton_runs.specs.Relations.{relation_of};
ghost use Rattle.automaton_runs.specs.Possible.{IsAnywhere, AreAnywhere, MayReach, ArePossible, AreChosen, AreFronts};

use crate::batch_runs::reached_from;
use crate::index::AutomatonIndex;
use crate::linear::linear;
use crate::listing::choices;
use crate::relations::Evaluated;
use crate::tails::leaves;
use number_sets::{NumberRelation, NumberSet};
use std::alloc::Global;
use term_core::{NoMemory, Term};

// The most fronts that are looked at together.
const MAX_FRONTS: usize = 1_000_000;

// The states of a pool with all numbers.
fn anywhere(alloc: Global, pool: &[u32], all: &NumberSet) -> Result<NumberRelation, NoMemory>
    ensures { IfOk result (IsAnywhere (members all.now) pool.now) }
{
    let mut made = NumberRelation::new(alloc);
    for state in pool {
        made.insert_all(alloc, *state, all)?;
    }
    Ok(made)
}

// Puts the same for each pool last.
fn put_anywhere(
    alloc: Global,
    pools: &[Vec<u32>],
    all: &NumberSet,
    places: &mut Vec<NumberRelation>,
) -> Result<(), NoMemory>
    ensures { OnOk result (AreAnywhere (as_lists pools.now) (members all.now) places.old.items places.new.items) }
{
    for pool in pools {
        places.push(anywhere(alloc, pool, all)?)?;
    }
    Ok(())
}

// The states that a term may reach with each of the numbers, where each variable has a place.
#[cycle(may_reach)]
fn may_reach<'a>(
    alloc: Global,
    index: &AutomatonIndex<'_>,
    all: &NumberSet,
    places: &'a [NumberRelation],
    t: &Term,
) -> Result<Evaluated<'a>, NoMemory>
    ensures { IfOk result (λ e. MayReach index.now (members all.now) places.now (view t.now) (relation_of e)) }
{
    match t {
        Term::Var(x) => match places.get(*x as usize) {
            Some(states) => Ok(Evaluated::Stored(states)),
            None => Ok(Evaluated::Made(NumberRelation::new(alloc))),
        },
        Term::Fun(f, args) => {
            let args = may_reach_each(alloc, index, all, places, args)?;
            let made = reached_from(alloc, index, *f, all, &args)?;
            Ok(Evaluated::Made(made))
        }
    }
}

#[cycle(may_reach)]
fn may_reach_each<'a>(
    alloc: Global,
    index: &AutomatonIndex<'_>,
    all: &NumberSet,
    places: &'a [NumberRelation],
    args: &[Term],
) -> Result<Vec<Evaluated<'a>>, NoMemory>
    ensures { IfOk result (λ made. AllZip (λ t e. MayReach index.now (members all.now) places.now (view t) (relation_of e)) args.now made.items) }
{
    let mut made = Vec::with_capacity(alloc, args.len())?;
    for arg in args {
        made.push(may_reach(alloc, index, all, places, arg)?)?;
    }
    Ok(made)
}

// The numbers to which one is related.
fn rights(alloc: Global, relation: &NumberRelation) -> Result<NumberSet, NoMemory>
    ensures { IfOk result (λ set. (p q : ℕ) → Relates relation.now p q → IsAmong q (members set)) }
{
    let mut set = NumberSet::new(alloc);
    for left in 0..relation.lefts() {
        if let Some(row) = relation.row(left as u32) {
            set.insert_all(row)?;
        }
    }
    Ok(set)
}

// Numbers of fronts: with other fronts, and states of the pools behind them, a term arrives nowhere.
fn possible(
    alloc: Global,
    index: &AutomatonIndex<'_>,
    t: &Term,
    fronts: &[Vec<u32>],
    start: usize,
    pools: &[Vec<u32>],
) -> Result<NumberSet, NoMemory>
    requires fits { math.Fits (view t.now) }
    requires few { length fronts.now < 2 ^ 32 }
    requires long { (front : List ℕ) → IsAmong front (as_lists fronts.now) → length front ≡ start }
    ensures { IfOk result (λ set. ArePossible index.now (view t.now) (as_lists fronts.now) (as_lists pools.now) (members set)) }
{
    let all = NumberSet::below(alloc, fronts.len() as u32)?;
    let mut places = leaves(alloc, fronts, start)?;
    put_anywhere(alloc, pools, &all, &mut places)?;
    let reached = may_reach(alloc, index, &all, &places, &linear(alloc, t)?)?;
    rights(alloc, reached.relation())
}

// The lists whose numbers are in a set.
fn chosen(alloc: Global, lists: &[Vec<u32>], set: &NumberSet) -> Result<Vec<Vec<u32>>, NoMemory>
    requires { length lists.now < 2 ^ 32 }
    ensures { IfOk result (λ made. AreChosen (as_lists lists.now) (members set.now) (as_lists made.items)) }
{
    let mut made = Vec::new(alloc);
    for number in 0..lists.len() {
        if set.has(number as u32) {
            made.push(Vec::from_slice(alloc, &lists[number])?)?;
        }
    }
    Ok(made)
}

/// Choices for the first pools, up to one: with others, and states of the pools behind them, a term arrives nowhere.
/// Where an automaton has few transitions for its states, few are left.
pub(crate) fn possible_fronts(
    alloc: Global,
    index: &AutomatonIndex<'_>,
    t: &Term,
    pools: &[Vec<u32>],
    start: usize,
) -> Result<Vec<Vec<u32>>, NoMemory>
    requires fits { math.Fits (view t.now) }
    requires within { start ≤ length pools.now }
    ensures { IfOk result (λ fronts. AreFronts index.now (view t.now) (take start (as_lists pools.now)) (drop start (as_lists pools.now)) (as_lists fronts.items)) }
{
    let all = choices(alloc, &pools[..start])?;
    if all.len() <= 1 || all.len() > MAX_FRONTS {
        return Ok(all);
    }
    let set = possible(alloc, index, t, &all, start, &pools[start..])?;
    chosen(alloc, &all, &set)
}
