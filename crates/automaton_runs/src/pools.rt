//! The pool of each variable occurrence of a term: the states that stand at its place in transitions.
ghost use Rattle.std.specs.Prelude.{◌≡◌, ◌++◌, IfOk, OnOk};
ghost use Rattle.term_core.specs.View.{view, views};
ghost use Rattle.automaton_runs.specs.Choices.{as_lists};
ghost use Rattle.automaton_runs.specs.Pools as pool_lists;
ghost use Rattle.automaton_runs.specs.Pools.{pools_at, pools_from, pools_of};

use crate::index::AutomatonIndex;
use crate::linear::numbers;
use number_sets::NumberSet;
use std::alloc::Global;
use term_core::{NoMemory, Term};

// The states that stand at an argument place of a symbol, in order.
fn states_at(
    alloc: Global,
    index: &AutomatonIndex<'_>,
    f: u32,
    place: usize,
) -> Result<Vec<u32>, NoMemory>
    ensures { IfOk result (λ states. states.items ≡ pool_lists.states_at index.now f place) }
{
    let mut set = NumberSet::new(alloc);
    for transition in index.with_symbol(f) {
        if let Some(state) = transition.args.get(place) {
            set.insert(*state)?;
        }
    }
    set.numbers(alloc)
}

// Puts the states of the occurrences in a term at an argument place of a symbol last.
#[cycle(put_pools)]
fn put_pools_at(
    alloc: Global,
    index: &AutomatonIndex<'_>,
    f: u32,
    place: usize,
    t: &Term,
    pools: &mut Vec<Vec<u32>>,
) -> Result<(), NoMemory>
    ensures { OnOk result (as_lists pools.new.items ≡ as_lists pools.old.items ++ pools_at index.now f place (view t.now)) }
{
    match t {
        Term::Var(_) => {
            pools.push(states_at(alloc, index, f, place)?)?;
            Ok(())
        }
        Term::Fun(g, args) => put_pools(alloc, index, *g, args, pools),
    }
}

// The same for the arguments of a symbol.
#[cycle(put_pools)]
fn put_pools(
    alloc: Global,
    index: &AutomatonIndex<'_>,
    f: u32,
    args: &[Term],
    pools: &mut Vec<Vec<u32>>,
) -> Result<(), NoMemory>
    ensures { OnOk result (as_lists pools.new.items ≡ as_lists pools.old.items ++ pools_from index.now f 0 (views args.now)) }
{
    for place in 0..args.len() {
        put_pools_at(alloc, index, f, place, &args[place], pools)?;
    }
    Ok(())
}

/// For each variable occurrence of a term the states that stand at its place in transitions: with no other the term
/// arrives.
pub(crate) fn pools(
    alloc: Global,
    index: &AutomatonIndex<'_>,
    t: &Term,
) -> Result<Vec<Vec<u32>>, NoMemory>
    ensures { IfOk result (λ made. as_lists made.items ≡ pools_of index.now (view t.now)) }
{
    let mut made = Vec::new(alloc);
    match t {
        Term::Var(_) => made.push(numbers(alloc, index.states() as usize)?)?,
        Term::Fun(f, args) => put_pools(alloc, index, *f, args, &mut made)?,
    }
    Ok(made)
}
