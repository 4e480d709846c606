//! The choices of a state of each pool, in order: those of all pools, or of as many last ones as have few choices.
ghost use Rattle.std.specs.Prelude.{◌≡◌, ◌++◌, ◌∷◌, ◌≤◌, [], IfOk, OnOk, drop, length, map};
ghost use Rattle.automaton_runs.specs.Choices as choice_lists;
ghost use Rattle.automaton_runs.specs.Choices.{as_lists, choices_of};

use std::alloc::Global;
use term_core::{MAX_NODES, NoMemory};

// The most choices of the last pools that are taken together.
const MAX_TAILS: usize = 10_000;

// The one choice of no pool.
fn no_states(alloc: Global) -> Result<Vec<Vec<u32>>, NoMemory>
    ensures { IfOk result (λ made. as_lists made.items ≡ [] ∷ []) }
{
    let mut made = Vec::new(alloc);
    made.push(Vec::new(alloc))?;
    Ok(made)
}

// A state before a list.
fn longer(alloc: Global, state: u32, list: &[u32]) -> Result<Vec<u32>, NoMemory>
    ensures { IfOk result (λ made. made.items ≡ state ∷ list.now) }
{
    let mut made = Vec::new(alloc);
    made.push(state)?;
    made.extend_from_slice(list)?;
    Ok(made)
}

// Puts the lists with a state before each of them last.
fn put_before(
    alloc: Global,
    state: u32,
    lists: &[Vec<u32>],
    out: &mut Vec<Vec<u32>>,
) -> Result<(), NoMemory>
    ensures { OnOk result (as_lists out.new.items ≡ as_lists out.old.items ++ map (λ list. state ∷ list) (as_lists lists.now)) }
{
    for list in lists {
        out.push(longer(alloc, state, list)?)?;
    }
    Ok(())
}

// Each of some states before each of some lists.
fn before_each(alloc: Global, states: &[u32], lists: &[Vec<u32>]) -> Result<Vec<Vec<u32>>, NoMemory>
    ensures { IfOk result (λ made. as_lists made.items ≡ choice_lists.before_each states.now (as_lists lists.now)) }
{
    let mut made = Vec::new(alloc);
    for state in states {
        put_before(alloc, *state, lists, &mut made)?;
    }
    Ok(made)
}

/// All choices of a state of each pool, in order.
pub(crate) fn choices(alloc: Global, pools: &[Vec<u32>]) -> Result<Vec<Vec<u32>>, NoMemory>
    ensures { IfOk result (λ made. as_lists made.items ≡ choices_of (as_lists pools.now)) }
{
    let mut made = no_states(alloc)?;
    let mut place = pools.len();
    'pools: while place > 0 {
        place -= 1;
        made = before_each(alloc, &pools[place], &made)?;
    }
    Ok(made)
}

/// Where the last pools begin that have few choices, and these choices.
pub(crate) fn tails(alloc: Global, pools: &[Vec<u32>]) -> Result<(usize, Vec<Vec<u32>>), NoMemory>
    ensures within { IfOk result (λ found. found.0 ≤ length pools.now) }
    ensures choices { IfOk result (λ found. as_lists found.1.items ≡ choices_of (drop found.0 (as_lists pools.now))) }
    ensures few { IfOk result (λ found. length found.1.items ≤ MAX_NODES) }
{
    let mut made = no_states(alloc)?;
    let mut place = pools.len();
    'pools: while place > 0 && made.len().saturating_mul(pools[place - 1].len()) <= MAX_TAILS {
        place -= 1;
        made = before_each(alloc, &pools[place], &made)?;
    }
    Ok((place, made))
}
