//! The arrivals of a term: its choices of states for variable occurrences, each with a state that the term reaches by it.
ghost use Rattle.std.specs.Prelude.{◌≡◌, ◌≤◌, ◌^◌, ◌++◌, [], length, AllPairs, IfOk, OnOk, map};
ghost use Rattle.rewriting.specs.Terms as math;
ghost use Rattle.rewriting.specs.Prelude.{IsBefore, variable_occurrences};
ghost use Rattle.term_core.specs.View.{view};
ghost use Rattle.automaton_runs.specs.Arrivals.{arrival_view, AreArrivals, HaveBatchArrivals};
ghost use Rattle.automaton_runs.specs.Choices.{AreChoices, occurrences_of};

use crate::batch::Batch;
use crate::batch_runs::reached_by_occurrences;
use crate::choices::Choices;
use crate::index::AutomatonIndex;
use automata::MOST_CHOICES;
use std::alloc::Global;
use term_core::{NoMemory, Term};

/// A state that a term reaches, where its variable occurrences, from left to right, have the chosen states.
#[derive(Debug, Drop, PartialEq, Eq, PartialOrd, Ord)]
pub struct Arrival {
    pub choice: Vec<u32>,
    pub state: u32,
}

// Puts the arrivals by a choice last.
fn put_arrivals(
    alloc: Global,
    choice: &[u32],
    states: &[u32],
    rows: &mut Vec<Arrival>,
) -> Result<(), NoMemory>
    ensures { OnOk result (map arrival_view rows.new.items ≡ map arrival_view rows.old.items ++ map (λ q. (choice.now, q)) states.now) }
{
    for state in states {
        let choice = Vec::from_slice(alloc, choice)?;
        rows.push(Arrival {
            choice,
            state: *state,
        })?;
    }
    Ok(())
}

// Puts the arrivals by the choices of a batch last.
fn put_batch(
    alloc: Global,
    index: &AutomatonIndex<'_>,
    batch: &Batch<'_>,
    t: &Term,
    rows: &mut Vec<Arrival>,
) -> Result<(), NoMemory>
    requires fits { math.Fits (view t.now) }
    requires length { occurrences_of batch.now ≡ length (variable_occurrences (view t.now)) }
    requires ordered { AllPairs IsBefore batch.now.tails }
    ensures { OnOk result (HaveBatchArrivals index.now (view t.now) batch.now (length batch.now.tails) (map arrival_view rows.old.items) (map arrival_view rows.new.items)) }
{
    let by_choice = reached_by_occurrences(alloc, index, batch, t)?.converse(alloc)?;
    for k in 0..batch.len() {
        if let Some(states) = by_choice.row(k) {
            let choice = batch.choice(alloc, k)?;
            put_arrivals(alloc, &choice, &states.numbers(alloc)?, rows)?;
        }
    }
    Ok(())
}

// Puts the arrivals by all choices last.
fn put_all(
    alloc: Global,
    index: &AutomatonIndex<'_>,
    choices: &Choices,
    t: &Term,
    rows: &mut Vec<Arrival>,
) -> Result<(), NoMemory>
    requires fits { math.Fits (view t.now) }
    requires choices { AreChoices index.now (view t.now) choices.now }
    requires none { map arrival_view rows.old.items ≡ [] }
    ensures { OnOk result (AreArrivals index.now (view t.now) (map arrival_view rows.new.items)) }
{
    for front in choices.fronts() {
        let batch = choices.batch(alloc, front)?;
        put_batch(alloc, index, &batch, t, rows)?;
    }
    Ok(())
}

/// The arrivals of a term: every choice of states for its variable occurrences with a state that it reaches by
/// the choice, in order by the choice and then the state.
pub fn arrivals(
    alloc: Global,
    index: &AutomatonIndex<'_>,
    t: &Term,
) -> Result<Vec<Arrival>, NoMemory>
    requires fits { math.Fits (view t.now) }
    requires few { index.now.automaton.states ^ length (variable_occurrences (view t.now)) ≤ MOST_CHOICES }
    ensures { IfOk result (λ rows. AreArrivals index.now (view t.now) (map arrival_view rows.items)) }
{
    let choices = Choices::new(alloc, index, t)?;
    let mut rows = Vec::new(alloc);
    put_all(alloc, index, &choices, t, &mut rows)?;
    Ok(rows)
}
