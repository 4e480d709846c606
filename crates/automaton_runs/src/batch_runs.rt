//! Runs on a term by all choices of a batch at once: the states that it reaches, each with the numbers of the choices.
ghost use Rattle.std.specs.Prelude.{◌≡◌, ◌↔◌, ◌⊎◌, ℕ, length, IfOk, OnOk, IsTrue};
ghost use Rattle.std.specs.List.{AllZip};
ghost use Rattle.rewriting.specs.Terms as math;
ghost use Rattle.rewriting.specs.Prelude.{variable_occurrences, IsAmong};
ghost use Rattle.automata.specs.Runs.{ReachBy};
ghost use Rattle.cert_model.specs.EvidenceView.{transition_view};
ghost use Rattle.term_core.specs.View.{view};
ghost use Rattle.number_sets.specs.Sets.{members};
ghost use Rattle.number_sets.specs.Relation.{Relates};
ghost use Rattle.automaton_runs.specs.Choices.{occurrences_of};
ghost use Rattle.automaton_runs.specs.Counted.{Finds};
ghost use Rattle.automaton_runs.specs.Indexed.{pointed};
ghost use Rattle.automaton_runs.specs.Relations.{relation_of, relations};
ghost use Rattle.automaton_runs.specs.Reached.{AreWhere, Reaches, IsOneOf, AreRelated, Leads, HaveLeads, HaveLeadsByFirst, IsReachedFrom};
ghost use Rattle.automaton_runs.specs.Shared.{IsShared};

use crate::batch::Batch;
use crate::index::AutomatonIndex;
use crate::linear::{linear, numbers};
use crate::relations::Evaluated;
use crate::sharing::Shared;
use cert_model::Transition;
use number_sets::{NumberRelation, NumberSet};
use std::alloc::Global;
use term_core::{NoMemory, Term};

// A symbol over evaluated arguments, with the numbers by which it leads on where it has none.
#[derive(Clone, Copy)]
struct Applied<'a> {
    f: u32,
    all: &'a NumberSet,
    args: &'a [Evaluated<'a>],
}

// Relates the target of a transition to the numbers by which the symbol leads to it.
fn put_transition<'a>(
    alloc: Global,
    transition: &'a Transition,
    applied: Applied<'a>,
    shared: &mut Shared<'a>,
    made: &mut NumberRelation,
) -> Result<(), NoMemory>
    requires { IsShared (members applied.all.now) (relations applied.args.now) shared.old }
    ensures shared { OnOk result (IsShared (members applied.entry.all.now) (relations applied.entry.args.now) shared.new) }
    ensures made { OnOk result ((q k : ℕ) → Relates made.new q k ↔ (Relates made.old q k ⊎ Leads applied.entry.f (members applied.entry.all.now) (relations applied.entry.args.now) (transition_view transition.now) q k)) }
{
    if transition.symbol == Some(applied.f) {
        shared.move_to(alloc, applied.all, applied.args, &transition.args)?;
        shared.put(alloc, transition.target, made)?;
    }
    Ok(())
}

// The same for each of some transitions.
fn put_transitions<'a>(
    alloc: Global,
    transitions: &'a [&'a Transition],
    applied: Applied<'a>,
    made: &mut NumberRelation,
) -> Result<(), NoMemory>
    ensures { OnOk result ((q k : ℕ) → Relates made.new q k ↔ (Relates made.old q k ⊎ HaveLeads applied.entry.f (members applied.entry.all.now) (relations applied.entry.args.now) (pointed transitions.now) q k)) }
{
    let mut shared = Shared::new(alloc, applied.all, applied.args);
    for transition in transitions {
        put_transition(alloc, transition, applied, &mut shared, made)?;
    }
    Ok(())
}

// The same for the transitions whose first argument is a state of the first relation.
fn put_by_first(
    alloc: Global,
    index: &AutomatonIndex<'_>,
    first: &NumberRelation,
    applied: Applied<'_>,
    made: &mut NumberRelation,
) -> Result<(), NoMemory>
    ensures { OnOk result ((q k : ℕ) → Relates made.new q k ↔ (Relates made.old q k ⊎ HaveLeadsByFirst index.now first.now applied.entry.f (members applied.entry.all.now) (relations applied.entry.args.now) q k)) }
{
    for state in 0..first.lefts() {
        let state = state as u32;
        if first.has_left(state) {
            put_transitions(alloc, index.with_first(state), applied, made)?;
        }
    }
    Ok(())
}

// Whether a relation has few states against so many transitions: then their first arguments are looked up.
fn has_few_lefts(relation: &NumberRelation, transitions: usize) -> bool {
    let most = transitions / 16;
    let mut found: usize = 0;
    for left in 0..relation.lefts() {
        if relation.has_left(left as u32) {
            if found >= most {
                return false;
            }
            found += 1;
        }
    }
    true
}

// The states to which the symbol leads, by each of the numbers.
pub(crate) fn reached_from(
    alloc: Global,
    index: &AutomatonIndex<'_>,
    f: u32,
    all: &NumberSet,
    args: &[Evaluated<'_>],
) -> Result<NumberRelation, NoMemory>
    ensures { IfOk result (λ r. (q k : ℕ) → Relates r q k ↔ (IsOneOf (relations args.now) (members all.now) k × IsReachedFrom index.now f (relations args.now) q k)) }
{
    let mut made = NumberRelation::new(alloc);
    let transitions = index.with_symbol(f);
    let applied = Applied { f, all, args };
    match args.first() {
        Some(first) if has_few_lefts(first.relation(), transitions.len()) => {
            put_by_first(alloc, index, first.relation(), applied, &mut made)?;
        }
        _ => put_transitions(alloc, transitions, applied, &mut made)?,
    }
    Ok(made)
}

// The states that a term reaches by the choices of a batch, where each variable has the state of its first name, or 0.
#[cycle(evaluate)]
fn evaluate<'a>(
    alloc: Global,
    index: &AutomatonIndex<'_>,
    batch: &'a Batch<'_>,
    names: &[u32],
    t: &Term,
) -> Result<Evaluated<'a>, NoMemory>
    requires { length names.now ≡ occurrences_of batch.now }
    ensures { IfOk result (λ e. AreWhere batch.now (Reaches index.now names.now (view t.now)) (relation_of e)) }
{
    match t {
        Term::Var(x) => Ok(Evaluated::Stored(batch.states_of(names, *x))),
        Term::Fun(f, args) => {
            let args = evaluate_each(alloc, index, batch, names, args)?;
            let made = reached_from(alloc, index, *f, batch.all(), &args)?;
            Ok(Evaluated::Made(made))
        }
    }
}

#[cycle(evaluate)]
fn evaluate_each<'a>(
    alloc: Global,
    index: &AutomatonIndex<'_>,
    batch: &'a Batch<'_>,
    names: &[u32],
    args: &[Term],
) -> Result<Vec<Evaluated<'a>>, NoMemory>
    requires { length names.now ≡ occurrences_of batch.now }
    ensures { IfOk result (λ made. AllZip (λ t e. AreWhere batch.now (Reaches index.now names.now (view t)) (relation_of e)) args.now made.items) }
{
    let mut made = Vec::with_capacity(alloc, args.len())?;
    for arg in args {
        made.push(evaluate(alloc, index, batch, names, arg)?)?;
    }
    Ok(made)
}

/// The states that a term reaches by the choices of a batch, where each variable has the state of its first name, or 0.
pub fn reached(
    alloc: Global,
    index: &AutomatonIndex<'_>,
    batch: &Batch<'_>,
    names: &[u32],
    t: &Term,
) -> Result<NumberRelation, NoMemory>
    requires { length names.now ≡ occurrences_of batch.now }
    ensures { IfOk result (AreWhere batch.now (Reaches index.now names.now (view t.now))) }
{
    match evaluate(alloc, index, batch, names, t)? {
        Evaluated::Stored(relation) => relation.copy(alloc),
        Evaluated::Made(relation) => Ok(relation),
    }
}

/// The states that a term reaches by the choices of a batch, where each variable occurrence has a state of its own.
pub fn reached_by_occurrences(
    alloc: Global,
    index: &AutomatonIndex<'_>,
    batch: &Batch<'_>,
    t: &Term,
) -> Result<NumberRelation, NoMemory>
    requires fits { math.Fits (view t.now) }
    requires length { occurrences_of batch.now ≡ length (variable_occurrences (view t.now)) }
    ensures { IfOk result (AreWhere batch.now (ReachBy (Finds index.now) (view t.now))) }
{
    let names = numbers(alloc, batch.occurrences())?;
    reached(alloc, index, batch, &names, &linear(alloc, t)?)
}
