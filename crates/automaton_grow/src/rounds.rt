//! The transitions that growth starts from, and one round, which adds what the rules ask for where their left sides arrive.
ghost use Rattle.std.specs.Prelude.{◌≡◌, ◌<◌, ◌≤◌, ◌+◌, ◌^◌, map, length, Contains};
ghost use Rattle.rewriting.specs.Prelude.{Fits, size, IsSystem, variable_occurrences, IsSorted};
ghost use Rattle.automata.specs.Growth.{state_count, IsTransitionBefore};
ghost use Rattle.term_core.specs.Prelude.{view, rule_view};
ghost use Rattle.cert_model.specs.EvidenceView.{transition_view, automaton_view};
ghost use Rattle.automaton_runs.specs.Counted.{under_all};
ghost use Rattle.automaton_runs.specs.Arrivals.{arrival_view};
ghost use Rattle.automaton_grow.specs.Growing.{twins, HasAll, IsAskedAt, IsAskedByRule, IsAskedBelow, AddAnswers, AreAllStates, IsPartial};
ghost use Rattle.automaton_grow.specs.Limits.{AreNarrowBelow};
ghost use Rattle.automaton_grow.specs.Rounds.{IsBasicOf, IsAskedByRows, PartialAnswers, RoundAnswers};

use crate::GrowError;
use crate::ordered::{add, add_all};
use crate::sides::{Assigned, inner, proper, push_grown, state_of};
use automata::{MOST_GROWN_STATES, MOST_GROWN_TRANSITIONS, MOST_GROWTH_CHOICES};
use automaton_runs::{Arrival, AutomatonIndex, arrivals, occurrences};
use cert_model::{Automaton, Transition};
use std::alloc::Global;
use term_core::{Rule, System, Term};

// Adds the transitions from states 0 to the state 0 under each symbol, then the one for variables, then some others.
fn add_basic(
    alloc: Global,
    arities: &[u32],
    inside: &[Transition],
    transitions: &mut Vec<Transition>,
) -> Result<(), GrowError>
    requires few { length arities.now < 2 ^ 31 }
    requires sorted { IsSorted IsTransitionBefore (map transition_view transitions.old.items) }
    requires most { length (map transition_view transitions.old.items) ≤ MOST_GROWN_TRANSITIONS }
    ensures { AddAnswers (IsBasicOf arities.now (map transition_view inside.now)) (map transition_view transitions.old.items) (map transition_view transitions.new.items) result }
{
    for f in 0..arities.len() {
        let args = vec![in alloc; 0; arities[f] as usize]?;
        add(alloc, Some(f as u32), &args, 0, transitions)?;
    }
    add(alloc, None, &[], 0, transitions)?;
    add_all(alloc, inside, transitions)
}

/// The transitions that state 0 and the term ask for.
pub fn start(alloc: Global, sys: &System, s: &Term) -> Result<Vec<Transition>, GrowError>
    requires fits { Fits (view s.now) }
    requires system { IsSystem sys.now }
    ensures { PartialAnswers sys.now (view s.now) result }
{
    let mut inside = Vec::new(alloc);
    let values = Assigned {
        leaves: &[],
        states: &[],
    };
    push_grown(alloc, values, 2, s, 1, &mut inside)?;
    let mut transitions = Vec::new(alloc);
    add_basic(alloc, sys.arities(), &inside, &mut transitions)?;
    Ok(transitions)
}

// Adds the twins at a state of the transitions to another.
fn add_twins(
    alloc: Global,
    current: &[Transition],
    from: u32,
    to: u32,
    next: &mut Vec<Transition>,
) -> Result<(), GrowError>
    requires sorted { IsSorted IsTransitionBefore (map transition_view next.old.items) }
    requires few { length (map transition_view next.old.items) ≤ MOST_GROWN_TRANSITIONS }
    ensures { AddAnswers (Contains (twins from to (map transition_view current.now))) (map transition_view next.old.items) (map transition_view next.new.items) result }
{
    for one in current {
        if one.target == from {
            add(alloc, one.symbol, &one.args, to, next)?;
        }
    }
    Ok(())
}

// Adds the same, where all transitions are there already, and so are the twins at a state itself.
fn add_moved(
    alloc: Global,
    current: &[Transition],
    from: u32,
    to: u32,
    next: &mut Vec<Transition>,
) -> Result<(), GrowError>
    requires kept { HasAll (map transition_view current.now) (map transition_view next.old.items) }
    requires sorted { IsSorted IsTransitionBefore (map transition_view next.old.items) }
    requires few { length (map transition_view next.old.items) ≤ MOST_GROWN_TRANSITIONS }
    ensures { AddAnswers (Contains (twins from to (map transition_view current.now))) (map transition_view next.old.items) (map transition_view next.new.items) result }
{
    if from == to {
        return Ok(());
    }
    add_twins(alloc, current, from, to, next)
}

// A rule, and the first of the states that its right side's proper subterms have.
#[derive(Clone, Copy)]
struct Placed<'a> {
    rule: &'a Rule,
    first: u32,
}

// Adds what the rule asks for where its left side reaches a state by a choice for its leaves.
fn add_asked(
    alloc: Global,
    placed: Placed<'_>,
    values: Assigned<'_>,
    state: u32,
    current: &[Transition],
    next: &mut Vec<Transition>,
) -> Result<(), GrowError>
    requires kept { HasAll (map transition_view current.now) (map transition_view next.old.items) }
    requires leaves { values.leaves.now ≡ variable_occurrences (view placed.rule.now.left) }
    requires room { placed.first + size (view placed.rule.now.right) < 2 ^ 32 }
    requires sorted { IsSorted IsTransitionBefore (map transition_view next.old.items) }
    requires few { length (map transition_view next.old.items) ≤ MOST_GROWN_TRANSITIONS }
    ensures { AddAnswers (IsAskedAt placed.entry.first (rule_view placed.entry.rule.now) (map transition_view current.now) values.entry.states.now state) (map transition_view next.old.items) (map transition_view next.new.items) result }
{
    match &placed.rule.right {
        Term::Var(x) => {
            let from = state_of(values.leaves, values.states, *x);
            add_moved(alloc, current, from, state, next)
        }
        Term::Fun(_, _) => {
            let mut grown = Vec::new(alloc);
            push_grown(
                alloc,
                values,
                placed.first,
                &placed.rule.right,
                state,
                &mut grown,
            )?;
            add_all(alloc, &grown, next)
        }
    }
}

// Adds what the rule asks for at these arrivals of its left side.
fn add_rule(
    alloc: Global,
    placed: Placed<'_>,
    current: &[Transition],
    rows: &[Arrival],
    next: &mut Vec<Transition>,
) -> Result<(), GrowError>
    requires kept { HasAll (map transition_view current.now) (map transition_view next.old.items) }
    requires room { placed.first + size (view placed.rule.now.right) < 2 ^ 32 }
    requires sorted { IsSorted IsTransitionBefore (map transition_view next.old.items) }
    requires few { length (map transition_view next.old.items) ≤ MOST_GROWN_TRANSITIONS }
    ensures { AddAnswers (IsAskedByRows placed.entry.first (rule_view placed.entry.rule.now) (map transition_view current.now) (map arrival_view rows.now)) (map transition_view next.old.items) (map transition_view next.new.items) result }
{
    let leaves = occurrences(alloc, &placed.rule.left)?;
    for row in rows {
        let values = Assigned {
            leaves: &leaves,
            states: &row.choice,
        };
        add_asked(alloc, placed, values, row.state, current, next)?;
    }
    Ok(())
}

// Adds what the rule asks for in the automaton.
fn grow_rule(
    alloc: Global,
    rule: &Rule,
    first: u32,
    current: &Automaton,
    index: &AutomatonIndex<'_>,
    next: &mut Vec<Transition>,
) -> Result<(), GrowError>
    requires index { index.now ≡ under_all (automaton_view current.now) }
    requires fits { Fits (view rule.now.left) }
    requires narrow { current.now.states ^ length (variable_occurrences (view rule.now.left)) ≤ MOST_GROWTH_CHOICES }
    requires states { AreAllStates (automaton_view current.now) }
    requires kept { HasAll (map transition_view current.now.transitions.items) (map transition_view next.old.items) }
    requires room { first + size (view rule.now.right) < 2 ^ 32 }
    requires sorted { IsSorted IsTransitionBefore (map transition_view next.old.items) }
    requires few { length (map transition_view next.old.items) ≤ MOST_GROWN_TRANSITIONS }
    ensures { AddAnswers (IsAskedByRule current.now.states first (rule_view rule.now) (map transition_view current.now.transitions.items)) (map transition_view next.old.items) (map transition_view next.new.items) result }
{
    let rows = arrivals(alloc, index, &rule.left)?;
    add_rule(
        alloc,
        Placed { rule, first },
        &current.transitions,
        &rows,
        next,
    )
}

// Adds what the rules ask for in the automaton.
fn grow_rules(
    alloc: Global,
    sys: &System,
    s: &Term,
    current: &Automaton,
    index: &AutomatonIndex<'_>,
    next: &mut Vec<Transition>,
) -> Result<(), GrowError>
    requires index { index.now ≡ under_all (automaton_view current.now) }
    requires fits { Fits (view s.now) }
    requires states { current.now.states ≡ state_count sys.now (view s.now) }
    requires most { current.now.states ≤ MOST_GROWN_STATES }
    requires narrow { AreNarrowBelow current.now.states sys.now.rules (length sys.now.rules) }
    requires partial { IsPartial sys.now (view s.now) (map transition_view current.now.transitions.items) }
    requires kept { HasAll (map transition_view current.now.transitions.items) (map transition_view next.old.items) }
    requires sorted { IsSorted IsTransitionBefore (map transition_view next.old.items) }
    requires few { length (map transition_view next.old.items) ≤ MOST_GROWN_TRANSITIONS }
    ensures { AddAnswers (IsAskedBelow sys.now (view s.now) (length sys.now.rules) (map transition_view current.now.transitions.items)) (map transition_view next.old.items) (map transition_view next.new.items) result }
{
    let mut first = 1 + inner(s);
    let rules = sys.rules();
    for rule in rules {
        grow_rule(alloc, rule, first, current, index, next)?;
        first += proper(&rule.right);
    }
    Ok(())
}

/// The transitions of the automaton with what they ask for.
pub fn round(
    alloc: Global,
    sys: &System,
    s: &Term,
    current: &Automaton,
) -> Result<Vec<Transition>, GrowError>
    requires fits { Fits (view s.now) }
    requires states { current.now.states ≡ state_count sys.now (view s.now) }
    requires most { current.now.states ≤ MOST_GROWN_STATES }
    requires narrow { AreNarrowBelow current.now.states sys.now.rules (length sys.now.rules) }
    requires partial { IsPartial sys.now (view s.now) (map transition_view current.now.transitions.items) }
    ensures { RoundAnswers sys.now (view s.now) (map transition_view current.now.transitions.items) result }
{
    let index = AutomatonIndex::new(alloc, None, current)?;
    let copy = current.try_clone(alloc)?;
    let mut next = copy.transitions;
    grow_rules(alloc, sys, s, current, &index, &mut next)?;
    Ok(next)
}
