//! Transitions in order by symbol, arguments and target: where one stands, and adding one that is not there yet.
ghost use Rattle.std.specs.Prelude.{◌≡◌, ◌≤◌, map, length, Contains, OnOk};
ghost use Rattle.std.specs.List.{insert};
ghost use Rattle.rewriting.specs.Lists.{IsSorted};
ghost use Rattle.cert_model.specs.EvidenceView.{transition_view};
ghost use Rattle.automaton_grow.specs.Growing.{AddAnswers};
ghost use Rattle.automaton_grow.specs.Placing.{HeadAnswers, CompareAnswers, PlaceAnswers, transition_of};
ghost use Rattle.automata.specs.Growth.{IsTransitionBefore};

use crate::GrowError;
use automata::MOST_GROWN_TRANSITIONS;
use cert_model::Transition;
use std::alloc::Global;
use std::cmp::Ordering;
use term_core::NoMemory;

fn compare_symbols(a: Option<u32>, b: Option<u32>) -> Ordering
    ensures { HeadAnswers a b result }
{
    match (a, b) {
        (Some(f), Some(g)) => f.cmp(&g),
        (Some(_), None) => Ordering::Less,
        (None, Some(_)) => Ordering::Greater,
        (None, None) => Ordering::Equal,
    }
}

// Compares a transition with one that is given by its parts.
fn compare(a: &Transition, symbol: Option<u32>, args: &[u32], target: u32) -> Ordering
    ensures { CompareAnswers (transition_view a.now) (transition_of symbol args.now target) result }
{
    match compare_symbols(a.symbol, symbol) {
        Ordering::Less => Ordering::Less,
        Ordering::Greater => Ordering::Greater,
        Ordering::Equal => match a.args.as_slice().cmp(&args) {
            Ordering::Less => Ordering::Less,
            Ordering::Greater => Ordering::Greater,
            Ordering::Equal => a.target.cmp(&target),
        },
    }
}

// Where the transition stands among those in order, or else its place.
fn place(
    transitions: &[Transition],
    symbol: Option<u32>,
    args: &[u32],
    target: u32,
) -> Result<usize, usize>
    requires { IsSorted IsTransitionBefore (map transition_view transitions.now) }
    ensures { PlaceAnswers (map transition_view transitions.now) (transition_of symbol args.now target) result }
{
    let mut low = 0;
    let mut high = transitions.len();
    'halves: while low < high {
        let middle = low + (high - low) / 2;
        match compare(&transitions[middle], symbol, args, target) {
            Ordering::Less => low = middle + 1,
            Ordering::Greater => high = middle,
            Ordering::Equal => return Ok(middle),
        }
    }
    Err(low)
}

// Puts a transition at its place.
fn put(
    alloc: Global,
    symbol: Option<u32>,
    args: &[u32],
    target: u32,
    at: usize,
    transitions: &mut Vec<Transition>,
) -> Result<(), NoMemory>
    requires { at ≤ length transitions.old.items }
    ensures { OnOk result (map transition_view transitions.new.items ≡ insert (map transition_view transitions.old.items) at (transition_of symbol args.now target)) }
{
    let transition = Transition {
        symbol,
        args: Vec::from_slice(alloc, args)?,
        target,
    };
    transitions.insert(at, transition)?;
    Ok(())
}

/// Adds a transition to those in order, where it is not there yet.
pub fn add(
    alloc: Global,
    symbol: Option<u32>,
    args: &[u32],
    target: u32,
    transitions: &mut Vec<Transition>,
) -> Result<(), GrowError>
    requires sorted { IsSorted IsTransitionBefore (map transition_view transitions.old.items) }
    requires few { length (map transition_view transitions.old.items) ≤ MOST_GROWN_TRANSITIONS }
    ensures { AddAnswers (λ d. d ≡ transition_of symbol args.now target) (map transition_view transitions.old.items) (map transition_view transitions.new.items) result }
{
    match place(transitions, symbol, args, target) {
        Ok(_) => Ok(()),
        Err(at) => {
            put(alloc, symbol, args, target, at, transitions)?;
            if transitions.len() > MOST_GROWN_TRANSITIONS {
                return Err(GrowError::TooManyTransitions);
            }
            Ok(())
        }
    }
}

/// Adds each of some transitions.
pub fn add_all(
    alloc: Global,
    some: &[Transition],
    transitions: &mut Vec<Transition>,
) -> Result<(), GrowError>
    requires sorted { IsSorted IsTransitionBefore (map transition_view transitions.old.items) }
    requires few { length (map transition_view transitions.old.items) ≤ MOST_GROWN_TRANSITIONS }
    ensures { AddAnswers (Contains (map transition_view some.now)) (map transition_view transitions.old.items) (map transition_view transitions.new.items) result }
{
    for one in some {
        add(alloc, one.symbol, &one.args, one.target, transitions)?;
    }
    Ok(())
}
