//! The transitions of an automaton that count by some symbols, found by symbol, by first argument, by target or as a whole.
ghost use Rattle.std.specs.Prelude.{◌≡◌, ◌++◌, ◌∷◌, ◌↔◌, ◌⊎◌, ℕ, true, [], IfOk, OnOk, IsTrue, map, filter, if◌then◌else◌};
ghost use Rattle.certificates.specs.Evidence as math;
ghost use Rattle.cert_model.specs.EvidenceView.{transition_view, automaton_view};
ghost use Rattle.automaton_runs.specs.Counted.{Finds, symbols_of};
ghost use Rattle.automaton_runs.specs.Counting as counting;
ghost use Rattle.automaton_runs.specs.Counting.{are_below, is_head, counts, key_of, chosen, symbol_key, first_key, target_key};
ghost use Rattle.automaton_runs.specs.Groups.{listed};
ghost use Rattle.rewriting.specs.Lists.{IsAmong};
ghost use Rattle.automaton_runs.specs.Twins.{known_view, AreKnown};
ghost use Rattle.automaton_runs.specs.Indexed.{key_view, pointed, IsGroupedBy};

use crate::groups::Groups;
use cert_model::{Automaton, Transition};
use std::alloc::Global;
use std::collections::BTreeSet;
use std::marker::Model;
use term_core::NoMemory;

// What transitions are looked up by.
#[derive(Clone, Copy, Debug)]
pub(crate) enum Key {
    Symbol,
    FirstArgument,
    Target,
}

// A transition, to be looked up.
#[derive(Clone, Copy, Debug, PartialEq, Eq, PartialOrd, Ord)]
pub(crate) struct Known<'a> {
    symbol: Option<u32>,
    args: &'a [u32],
    target: u32,
}

/// The transitions of an automaton that count by some symbols: by their symbols, first arguments and targets, and as a set.
#[derive(Debug, Drop)]
pub struct AutomatonIndex<'a> {
    arities: Option<&'a [u32]>,
    automaton: &'a Automaton,
    by_symbol: Groups<&'a Transition>,
    by_first: Groups<&'a Transition>,
    by_target: Groups<&'a Transition>,
    known: BTreeSet<Known<'a>>,
}

impl<'a> Model for AutomatonIndex<'a> {
    ghost use Rattle.automaton_runs.specs.Counted as counted;
    ghost use Rattle.automaton_runs.specs.IndexView.{index_view, IsIndexed};

    ghost Value = { counted.Indexed };

    ghost view = { index_view };

    ghost invariant = { IsIndexed };
}

fn are_states(count: u32, numbers: &[u32]) -> bool
    ensures { result ≡ are_below count numbers.now }
{
    for q in numbers {
        if *q >= count {
            return false;
        }
    }
    true
}

// Whether the symbol may have so many arguments.
fn has_arity(arities: Option<&[u32]>, f: u32, arguments: usize) -> bool
    ensures { result ≡ counting.has_arity (symbols_of arities.entry) f arguments }
{
    match arities {
        Some(arities) => match arities.get(f as usize) {
            Some(arity) => *arity as usize == arguments,
            None => false,
        },
        None => true,
    }
}

// Whether the transition has a symbol with as many arguments as it may have, or no symbol and no arguments.
fn has_head(arities: Option<&[u32]>, transition: &Transition) -> bool
    ensures { result ≡ is_head (symbols_of arities.entry) (transition_view transition.now).symbol (transition_view transition.now).arguments }
{
    match transition.symbol {
        Some(f) => has_arity(arities, f, transition.args.len()),
        None => transition.args.is_empty(),
    }
}

// Whether a transition counts: it has a head, and its numbers are states.
fn is_counted(arities: Option<&[u32]>, states: u32, transition: &Transition) -> bool
    ensures { result ≡ counts (symbols_of arities.entry) states (transition_view transition.now) }
{
    has_head(arities, transition)
        && are_states(states, &transition.args)
        && transition.target < states
}

fn number_of(key: Key, transition: &Transition) -> Option<u32>
    ensures { result ≡ key_of (key_view key) (transition_view transition.now) }
{
    match key {
        Key::Symbol => transition.symbol,
        Key::FirstArgument => transition.args.first().copied(),
        Key::Target => Some(transition.target),
    }
}

// Puts a transition that counts last at its number.
fn put_transition<'a>(
    alloc: Global,
    arities: Option<&[u32]>,
    states: u32,
    key: Key,
    transition: &'a Transition,
    groups: &mut Groups<&'a Transition>,
) -> Result<(), NoMemory>
    ensures { OnOk result ((q : ℕ) → pointed (listed groups.new q) ≡ pointed (listed groups.old q) ++ (if chosen (symbols_of arities.entry) (key_view key) states q (transition_view transition.now) then transition_view transition.now ∷ [] else [])) }
{
    if is_counted(arities, states, transition) {
        if let Some(number) = number_of(key, transition) {
            groups.put(alloc, number, transition)?;
        }
    }
    Ok(())
}

fn grouped<'a>(
    alloc: Global,
    arities: Option<&[u32]>,
    automaton: &'a Automaton,
    key: Key,
) -> Result<Groups<&'a Transition>, NoMemory>
    ensures { IfOk result (IsGroupedBy (key_view key) (record { symbols = symbols_of arities.entry; automaton = automaton_view automaton.now })) }
{
    let mut groups = Groups::new(alloc);
    for transition in &automaton.transitions {
        put_transition(
            alloc,
            arities,
            automaton.states,
            key,
            transition,
            &mut groups,
        )?;
    }
    Ok(groups)
}

// Puts a transition that counts into the set.
fn put_known<'a>(
    arities: Option<&[u32]>,
    states: u32,
    transition: &'a Transition,
    known: &mut BTreeSet<Known<'a>>,
) -> Result<(), NoMemory>
    ensures { OnOk result ((t : math.Transition) → IsAmong t (map known_view known.new.keys) ↔ (IsAmong t (map known_view known.old.keys) ⊎ ((t ≡ transition_view transition.now) × (counts (symbols_of arities.entry) states (transition_view transition.now) ≡ true)))) }
{
    if is_counted(arities, states, transition) {
        known.insert(Known {
            symbol: transition.symbol,
            args: &transition.args,
            target: transition.target,
        })?;
    }
    Ok(())
}

fn known_transitions<'a>(
    alloc: Global,
    arities: Option<&[u32]>,
    automaton: &'a Automaton,
) -> Result<BTreeSet<Known<'a>>, NoMemory>
    ensures { IfOk result (λ known. AreKnown (symbols_of arities.entry) automaton.now.states (map transition_view automaton.now.transitions.items) known) }
{
    let mut known = BTreeSet::new(alloc);
    for transition in &automaton.transitions {
        put_known(arities, automaton.states, transition, &mut known)?;
    }
    Ok(known)
}

impl<'a> AutomatonIndex<'a> {
    /// The index of an automaton, whose numbers may be any. Transitions count where their symbols have these arities,
    /// or by every symbol where there are none.
    pub fn new(
        alloc: Global,
        arities: Option<&'a [u32]>,
        automaton: &'a Automaton,
    ) -> Result<AutomatonIndex<'a>, NoMemory>
        ensures { IfOk result (λ index. index ≡ record { symbols = symbols_of arities.entry; automaton = automaton_view automaton.now }) }
    {
        let by_symbol = grouped(alloc, arities, automaton, Key::Symbol)?;
        let by_first = grouped(alloc, arities, automaton, Key::FirstArgument)?;
        let by_target = grouped(alloc, arities, automaton, Key::Target)?;
        let known = known_transitions(alloc, arities, automaton)?;
        Ok(AutomatonIndex {
            arities,
            automaton,
            by_symbol,
            by_first,
            by_target,
            known,
        })
    }

    /// The number of states.
    pub fn states(&self) -> u32
        ensures { result ≡ self.now.automaton.states }
    {
        self.automaton.states
    }

    /// The transitions that count and have this symbol.
    pub fn with_symbol(&self, f: u32) -> &[&'a Transition]
        ensures { pointed result.now ≡ filter (chosen self.now.symbols symbol_key self.now.automaton.states f) self.now.automaton.transitions }
    {
        self.by_symbol.at(f)
    }

    /// The transitions that count and have this first argument.
    pub fn with_first(&self, q: u32) -> &[&'a Transition]
        ensures { pointed result.now ≡ filter (chosen self.now.symbols first_key self.now.automaton.states q) self.now.automaton.transitions }
    {
        self.by_first.at(q)
    }

    /// The transitions that count and have this target.
    pub fn with_target(&self, q: u32) -> &[&'a Transition]
        ensures { pointed result.now ≡ filter (chosen self.now.symbols target_key self.now.automaton.states q) self.now.automaton.transitions }
    {
        self.by_target.at(q)
    }

    /// Whether the automaton has a transition: it is listed, and counts.
    pub fn has(&self, symbol: Option<u32>, args: &'a [u32], target: u32) -> bool
        ensures { IsTrue result ↔ Finds self.now symbol args.now target }
    {
        self.known.contains(&Known {
            symbol,
            args,
            target,
        })
    }
}
