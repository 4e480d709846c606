//! The automaton that grows from a term until it is closed under the rules.
#![tactic(auto)]

ghost use Rattle.std.specs.Prelude.{◌≡◌, ◌≤◌, [], ◌∷◌, map, length, IfOk};
ghost use Rattle.rewriting.specs.Prelude.{Fits, IsSystem};
ghost use Rattle.automata.specs.Growth.{state_count};
ghost use Rattle.automata.specs.Growth as growth;
ghost use Rattle.automata.specs.Laws.{IsWellGrown};
ghost use Rattle.term_core.specs.View.{view};
ghost use Rattle.cert_model.specs.EvidenceView.{transition_view, automaton_view};
ghost use Rattle.automaton_grow.specs.Growing.{IsPartial};
ghost use Rattle.automaton_grow.specs.Limits.{AreNarrowBelow};
ghost use Rattle.automaton_grow.specs.Rounds.{GrownAnswers};
ghost use Rattle.automaton_grow.specs.Answers.{GrowAnswers};

mod limits;
mod ordered;
mod rounds;
mod sides;

use crate::limits::{check_widths, count_states};
use crate::rounds::{round, start};
use crate::sides::top;
use automata::MOST_GROWN_STATES;
use cert_model::Automaton;
use std::alloc::{AllocError, AllocFailed, Global};
use term_core::{NoMemory, System, Term};

/// Why no automaton is grown.
#[derive(Clone, Copy, Debug, PartialEq, Eq)]
pub enum GrowError {
    /// The first rule, from 1, for whose left side there are more than 100,000 choices of states.
    TooWide { rule: u32 },
    /// There are more than 64 states.
    TooManyStates,
    /// The least set has more than 5,000 transitions.
    TooManyTransitions,
    /// Memory was refused.
    NoMemory,
}

impl From<NoMemory> for GrowError {
    ghost use Rattle.automaton_grow.specs.declared.GrowError.TheVariants.{NoMemory as no_memory};

    ghost from_gives = { λ _ e. e ≡ no_memory };

    fn from(_e: NoMemory) -> GrowError {
        GrowError::NoMemory
    }
}

impl From<AllocError> for GrowError {
    ghost use Rattle.automaton_grow.specs.declared.GrowError.TheVariants.{NoMemory as no_memory};

    ghost from_gives = { λ _ e. e ≡ no_memory };

    fn from(_e: AllocError) -> GrowError {
        GrowError::NoMemory
    }
}

impl<T: Drop> From<AllocFailed<T>> for GrowError {
    ghost use Rattle.automaton_grow.specs.declared.GrowError.TheVariants.{NoMemory as no_memory};

    ghost from_gives = { λ _ e. e ≡ no_memory };

    fn from(_e: AllocFailed<T>) -> GrowError {
        GrowError::NoMemory
    }
}

// Adds rounds to the automaton until one adds nothing.
fn grow_on(
    alloc: Global,
    sys: &System,
    s: &Term,
    automaton: Automaton,
) -> Result<Automaton, GrowError>
    requires fits { Fits (view s.now) }
    requires states { automaton.states ≡ state_count sys.now (view s.now) }
    requires most { automaton.states ≤ MOST_GROWN_STATES }
    requires accepting { automaton.accepting.items ≡ growth.top (λ x. 0) 1 (view s.now) ∷ [] }
    requires narrow { AreNarrowBelow automaton.states sys.now.rules (length sys.now.rules) }
    requires partial { IsPartial sys.now (view s.now) (map transition_view automaton.transitions.items) }
    ensures { GrownAnswers sys.now (view s.now) result }
{
    let mut current = automaton;
    // Each round but the last adds a transition, and there are at most 5,000.
    'rounds: loop {
        let next = round(alloc, sys, s, &current)?;
        if next.len() == current.transitions.len() {
            return Ok(current);
        }
        current.transitions = next;
    }
}

// Grows the automaton where there are so many states and no left side is wide.
fn grow_of(alloc: Global, sys: &System, s: &Term, states: u32) -> Result<Automaton, GrowError>
    requires fits { Fits (view s.now) }
    requires system { IsSystem sys.now }
    requires states { states ≡ state_count sys.now (view s.now) }
    requires most { states ≤ MOST_GROWN_STATES }
    requires narrow { AreNarrowBelow states sys.now.rules (length sys.now.rules) }
    ensures { GrownAnswers sys.now (view s.now) result }
{
    let accepting = Vec::from_array(alloc, [top(&[], &[], 1, s)])?;
    let transitions = start(alloc, sys, s)?;
    grow_on(
        alloc,
        sys,
        s,
        Automaton {
            states,
            accepting,
            transitions,
        },
    )
}

/// The least automaton that accepts the term and is closed under the rules, with its transitions in order (after
/// Genet 1998): 64 states at most, 100,000 choices of states for each left side, and 5,000 transitions.
pub fn grow(alloc: Global, sys: &System, s: &Term) -> Result<Automaton, GrowError>
    requires fits { Fits (view s.now) }
    ensures grown { GrowAnswers sys.now (view s.now) result }
    ensures closed { IfOk result (λ a. IsWellGrown sys.now (view s.now) (automaton_view a)) }
{
    let Some(states) = count_states(sys, s) else {
        return Err(GrowError::TooManyStates);
    };
    check_widths(alloc, sys.rules(), states)?;
    grow_of(alloc, sys, s, states)
}
