//! Whether evidence and overlaps can be spelt: the numbers of states, the heads of transitions, the derivations.
ghost use Rattle.std.specs.Prelude.{◌↔◌, IsTrue, map};
ghost use Rattle.cert_model.specs.EvidenceView.{transition_view, automaton_view, inf_evidence_view, pair_evidence_view};
ghost use Rattle.cert_model.specs.CertificateView.{pair_entry_view};
ghost use Rattle.cert_grammar.specs.EvidenceText.{AreStates, IsHead, AreTransitions, IsAutomaton, IsInfeasibility, IsEvidence, ArePairs};

use crate::step_limits::is_derivation;
use crate::term_limits::{are_places, has_name_for, is_number};
use cert_grammar::{MOST_NESTING, MOST_STATES, MOST_TRANSITIONS};
use cert_model::{Automaton, InfEvidence, PairEntry, PairEvidence, Transition};
use cops_names::Names;

// Whether all are below the number of states.
fn are_states(states: u32, numbers: &[u32]) -> bool
    ensures { IsTrue result ↔ AreStates states numbers.now }
{
    'numbers: for number in numbers {
        if *number >= states {
            return false;
        }
    }
    true
}

fn is_head(names: &Names, symbol: Option<u32>, states: &[u32]) -> bool
    ensures { IsTrue result ↔ IsHead names.now symbol states.now }
{
    match symbol {
        Some(f) => has_name_for(names, f, states.len()),
        None => states.is_empty(),
    }
}

fn are_transitions(names: &Names, states: u32, transitions: &[Transition]) -> bool
    ensures { IsTrue result ↔ AreTransitions names.now states (map transition_view transitions.now) }
{
    'transitions: for transition in transitions {
        if !is_head(names, transition.symbol, &transition.args)
            || !are_states(states, &transition.args)
            || transition.target >= states
        {
            return false;
        }
    }
    true
}

fn is_automaton(names: &Names, automaton: &Automaton) -> bool
    ensures { IsTrue result ↔ IsAutomaton names.now (automaton_view automaton.now) }
{
    automaton.states >= 1
        && automaton.states <= MOST_STATES
        && are_states(automaton.states, &automaton.accepting)
        && automaton.transitions.len() <= MOST_TRANSITIONS as usize
        && are_transitions(names, automaton.states, &automaton.transitions)
}

/// Whether evidence that conditions are never met is within the limits.
pub fn is_infeasibility(names: &Names, evidence: &InfEvidence) -> bool
    ensures { IsTrue result ↔ IsInfeasibility names.now (inf_evidence_view evidence.now) }
{
    match evidence {
        InfEvidence::Tcap => true,
        InfEvidence::Auto { cond, automaton } => is_number(*cond) && is_automaton(names, automaton),
    }
}

fn is_evidence(names: &Names, evidence: &PairEvidence) -> bool
    ensures { IsTrue result ↔ IsEvidence names.now (pair_evidence_view evidence.now) }
{
    match evidence {
        PairEvidence::Trivial => true,
        PairEvidence::Infeasible(inner) => is_infeasibility(names, inner),
        PairEvidence::Conflict { inner, outer } => is_number(*inner) && is_number(*outer),
        PairEvidence::Join { left, right } => {
            is_derivation(MOST_NESTING, left) && is_derivation(MOST_NESTING, right)
        }
        PairEvidence::Unfeasible {
            cond,
            first,
            second,
        } => {
            is_number(*cond)
                && is_derivation(MOST_NESTING, first)
                && is_derivation(MOST_NESTING, second)
        }
    }
}

/// Whether overlaps with their evidence are within the limits.
pub fn are_pairs(names: &Names, pairs: &[PairEntry]) -> bool
    ensures { IsTrue result ↔ ArePairs names.now (map pair_entry_view pairs.now) }
{
    'pairs: for pair in pairs {
        if !is_number(pair.inner)
            || !are_places(&pair.pos)
            || !is_number(pair.outer)
            || !is_evidence(names, &pair.evidence)
        {
            return false;
        }
    }
    true
}
