//! Automata.

ghost use Rattle.std.specs.Prelude.{◌≡◌, ◌++◌, ℕ, [], ◌∷◌, None, map, length, codes};
ghost use Rattle.cert_reading.specs.Prelude.{NameTable, number_of, transition_view, automaton_view, name_of, has_arity, fixed, behind, Reads, HasNoStates, AreWithoutStates};
ghost use Rattle.cert_reading.specs.Shared.{behind_states};
ghost use Rattle.cert_grammar.specs.CertificateMarks as marks;
ghost use Rattle.cert_grammar.specs.Items as spec;

use cert_model::{Automaton, Transition};
use cert_words::{
    CertCount, Reading, begins, checked, counted, either, has_so_many, name_or, number, opened,
    put, text,
};
use cops_names::Names;
use std::alloc::Global;

// The rest of the line of the accepting states, and the word behind it.
fn accepting(alloc: Global, end: usize, at: &mut Reading, states: u32) -> Vec<u32>
    ensures { (names : NameTable) → Reads names end (spec.accepting states ∷ []) (λ u. marks.accepting_marks states result.items ++ (fixed (codes "\ntransitions ") ∷ [])) (spec.transition_count states ∷ []) at.old at.new }
{
    let mut accepted = Vec::new(alloc);
    'states: while either(end, at, b" ", b"\ntransitions ") {
        let state = number(end, at, 0, states as u64);
        put(at, &mut accepted, state);
    }
    accepted
}

// The states of the symbol's arguments, up to the space behind them.
fn arguments(
    alloc: Global,
    names: &Names,
    end: usize,
    at: &mut Reading,
    states: u32,
    f: u32,
) -> Vec<u32>
    requires { number_of names.now.symbols (name_of names.now f) ≡ Some f }
    ensures { Reads names.now end (spec.states_behind states (name_of names.now f) ∷ []) (λ u. marks.states_marks states result.items ++ (behind (has_arity (u f) (length result.items)) ∷ fixed (codes " ") ∷ [])) [] at.old at.new }
{
    let mut args = Vec::new(alloc);
    if !opened(end, at, b"(", b' ', has_so_many(names, f, 0)) {
        text(end, at, b" ");
        return args;
    }
    let first = number(end, at, 0, states as u64);
    put(at, &mut args, first);
    'arguments: while either(end, at, b",", b")") {
        let next = number(end, at, 0, states as u64);
        put(at, &mut args, next);
    }
    checked(end, at, b' ', has_so_many(names, f, args.len()));
    text(end, at, b" ");
    args
}

// One transition.
fn transition(alloc: Global, names: &Names, end: usize, at: &mut Reading, states: u32) -> Transition
    ensures plain { HasNoStates result.symbol result.args.items }
    ensures read { (more : ℕ) → Reads names.now end (spec.transitions_left states more ∷ []) (λ u. marks.transitions_marks u states (transition_view result ∷ [])) (spec.transitions_of states more) at.old at.new }
{
    match name_or(names, end, at, b"|") {
        Some(f) => {
            let args = arguments(alloc, names, end, at, states, f);
            let target = number(end, at, 0, states as u64);
            text(end, at, b"\n");
            Transition {
                symbol: Some(f),
                args,
                target,
            }
        }
        None => {
            text(end, at, b" ");
            let target = number(end, at, 0, states as u64);
            text(end, at, b"\n");
            Transition {
                symbol: None,
                args: Vec::new(alloc),
                target,
            }
        }
    }
}

// As many transitions.
fn transitions(
    alloc: Global,
    names: &Names,
    end: usize,
    at: &mut Reading,
    states: u32,
    count: u32,
) -> Vec<Transition>
    ensures read { Reads names.now end (spec.transitions_of states count) (λ u. marks.transitions_marks u states (map transition_view result.items)) [] at.old at.new }
    ensures counted { at.new.refused ≡ None → length (map transition_view result.items) ≡ count }
    ensures plain { at.new.refused ≡ None → AreWithoutStates (map transition_view result.items) }
{
    let mut transitions = Vec::new(alloc);
    'transitions: for _ in 0..count {
        if at.refused.is_some() {
            return transitions;
        }
        let next = transition(alloc, names, end, at, states);
        put(at, &mut transitions, next);
    }
    transitions
}

/// An automaton behind its first word.
pub(crate) fn behind_word(alloc: Global, names: &Names, end: usize, at: &mut Reading) -> Automaton
    ensures plain { at.new.refused ≡ None → AreWithoutStates (automaton_view result).transitions }
    ensures read { Reads names.now end (spec.between spec.space ∷ spec.state_count ∷ []) (λ u. behind_states u (automaton_view result)) [] at.old at.new }
{
    text(end, at, b" ");
    let states = counted(end, at, 1, CertCount::States);
    text(end, at, b"\naccepting");
    let accepting = accepting(alloc, end, at, states);
    let count = counted(end, at, 0, CertCount::Transitions);
    text(end, at, b"\n");
    let transitions = transitions(alloc, names, end, at, states, count);
    Automaton {
        states,
        accepting,
        transitions,
    }
}

/// An automaton.
pub fn automaton(alloc: Global, names: &Names, end: usize, at: &mut Reading) -> Automaton
    ensures plain { at.new.refused ≡ None → AreWithoutStates (automaton_view result).transitions }
    ensures read { Reads names.now end (spec.states_line ∷ []) (λ u. marks.automaton_marks u (automaton_view result)) [] at.old at.new }
{
    begins(end, at, b"states");
    behind_word(alloc, names, end, at)
}
