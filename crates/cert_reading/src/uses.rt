//! Uses of automata: all of it stands there, or its number.

ghost use Rattle.std.specs.Prelude.{◌≡◌, ◌≤◌, ◌-◌, ℕ, List, [], ◌∷◌, None, Some, map, length, slice_get};
ghost use Rattle.cert_reading.specs.Prelude.{NameTable, automaton_view, use_marks, Item, Reads, IsUsed, version_by, automata_by, uses_by, use_between, use_item, AreKnown};
ghost use Rattle.cert_grammar.specs.Items as spec;

use crate::automata::automaton;
use cert_model::Automaton;
use cert_words::{CertError, Reading, text, used};
use cops_names::Names;
use std::alloc::Global;

/// How a use of an automaton is written.
#[derive(Clone, Copy, Drop)]
pub enum Uses<'s> {
    /// All of the automaton.
    InFull,
    /// Its number among these, from 1.
    ByNumber(&'s [Automaton]),
}

// A copy of the automaton with this number, made where nothing else can fail.
fn copied(alloc: Global, at: &mut Reading, automata: &[Automaton], number: u32) -> Automaton
    ensures read { (names : NameTable) (end : ℕ) (from : List Item) → Reads names end from (λ u. []) from at.old at.new }
    ensures copied { at.new.refused ≡ None → 1 ≤ number → number ≤ length automata.now → slice_get (map automaton_view automata.now) (number - 1) ≡ Some (automaton_view result) }
{
    let none = Automaton {
        states: 0,
        accepting: Vec::new(alloc),
        transitions: Vec::new(alloc),
    };
    if at.refused.is_some() {
        return none;
    }
    let Some(automaton) = automata.get((number as usize).saturating_sub(1)) else {
        return none;
    };
    match automaton.try_clone(alloc) {
        Ok(copy) => copy,
        Err(_) => {
            at.refused = Some(CertError::NoMemory);
            none
        }
    }
}

/// The automaton that is used, behind the number of its condition.
pub(crate) fn used_automaton(
    alloc: Global,
    names: &Names,
    uses: Uses,
    end: usize,
    at: &mut Reading,
) -> Automaton
    requires { AreKnown names.now uses end at.old }
    ensures read { Reads names.now end (spec.between (use_between (version_by uses.entry)) ∷ use_item (version_by uses.entry) ∷ []) (λ u. use_marks u (uses_by names.now uses.entry) (automaton_view result)) [] at.old at.new }
    ensures plain { at.new.refused ≡ None → IsUsed (version_by uses.entry) (automata_by uses.entry) (automaton_view result) }
{
    match uses {
        Uses::InFull => {
            text(end, at, b"\n");
            automaton(alloc, names, end, at)
        }
        Uses::ByNumber(automata) => {
            text(end, at, b" ");
            let number = used(end, at);
            text(end, at, b"\n");
            copied(alloc, at, automata, number)
        }
    }
}
