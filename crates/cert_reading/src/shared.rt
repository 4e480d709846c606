//! The shared automata of the second version, which stand before the body.

ghost use Rattle.std.specs.Prelude.{◌≡◌, ℕ, [], ◌∷◌, None, Option, Bool, map, length};
ghost use Rattle.cert_reading.specs.Prelude.{automaton_view, automata_marks, second_version, AreWithoutStates, AreShared, ReadsWhere, BeforeEntries};
ghost use Rattle.cert_reading.specs.Shared.{sealed_marks, shared_marks, ArePlainAutomata};
ghost use Rattle.cert_grammar.specs.Items as spec;

use crate::automata::behind_word;
use cert_model::Automaton;
use cert_words::{CertCount, Reading, begins, counted, ended, put, text};
use cops_names::Names;
use std::alloc::Global;

// One shared automaton, which differs from those before.
fn shared_automaton(alloc: Global, names: &Names, end: usize, at: &mut Reading) -> Automaton
    ensures plain { at.new.refused ≡ None → AreWithoutStates (automaton_view result).transitions }
    ensures read { (more : ℕ) (given : Option Bool) → ReadsWhere BeforeEntries names.now end (spec.automata_left more given ∷ []) (λ u. sealed_marks u (automaton_view result)) (spec.behind_automata more given ∷ []) at.old at.new }
{
    let begun = at.left;
    begins(end, at, b"states");
    let automaton = behind_word(alloc, names, end, at);
    if at.refused.is_some() {
        return automaton;
    }
    ended(end, at, begun);
    automaton
}

// As many shared automata.
fn automata(
    alloc: Global,
    names: &Names,
    end: usize,
    at: &mut Reading,
    count: u32,
) -> Vec<Automaton>
    ensures read { (given : Option Bool) → ReadsWhere BeforeEntries names.now end (spec.behind_automata count given ∷ []) (λ u. automata_marks u (map automaton_view result.items)) (spec.simplified given ∷ []) at.old at.new }
    ensures counted { at.new.refused ≡ None → length (map automaton_view result.items) ≡ count }
    ensures plain { at.new.refused ≡ None → ArePlainAutomata (map automaton_view result.items) }
{
    let mut automata = Vec::new(alloc);
    'automata: for _ in 0..count {
        if at.refused.is_some() {
            return automata;
        }
        let next = shared_automaton(alloc, names, end, at);
        put(at, &mut automata, next);
    }
    automata
}

/// The shared automata behind the first line of the second version.
pub fn shared_automata(alloc: Global, names: &Names, end: usize, at: &mut Reading) -> Vec<Automaton>
    ensures read { (given : Option Bool) → ReadsWhere BeforeEntries names.now end (spec.shared_line given ∷ []) (λ u. shared_marks u (map automaton_view result.items)) (spec.simplified given ∷ []) at.old at.new }
    ensures plain { at.new.refused ≡ None → ArePlainAutomata (map automaton_view result.items) }
    ensures known { AreShared second_version names.now [] end at.old → AreShared second_version names.now (map automaton_view result.items) end at.new }
{
    text(end, at, b"shared ");
    let count = counted(end, at, 0, CertCount::Shared);
    text(end, at, b"\n");
    automata(alloc, names, end, at, count)
}
