//! Steps that simplify the system before the body of a certificate.

ghost use Rattle.std.specs.Prelude.{◌≡◌, ℕ, [], ◌∷◌, None, map, length};
ghost use Rattle.cert_reading.specs.Prelude.{automaton_view, simp_view, second_version, by_number, number_in, simplifications_marks, Reads, StepsUse, AreShared};
ghost use Rattle.cert_grammar.specs.Items as spec;

use crate::evidence::infeasibility;
use crate::uses::Uses;
use cert_model::{Automaton, Simp};
use cert_words::{BOUND, Reading, either, number, put, text};
use cops_names::Names;
use std::alloc::Global;

// One step.
fn simplification(
    alloc: Global,
    names: &Names,
    automata: &[Automaton],
    end: usize,
    at: &mut Reading,
) -> Simp
    requires { AreShared second_version names.now (map automaton_view automata.now) end at.old }
    ensures read { (more : ℕ) → Reads names.now end (spec.simplifications_left more ∷ []) (λ u. simplifications_marks u (by_number (number_in names.now (map automaton_view automata.now))) (simp_view result ∷ [])) (spec.simplifications_of more) at.old at.new }
    ensures plain { at.new.refused ≡ None → StepsUse second_version (map automaton_view automata.now) (simp_view result ∷ []) }
    ensures known { AreShared second_version names.now (map automaton_view automata.now) end at.new }
{
    if either(end, at, b"drop ", b"inline ") {
        let rule = number(end, at, 0, BOUND);
        text(end, at, b" ");
        let evidence = infeasibility(alloc, names, Uses::ByNumber(automata), end, at);
        return Simp::Drop { rule, evidence };
    }
    let rule = number(end, at, 0, BOUND);
    text(end, at, b" ");
    let cond = number(end, at, 0, BOUND);
    text(end, at, b"\n");
    Simp::Inline { rule, cond }
}

/// As many steps.
pub fn all_simplifications(
    alloc: Global,
    names: &Names,
    automata: &[Automaton],
    end: usize,
    at: &mut Reading,
    count: u32,
) -> Vec<Simp>
    requires { AreShared second_version names.now (map automaton_view automata.now) end at.old }
    ensures read { Reads names.now end (spec.simplifications_of count) (λ u. simplifications_marks u (by_number (number_in names.now (map automaton_view automata.now))) (map simp_view result.items)) [] at.old at.new }
    ensures counted { at.new.refused ≡ None → length (map simp_view result.items) ≡ count }
    ensures plain { at.new.refused ≡ None → StepsUse second_version (map automaton_view automata.now) (map simp_view result.items) }
    ensures known { AreShared second_version names.now (map automaton_view automata.now) end at.new }
{
    let mut steps = Vec::new(alloc);
    'steps: for _ in 0..count {
        if at.refused.is_some() {
            return steps;
        }
        let next = simplification(alloc, names, automata, end, at);
        put(at, &mut steps, next);
    }
    steps
}
