//! Derivations: lists of steps, in which others are nested.

ghost use Rattle.std.specs.Prelude.{◌≡◌, ◌≤◌, ◌++◌, ℕ, suc, [], ◌∷◌, ◌+◌, None, map, codes};
ghost use Rattle.cert_reading.specs.Prelude.{NameTable, largest, in_range, fixed, word, Reads};
ghost use Rattle.certificates.specs.Prelude.{derivations_of, derivation_count, step_count};
ghost use Rattle.cert_model.specs.DerivationView.{derivation_view, step_view};
ghost use Rattle.cert_grammar.specs.WordMarks as marks;
ghost use Rattle.cert_grammar.specs.Items as spec;

use cert_grammar::MOST_NESTING;
use cert_model::{Derivation, Step};
use cert_words::{BOUND, CertCount, Reading, counted, either, nested, number, position, put, text};
use std::alloc::Global;

/// A derivation in this nesting.
#[cycle(derivation)]
pub fn derivation(alloc: Global, end: usize, at: &mut Reading, level: u32) -> Derivation
    requires { level ≤ MOST_NESTING + 1 }
    ensures { (names : NameTable) (more : ℕ) → Reads names end (spec.derivations_left level more ∷ []) (λ u. marks.steps_mark level (step_count (derivation_view result)) ++ marks.steps_marks level (derivation_view result)) (spec.derivations level more) at.old at.new }
{
    nested(end, at, b"steps", level);
    if at.refused.is_some() {
        return Derivation {
            steps: Vec::new(alloc),
        };
    }
    text(end, at, b" ");
    let count = counted(end, at, 0, CertCount::Steps);
    text(end, at, b"\n");
    steps(alloc, end, at, level, count)
}

// As many steps.
#[cycle(derivation)]
fn steps(alloc: Global, end: usize, at: &mut Reading, level: u32, count: u32) -> Derivation
    requires { level ≤ MOST_NESTING }
    ensures read { (names : NameTable) → Reads names end (spec.steps_of level count) (λ u. marks.steps_marks level (derivation_view result)) [] at.old at.new }
    ensures counted { at.new.refused ≡ None → step_count (derivation_view result) ≡ count }
{
    let mut steps = Vec::new(alloc);
    'steps: for _ in 0..count {
        if at.refused.is_some() {
            return Derivation { steps };
        }
        let next = step(alloc, end, at, level);
        put(at, &mut steps, next);
    }
    Derivation { steps }
}

// One step.
#[cycle(derivation)]
fn step(alloc: Global, end: usize, at: &mut Reading, level: u32) -> Step
    requires { level ≤ MOST_NESTING }
    ensures { (names : NameTable) (more : ℕ) → Reads names end (spec.steps_left level more ∷ []) (λ u. marks.step_marks level (step_view result)) (spec.steps_of level more) at.old at.new }
{
    if either(end, at, b"rule ", b"hyp ") {
        let rule = number(end, at, 0, BOUND);
        text(end, at, b" ");
        let pos = position(alloc, end, at);
        text(end, at, b" ");
        let count = number(end, at, 0, BOUND);
        text(end, at, b"\n");
        let conds = derivations(alloc, end, at, level + 1, count);
        return Step::Rule { rule, pos, conds };
    }
    let number = number(end, at, 0, BOUND);
    text(end, at, b" ");
    let pos = position(alloc, end, at);
    text(end, at, b"\n");
    Step::Hyp { number, pos }
}

// As many derivations.
#[cycle(derivation)]
fn derivations(
    alloc: Global,
    end: usize,
    at: &mut Reading,
    level: u32,
    count: u32,
) -> Vec<Derivation>
    requires { level ≤ MOST_NESTING + 1 }
    ensures read { (names : NameTable) → Reads names end (spec.derivations level count) (λ u. marks.derivations_marks level (derivations_of (map derivation_view result.items))) [] at.old at.new }
    ensures counted { at.new.refused ≡ None → derivation_count (derivations_of (map derivation_view result.items)) ≡ count }
{
    let mut derivations = Vec::new(alloc);
    'derivations: for _ in 0..count {
        if at.refused.is_some() {
            return derivations;
        }
        let next = derivation(alloc, end, at, level);
        put(at, &mut derivations, next);
    }
    derivations
}
