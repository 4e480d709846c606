//! Evidence for overlaps, and that conditions are never met.

ghost use Rattle.std.specs.Prelude.{◌≡◌, [], ◌∷◌, None};
ghost use Rattle.cert_reading.specs.Prelude.{inf_evidence_view, pair_evidence_view, infeasibility_marks, evidence_marks, Reads, HasUsed, EvidenceUses, version_by, automata_by, uses_by};
ghost use Rattle.cert_reading.specs.Prelude.{AreKnown};
ghost use Rattle.cert_grammar.specs.Items as spec;

use crate::derivations::derivation;
use crate::uses::{Uses, used_automaton};
use cert_model::{InfEvidence, PairEvidence};
use cert_words::{BOUND, Lead, Reading, choose, either, number, text};
use cops_names::Names;
use std::alloc::Global;

/// The evidence that conditions are never met.
pub fn infeasibility(
    alloc: Global,
    names: &Names,
    uses: Uses,
    end: usize,
    at: &mut Reading,
) -> InfEvidence
    requires { AreKnown names.now uses end at.old }
    ensures plain { at.new.refused ≡ None → HasUsed (version_by uses.entry) (automata_by uses.entry) (inf_evidence_view result) }
    ensures read { Reads names.now end (spec.infeasibility (version_by uses.entry) ∷ []) (λ u. infeasibility_marks u (uses_by names.now uses.entry) (inf_evidence_view result)) [] at.old at.new }
{
    if either(end, at, b"tcap\n", b"auto ") {
        return InfEvidence::Tcap;
    }
    let cond = number(end, at, 0, BOUND);
    let automaton = used_automaton(alloc, names, uses, end, at);
    InfEvidence::Auto { cond, automaton }
}

/// The evidence for an overlap.
pub fn evidence(
    alloc: Global,
    names: &Names,
    uses: Uses,
    end: usize,
    at: &mut Reading,
) -> PairEvidence
    requires { AreKnown names.now uses end at.old }
    ensures plain { at.new.refused ≡ None → EvidenceUses (version_by uses.entry) (automata_by uses.entry) (pair_evidence_view result) }
    ensures read { Reads names.now end (spec.evidence (version_by uses.entry) ∷ []) (λ u. evidence_marks u (uses_by names.now uses.entry) (pair_evidence_view result)) [] at.old at.new }
{
    let kinds = [
        Lead::Text(b"trivial\n"),
        Lead::Text(b"conflict "),
        Lead::Text(b"join\n"),
        Lead::Text(b"unfeasible "),
        Lead::Text(b"tcap\n"),
        Lead::Text(b"auto "),
    ];
    match choose(end, at, &kinds) {
        0 => PairEvidence::Trivial,
        1 => {
            let inner = number(end, at, 0, BOUND);
            text(end, at, b" ");
            let outer = number(end, at, 0, BOUND);
            text(end, at, b"\n");
            PairEvidence::Conflict { inner, outer }
        }
        2 => {
            let left = derivation(alloc, end, at, 1);
            let right = derivation(alloc, end, at, 1);
            PairEvidence::Join { left, right }
        }
        3 => {
            let cond = number(end, at, 0, BOUND);
            text(end, at, b"\n");
            let first = derivation(alloc, end, at, 1);
            let second = derivation(alloc, end, at, 1);
            PairEvidence::Unfeasible {
                cond,
                first,
                second,
            }
        }
        4 => PairEvidence::Infeasible(InfEvidence::Tcap),
        5 => {
            let cond = number(end, at, 0, BOUND);
            let automaton = used_automaton(alloc, names, uses, end, at);
            PairEvidence::Infeasible(InfEvidence::Auto { cond, automaton })
        }
        _ => PairEvidence::Trivial,
    }
}
