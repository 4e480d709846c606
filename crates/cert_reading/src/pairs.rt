//! Overlaps.

ghost use Rattle.std.specs.Prelude.{◌≡◌, ◌≤◌, ◌++◌, ℕ, suc, [], ◌∷◌, None, map, length, codes, IfSome, IfNone};
ghost use Rattle.cert_reading.specs.Prelude.{pair_entry_view, pairs_marks, closing, Reads, EvidenceUses, PairsUse, version_by, automata_by, uses_by, AreKnown, ReadsWhere, Anywhere};
ghost use Rattle.cert_reading.specs.Prelude.{WithinEntry};
ghost use Rattle.cert_grammar.specs.Items as spec;

use crate::evidence::evidence;
use crate::lines::between_numbers;
use crate::uses::Uses;
use cert_grammar::MOST_PAIRS;
use cert_model::PairEntry;
use cert_words::{CertCount, Reading, counted_or, text};
use cops_names::Names;
use std::alloc::Global;

/// The overlap with this number; none at the last line, which is read then.
pub fn next_pair(
    alloc: Global,
    names: &Names,
    uses: Uses,
    end: usize,
    at: &mut Reading,
    n: usize,
) -> Option<PairEntry>
    requires { AreKnown names.now uses end at.old }
    ensures pair { IfSome result (λ p. ReadsWhere (WithinEntry (version_by uses.entry) n at.old.left.now) names.now end (spec.pairs_from (version_by uses.entry) n ∷ []) (λ u. pairs_marks u (uses_by names.now uses.entry) n (pair_entry_view p ∷ [])) (spec.pairs_from (version_by uses.entry) (suc n) ∷ []) at.old at.new) }
    ensures last { IfNone result (ReadsWhere (WithinEntry (version_by uses.entry) n at.old.left.now) names.now end (spec.pairs_from (version_by uses.entry) n ∷ []) (λ u. closing) [] at.old at.new) }
    ensures plain { IfSome result (λ p. at.new.refused ≡ None → EvidenceUses (version_by uses.entry) (automata_by uses.entry) (pair_entry_view p).evidence) }
    ensures known { IfSome result (λ p. AreKnown names.now uses.entry end at.new) }
    ensures few { IfSome result (λ p. at.new.refused ≡ None → n ≤ MOST_PAIRS) }
{
    if !counted_or(end, at, b"pair", CertCount::Pairs, n, b"end") {
        text(end, at, b"\n");
        return None;
    }
    let (inner, pos, outer) = between_numbers(alloc, end, at);
    let evidence = evidence(alloc, names, uses, end, at);
    Some(PairEntry {
        inner,
        pos,
        outer,
        evidence,
    })
}
