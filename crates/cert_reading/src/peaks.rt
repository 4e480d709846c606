//! Peaks.

ghost use Rattle.std.specs.Prelude.{◌≡◌, ◌≤◌, ◌++◌, ℕ, suc, [], ◌∷◌, None, map, length, codes, IfSome, IfNone};
ghost use Rattle.cert_reading.specs.Prelude.{redex_view, apart_view, peak_view, redexes_marks, apart_marks, peak_marks, closing, Reads, HasUsed, RedexesUse, ApartUses, version_by};
ghost use Rattle.cert_reading.specs.Prelude.{automata_by, uses_by, AreKnown};
ghost use Rattle.cert_grammar.specs.Items as spec;

use crate::derivations::derivation;
use crate::evidence::infeasibility;
use crate::lines::between_numbers;
use crate::terms::start_term;
use crate::uses::Uses;
use cert_model::{NonJoin, Peak, Redex};
use cert_words::{CertCount, Reading, counted_or, either, last_word, put, text};
use cops_names::Names;
use std::alloc::Global;

// The redexes up to the last line, which is read too.
fn redexes(alloc: Global, names: &Names, uses: Uses, end: usize, at: &mut Reading) -> Vec<Redex>
    requires { AreKnown names.now uses end at.old }
    ensures read { Reads names.now end (spec.redexes_from (version_by uses.entry) 1 ∷ []) (λ u. redexes_marks u (uses_by names.now uses.entry) 1 (map redex_view result.items) ++ closing) [] at.old at.new }
    ensures plain { at.new.refused ≡ None → RedexesUse (version_by uses.entry) (automata_by uses.entry) (map redex_view result.items) }
{
    let mut redexes = Vec::new(alloc);
    'redexes: while counted_or(
        end,
        at,
        b"redex",
        CertCount::Redexes,
        redexes.len() + 1,
        b"end",
    ) {
        if at.refused.is_some() {
            return redexes;
        }
        let (which, pos, rule) = between_numbers(alloc, end, at);
        let evidence = infeasibility(alloc, names, uses, end, at);
        let redex = Redex {
            which,
            pos,
            rule,
            evidence,
        };
        put(at, &mut redexes, redex);
    }
    text(end, at, b"\n");
    redexes
}

// Why the ends have no common reduct, and the last line.
fn apart(alloc: Global, names: &Names, uses: Uses, end: usize, at: &mut Reading) -> NonJoin
    requires { AreKnown names.now uses end at.old }
    ensures read { Reads names.now end (spec.apart (version_by uses.entry) ∷ []) (λ u. apart_marks u (uses_by names.now uses.entry) (apart_view result) ++ closing) [] at.old at.new }
    ensures plain { at.new.refused ≡ None → ApartUses (version_by uses.entry) (automata_by uses.entry) (apart_view result) }
{
    if either(end, at, b"normal\n", b"caps\n") {
        let redexes = redexes(alloc, names, uses, end, at);
        return NonJoin::Normal(redexes);
    }
    last_word(end, at, b"end");
    text(end, at, b"\n");
    NonJoin::Caps
}

/// The peak, and the last line.
pub fn peak(alloc: Global, names: &Names, uses: Uses, end: usize, at: &mut Reading) -> Peak
    requires { AreKnown names.now uses end at.old }
    ensures read { Reads names.now end (spec.start_line (version_by uses.entry) ∷ []) (λ u. peak_marks u (uses_by names.now uses.entry) (peak_view result) ++ closing) [] at.old at.new }
    ensures plain { at.new.refused ≡ None → ApartUses (version_by uses.entry) (automata_by uses.entry) (apart_view result.apart) }
{
    text(end, at, b"start ");
    let start = start_term(alloc, names, end, at);
    let first = derivation(alloc, end, at, 1);
    let second = derivation(alloc, end, at, 1);
    let apart = apart(alloc, names, uses, end, at);
    Peak {
        start,
        first,
        second,
        apart,
    }
}
