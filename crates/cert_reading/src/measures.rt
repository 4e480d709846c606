//! The measure of a certificate.

ghost use Rattle.std.specs.Prelude.{◌≡◌, ◌≤◌, ◌++◌, ℕ, suc, true, false, List, [], ◌∷◌, None, Some, map, length, codes, IfSome, IfNone};
ghost use Rattle.cert_reading.specs.Prelude.{NameTable, head_view, linear_entry_view, measure_view, BeginsEntry, is_few, entries, fixed, word, coefficients_marks, measured_marks};
ghost use Rattle.cert_reading.specs.Prelude.{entries_marks, heads_marks, measure_marks, Version, HasMeasure, second_version, Item, leads, first_there, Reads, ReadsWhere, WithinOpening};
ghost use Rattle.cert_reading.specs.Prelude.{behind_measure, version_by};
ghost use Rattle.cert_reading.specs.Measures.{SymbolAt, symbol_word, behind_word};
ghost use Rattle.cert_grammar.specs.Items as spec;
ghost use Rattle.cert_words.specs.Words.{IsLeadRead};

use crate::headings::begins_entry;
use crate::uses::Uses;
use cert_grammar::MOST_ENTRIES;
use cert_model::{Head, Linear, LinearEntry, MeasureCert};
use cert_words::{
    BOUND, CertCount, CertError, Lead, Reading, choose, either, front, name, number, numbered, put,
    stuck, text,
};
use cops_names::Names;
use std::alloc::Global;

// Goes on behind the first word of the symbol's line with this number, or refuses it.
fn counted_word<'a>(end: usize, at: &mut Reading<'a>, rest: &'a [u8], n: usize)
    requires { at.old.refused ≡ None }
    ensures read { (names : NameTable) (v : Version) (i : Item) (w read : List ℕ) (new : List Item) → WithinOpening v (i ∷ []) at.old.left.now → first_there (leads i) at.old.left.now ≡ Some (spec.keyword w (is_few entries n ∷ []) new) → IsLeadRead (spec.keyword w [] []) at.old.left.now read rest.now → ReadsWhere (WithinOpening v) names end (i ∷ []) (λ u. word w (is_few entries n ∷ []) ∷ []) new at.old at.new }
    ensures few { at.new.refused ≡ None → n ≤ MOST_ENTRIES }
{
    if n > MOST_ENTRIES as usize {
        at.refused = Some(CertError::TooMany {
            what: CertCount::Entries,
            at: end.saturating_sub(at.left.len()),
        });
    } else {
        at.left = rest;
    }
}

// The first word of the symbol's line with this number: whether it is that of a symbol, not of a condition.
fn symbol_word(end: usize, at: &mut Reading, n: usize) -> bool
    requires unrefused { at.old.refused ≡ None }
    requires other { BeginsEntry at.old.left.now → ⊥ }
    ensures read { (names : NameTable) (v : Version) (i low behind : Item) → (s : SymbolAt v n i low behind) → ReadsWhere (WithinOpening v) names end (i ∷ []) (λ u. word (symbol_word result) (is_few entries n ∷ []) ∷ []) (behind_word s.name s.condition low result) at.old at.new }
    ensures few { at.new.refused ≡ None → n ≤ MOST_ENTRIES }
{
    if let Some((_, rest)) = front(Lead::Keyword(b"fun"), at.left) {
        counted_word(end, at, rest, n);
        return true;
    }
    if let Some((_, rest)) = front(Lead::Keyword(b"aux"), at.left) {
        counted_word(end, at, rest, n);
        return false;
    }
    let leads = [
        Lead::Keyword(b"fun"),
        Lead::Keyword(b"aux"),
        Lead::Keyword(b"pair"),
        Lead::Keyword(b"end"),
    ];
    at.refused = Some(stuck(&leads, at.left, end));
    true
}

// The symbol on the line with this number; none, where an overlap or the last line may begin.
fn head(names: &Names, end: usize, at: &mut Reading, n: usize) -> Option<Head>
    ensures head { IfSome result (λ h. (v : Version) (i low behind : Item) → SymbolAt v n i low behind → ReadsWhere (WithinOpening v) names.now end (i ∷ []) (λ u. measured_marks u n (head_view h)) (behind ∷ low ∷ []) at.old at.new) }
    ensures none { IfNone result ((v : Version) (i low behind : Item) → SymbolAt v n i low behind → ReadsWhere (WithinOpening v) names.now end (i ∷ []) (λ u. []) (i ∷ []) at.old at.new) }
    ensures begins { IfNone result (at.new.refused ≡ None → BeginsEntry at.new.left.now) }
    ensures unrefused { IfSome result (λ h. at.old.refused ≡ None) }
    ensures few { IfSome result (λ h. at.new.refused ≡ None → n ≤ MOST_ENTRIES) }
{
    if at.refused.is_some() {
        return None;
    }
    if begins_entry(at.left) {
        return None;
    }
    if symbol_word(end, at, n) {
        text(end, at, b" ");
        let f = name(names, end, at);
        return Some(Head::File(f));
    }
    text(end, at, b" ");
    let rule = number(end, at, 0, BOUND);
    text(end, at, b" ");
    let cond = number(end, at, 0, BOUND);
    Some(Head::Aux { rule, cond })
}

// The numbers of an entry, and the line's end.
fn coefficients(alloc: Global, end: usize, at: &mut Reading) -> Vec<u32>
    ensures { (names : NameTable) → Reads names end (spec.coefficients_behind 0 ∷ []) (λ u. coefficients_marks 1 result.items ++ (fixed (codes "\n") ∷ [])) [] at.old at.new }
{
    let mut coeffs = Vec::new(alloc);
    'numbers: while either(end, at, b" ", b"\n") {
        let next = numbered(end, at, CertCount::Numbers, coeffs.len() + 1);
        put(at, &mut coeffs, next);
    }
    coeffs
}

// The entries, up to an overlap or the last line.
fn entries(alloc: Global, names: &Names, end: usize, at: &mut Reading) -> Vec<LinearEntry>
    ensures read { (v : Version) → ReadsWhere (WithinOpening v) names.now end (spec.entries_from v 1 ∷ []) (λ u. entries_marks u 1 (map linear_entry_view result.items)) (spec.entries_from v (suc (length (map linear_entry_view result.items))) ∷ []) at.old at.new }
    ensures begins { at.new.refused ≡ None → BeginsEntry at.new.left.now }
{
    let mut entries = Vec::new(alloc);
    'entries: while let Some(head) = head(names, end, at, entries.len() + 1) {
        let coeffs = coefficients(alloc, end, at);
        put(at, &mut entries, LinearEntry { head, coeffs });
    }
    entries
}

// The symbols of a precedence, up to an overlap or the last line.
fn precedence(alloc: Global, names: &Names, end: usize, at: &mut Reading) -> Vec<Head>
    ensures read { ReadsWhere (WithinOpening second_version) names.now end (spec.heads_from 1 ∷ []) (λ u. heads_marks u 1 (map head_view result.items)) (spec.heads_from (suc (length (map head_view result.items))) ∷ []) at.old at.new }
    ensures begins { at.new.refused ≡ None → BeginsEntry at.new.left.now }
{
    let mut order = Vec::new(alloc);
    'order: while let Some(head) = head(names, end, at, order.len() + 1) {
        text(end, at, b"\n");
        put(at, &mut order, head);
    }
    order
}

// The line behind the word of the kind: whether a precedence follows.
fn measure_line(uses: Uses, end: usize, at: &mut Reading) -> bool
    ensures linear { result ≡ false → (names : NameTable) → ReadsWhere (WithinOpening (version_by uses.entry)) names end (spec.measure (version_by uses.entry) ∷ []) (λ u. fixed (codes "linear\n") ∷ []) (spec.entries_from (version_by uses.entry) 1 ∷ []) at.old at.new }
    ensures order { result ≡ true → (names : NameTable) → ReadsWhere (WithinOpening second_version) names end (spec.measure second_version ∷ []) (λ u. fixed (codes "lpo\n") ∷ []) (spec.heads_from 1 ∷ []) at.old at.new }
    ensures second { result ≡ true → version_by uses.entry ≡ second_version }
{
    match uses {
        Uses::InFull => {
            text(end, at, b"linear\n");
            false
        }
        Uses::ByNumber(_) => {
            let kinds = [Lead::Text(b"linear\n"), Lead::Text(b"lpo\n")];
            choose(end, at, &kinds) == 1
        }
    }
}

/// The measure, up to an overlap or the last line.
pub fn measure(
    alloc: Global,
    names: &Names,
    uses: Uses,
    end: usize,
    at: &mut Reading,
) -> MeasureCert
    ensures read { ReadsWhere (WithinOpening (version_by uses.entry)) names.now end (spec.measure (version_by uses.entry) ∷ []) (λ u. measure_marks u (measure_view result)) (behind_measure (version_by uses.entry) (measure_view result) ∷ []) at.old at.new }
    ensures begins { at.new.refused ≡ None → BeginsEntry at.new.left.now }
    ensures first { HasMeasure (version_by uses.entry) (measure_view result) }
{
    if measure_line(uses, end, at) {
        let order = precedence(alloc, names, end, at);
        return MeasureCert::Lpo(order);
    }
    let entries = entries(alloc, names, end, at);
    MeasureCert::Linear(Linear { entries })
}
