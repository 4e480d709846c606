//! The lines before the body of a certificate.

ghost use Rattle.std.specs.Prelude.{◌≡◌, ◌++◌, ℕ, true, false, List, [], ◌∷◌, None, Some, Option, Bool, codes, map, IfSome, IfNone};
ghost use Rattle.cert_reading.specs.Prelude.{NameTable, BeginsEntry, Version, is_answer, fixed, word, fits_answer, Item, body_leads, first_there, ReadsWhere, WithinOpening, BeforeEntries, version_mark};
ghost use Rattle.cert_reading.specs.Prelude.{behind_version, first_marks, kind_mark, item_by};
ghost use Rattle.cert_grammar.specs.Versions as versions;
ghost use Rattle.cert_grammar.specs.Items as spec;
ghost use Rattle.cert_grammar.specs.FirstRefusal.{longest};
ghost use Rattle.cert_words.specs.Words.{bare, IsLeadRead};

use cert_words::{CertError, Lead, Reading, choose, front, stuck};

/// Of what kind a certificate is.
#[derive(Clone, Copy, Debug, Drop)]
pub enum Kind {
    /// Of an almost orthogonal system.
    Ortho,
    /// With a measure.
    Quasi,
    /// Of a system that is not confluent.
    Peak,
}

// The first lines of both versions.
const FIRST_LINES: [Lead; 2] = [Lead::Text(b"concon 1\n"), Lead::Text(b"concon 2\n")];

// The first line behind an answer: whether it is that of the second version.
fn version_line(end: usize, at: &mut Reading) -> bool
    ensures { (names : NameTable) (given : Option Bool) → ReadsWhere BeforeEntries names end (spec.heading given ∷ []) (λ u. version_mark result ∷ []) (behind_version result given ∷ []) at.old at.new }
{
    match choose(end, at, &FIRST_LINES) {
        0 => false,
        1 => true,
        _ => false,
    }
}

/// The answer before the first line, if there is one, and whether that line is of the second version.
pub fn first_line(end: usize, at: &mut Reading) -> (Option<bool>, bool)
    ensures { (names : NameTable) → ReadsWhere BeforeEntries names end (spec.opening ∷ []) (λ u. first_marks result.0 result.1) (behind_version result.1 result.0 ∷ []) at.old at.new }
{
    let lines = [
        Lead::Text(b"YES\n"),
        Lead::Text(b"NO\n"),
        Lead::Text(b"concon 1\n"),
        Lead::Text(b"concon 2\n"),
    ];
    match choose(end, at, &lines) {
        0 => {
            let second = version_line(end, at);
            (Some(true), second)
        }
        1 => {
            let second = version_line(end, at);
            (Some(false), second)
        }
        2 => (None, false),
        3 => (None, true),
        _ => (None, false),
    }
}

// Whether a certificate for this answer may stand behind that one.
fn fits(told: bool, given: Option<bool>) -> bool
    ensures { result ≡ is_answer told given }
{
    match given {
        Some(answer) => answer == told,
        None => true,
    }
}

// Goes on behind the word of a kind, or refuses the answer before it, at its first byte.
fn judged<'a>(at: &mut Reading<'a>, rest: &'a [u8], told: bool, given: Option<bool>)
    requires { at.old.refused ≡ None }
    ensures { (names : NameTable) (end : ℕ) (i : Item) (w read : List ℕ) (new : List Item) → BeforeEntries (i ∷ []) at.old.left.now → first_there (spec.leads i) at.old.left.now ≡ Some (spec.keyword w (fits_answer told given ∷ []) new) → IsLeadRead (spec.keyword w [] []) at.old.left.now read rest.now → ReadsWhere BeforeEntries names end (i ∷ []) (λ u. word w (fits_answer told given ∷ []) ∷ []) new at.old at.new }
{
    if fits(told, given) {
        at.left = rest;
    } else {
        at.refused = Some(CertError::CertSyntax { at: 0 });
    }
}

// The kind whose word is there, behind this answer; these leads may stand there.
fn kind_among(end: usize, at: &mut Reading, given: Option<bool>, leads: &[Lead]) -> Kind
    ensures { (names : NameTable) (v : Version) (i : Item) → first_there (spec.leads i) at.old.left.now ≡ first_there (body_leads v given) at.old.left.now → longest (spec.leads i) at.old.left.now ≡ longest (map bare leads.now) at.old.left.now → BeforeEntries (i ∷ []) at.old.left.now → ReadsWhere BeforeEntries names end (i ∷ []) (λ u. kind_mark given result ∷ []) (spec.between spec.line ∷ item_by v result ∷ []) at.old at.new }
{
    if at.refused.is_some() {
        return Kind::Ortho;
    }
    if let Some((_, rest)) = front(Lead::Keyword(b"ortho"), at.left) {
        judged(at, rest, true, given);
        return Kind::Ortho;
    }
    if let Some((_, rest)) = front(Lead::Keyword(b"quasi"), at.left) {
        judged(at, rest, true, given);
        return Kind::Quasi;
    }
    if let Some((_, rest)) = front(Lead::Keyword(b"peak"), at.left) {
        judged(at, rest, false, given);
        return Kind::Peak;
    }
    at.refused = Some(stuck(leads, at.left, end));
    Kind::Ortho
}

/// The kind of the certificate, behind this answer.
pub fn kind_word(end: usize, at: &mut Reading, given: Option<bool>) -> Kind
    ensures { (names : NameTable) (v : Version) → ReadsWhere BeforeEntries names end (spec.body v given ∷ []) (λ u. kind_mark given result ∷ []) (spec.between spec.line ∷ item_by v result ∷ []) at.old at.new }
{
    let kinds = [
        Lead::Keyword(b"ortho"),
        Lead::Keyword(b"quasi"),
        Lead::Keyword(b"peak"),
    ];
    kind_among(end, at, given, &kinds)
}

/// The same where steps that simplify the system may come first: none, where they do.
pub fn simplified_word(end: usize, at: &mut Reading, given: Option<bool>) -> Option<Kind>
    ensures kind { IfSome result (λ k. (names : NameTable) → ReadsWhere BeforeEntries names end (spec.simplified given ∷ []) (λ u. kind_mark given k ∷ []) (spec.between spec.line ∷ item_by versions.second_version k ∷ []) at.old at.new) }
    ensures steps { IfNone result ((names : NameTable) → ReadsWhere BeforeEntries names end (spec.simplified given ∷ []) (λ u. fixed (codes "simplify ") ∷ []) (spec.simplification_count ∷ spec.body versions.second_version given ∷ []) at.old at.new) }
{
    if at.refused.is_some() {
        return Some(Kind::Ortho);
    }
    if let Some((_, rest)) = front(Lead::Text(b"simplify "), at.left) {
        at.left = rest;
        return None;
    }
    let words = [
        Lead::Text(b"simplify "),
        Lead::Keyword(b"ortho"),
        Lead::Keyword(b"quasi"),
        Lead::Keyword(b"peak"),
    ];
    Some(kind_among(end, at, given, &words))
}

/// Whether an overlap or the last line may begin here.
pub fn begins_entry(bytes: &[u8]) -> bool
    ensures begins { result ≡ true → BeginsEntry bytes.now }
    ensures other { result ≡ false → BeginsEntry bytes.now → ⊥ }
{
    matches!(bytes, [b'p' | b'e', ..])
}

/// Nothing, where an overlap or the last line may begin; else the text is refused.
pub fn entries_begin(end: usize, at: &mut Reading)
    ensures read { (names : NameTable) (v : Version) → ReadsWhere (WithinOpening v) names end (spec.pairs_from v 1 ∷ []) (λ u. []) (spec.pairs_from v 1 ∷ []) at.old at.new }
    ensures begins { at.new.refused ≡ None → BeginsEntry at.new.left.now }
{
    if at.refused.is_some() {
        return;
    }
    if begins_entry(at.left) {
        return;
    }
    let leads = [Lead::Keyword(b"pair"), Lead::Keyword(b"end")];
    at.refused = Some(stuck(&leads, at.left, end));
}
