//! Words, each of which is read with what it must meet, or refused.

ghost use Rattle.std.specs.Prelude.{◌≡◌, ◌≤◌, ◌<◌, ◌++◌, ◌-◌, ℕ, suc, true, false, List, [], ◌∷◌, None, Some, length, IfSome, IfNone, MatchOption};
ghost use Rattle.cops_names.specs.NameTable.{NameTable, number_of, arity_at};
ghost use Rattle.cert_grammar.specs.Prelude.{largest, name_of, is_number, meets, has_arity, in_range, is_few, is_shallow, all_used, shares, Counted, counted_as, simplifications, fixed};
ghost use Rattle.cert_grammar.specs.Prelude.{word, symbol, behind, limit as most_of, position, Item, leads, holds, bad_share};
ghost use Rattle.cert_grammar.specs.WordMarks.{numeral};
ghost use Rattle.cert_grammar.specs.Items as spec;
ghost use Rattle.cert_words.specs.declared.leads.Lead.TheVariants as leading;
ghost use Rattle.cert_words.specs.Words.{bare, counted_view, told};
ghost use Rattle.cert_words.specs.Walks.{Reads, IsStuckAt, IsWithin};
ghost use Rattle.cert_words.specs.Choices.{WordReads, IsMissed, IsNumeral, IsVerdict, Finds};

use crate::choices::{Found, alone, first, judged, one_of};
use crate::demands::{BOUND, limit, symbol, value};
use crate::error::{CertCount, CertError};
use crate::leads::Lead;
use crate::reading::Reading;
use cert_grammar::{MOST_NESTING, MOST_SIMPLIFICATIONS};
use cert_shares::Shares;
use cops_names::Names;

// The place of what is left.
pub(crate) fn place(end: usize, left: &[u8]) -> usize
    ensures { result ≡ end - length left.now }
{
    end.saturating_sub(left.len())
}

// Why so many are too many, if they are.
fn too_many(what: CertCount, n: usize, most: usize, at: usize) -> Option<CertError>
    ensures verdict { (names : NameTable) (c : Counted) → counted_as c ≡ counted_view what → most_of c ≡ most → IsVerdict names at (is_few c n ∷ []) result }
    ensures few { result ≡ None → n ≤ most }
{
    if n > most {
        return Some(CertError::TooMany { what, at });
    }
    None
}

// Why this nesting is too deep, if it is.
fn too_deep(level: u32, at: usize) -> Option<CertError>
    ensures verdict { (names : NameTable) → IsVerdict names at (is_shallow MOST_NESTING level ∷ []) result }
    ensures shallow { result ≡ None → level ≤ MOST_NESTING }
{
    if level > MOST_NESTING {
        return Some(CertError::CertTooDeep { at });
    }
    None
}

// Why a symbol has the wrong arity, unless it has the right one.
pub(crate) fn wrong_arity(met: bool, at: usize) -> Option<CertError>
    ensures { (names : NameTable) (name : List ℕ) (n : ℕ) → meets names (has_arity name n) ≡ met → IsVerdict names at (has_arity name n ∷ []) result }
{
    if met {
        return None;
    }
    Some(CertError::WrongArity { at })
}

// Why the last line may not come, unless each shared automaton is used.
pub(crate) fn unused(shares: &Shares, at: usize) -> Option<CertError>
    ensures { MatchOption result (holds shares.now all_used ≡ true) (λ e. (holds shares.now all_used ≡ false) × (told e ≡ Some (bad_share, at))) }
{
    if shares.all_used() {
        return None;
    }
    Some(CertError::BadShare { at })
}

/// These bytes alone.
pub fn text(end: usize, at: &mut Reading, bytes: &'static [u8])
    ensures read { (names : NameTable) (i : Item) (new : List Item) → leads i ≡ spec.text bytes.now new ∷ [] → Reads names end (i ∷ []) (λ u. fixed bytes.now ∷ []) new at.old at.new }
    ensures here { at.old.refused ≡ None → (names : NameTable) (i : Item) (new : List Item) → leads i ≡ spec.text bytes.now new ∷ [] → IfSome at.new.refused (λ e. IsStuckAt names end i at.old.left.now at.old.shares (told e)) }
{
    alone(end, at, Lead::Text(bytes), None);
}

/// These bytes, or those.
pub fn either(end: usize, at: &mut Reading, one: &'static [u8], other: &'static [u8]) -> bool
    requires { 0 < length one.now }
    ensures one { result ≡ true → (names : NameTable) (i : Item) (new new_other : List Item) → leads i ≡ spec.text one.now new ∷ spec.text other.now new_other ∷ [] → Reads names end (i ∷ []) (λ u. fixed one.now ∷ []) new at.old at.new }
    ensures other { result ≡ false → (names : NameTable) (i : Item) (new new_other : List Item) → leads i ≡ spec.text one.now new ∷ spec.text other.now new_other ∷ [] → Reads names end (i ∷ []) (λ u. fixed other.now ∷ []) new_other at.old at.new }
    ensures shorter { result ≡ true → length at.new.left.now < length at.old.left.now }
{
    one_of(end, at, Lead::Text(one), None, Lead::Text(other), None)
}

// the number that the digits spell, where it is at least the one and below the other
pub(crate) fn within(digits: &[u8], least: u32, bound: u64) -> Option<u32>
    requires { bound ≤ suc largest }
    ensures { IsWithin least bound digits.now result }
{
    match value(digits) {
        Some(n) if least <= n && (n as u64) < bound => Some(n),
        _ => None,
    }
}

// The same, where it is found; else the text is refused.
pub(crate) fn digits<'a>(
    end: usize,
    at: &mut Reading<'a>,
    least: u32,
    bound: u64,
) -> Option<(u32, Found<'a>)>
    requires { bound ≤ suc largest }
    ensures { MatchOption result (IsMissed end (IsNumeral least bound) at.old at.new) (λ x. Finds end (bare leading.Number ∷ []) x.1 at.old at.new × IsWithin least bound x.1.word.now (Some x.0)) }
{
    let Some(found) = first(end, at, &[Lead::Number]) else {
        return None;
    };
    match within(found.word, least, bound) {
        Some(n) => Some((n, found)),
        None => {
            at.refused = Some(CertError::BadNumber { at: found.here });
            None
        }
    }
}

/// A number that is at least the one and below the other.
pub fn number(end: usize, at: &mut Reading, least: u32, bound: u64) -> u32
    requires { bound ≤ suc largest }
    ensures read { (names : NameTable) (i : Item) (new : ℕ → List Item) → leads i ≡ spec.numeral_lead (λ n. in_range 0 least bound n ∷ []) new ∷ [] → Reads names end (i ∷ []) (λ u. word (numeral result) (in_range 0 least bound result ∷ []) ∷ []) (new result) at.old at.new }
    ensures within { length at.new.left.now ≤ length at.old.left.now }
{
    let Some((n, found)) = digits(end, at, least, bound) else {
        return 0;
    };
    judged(at, found, None);
    n
}

/// A number that is at least the one, and tells how many follow.
pub fn counted(end: usize, at: &mut Reading, least: u32, what: CertCount) -> u32
    ensures read { (names : NameTable) (i : Item) (new : ℕ → List Item) → leads i ≡ spec.numeral_lead (λ n. in_range 0 least (suc largest) n ∷ is_few (counted_view what) n ∷ []) new ∷ [] → Reads names end (i ∷ []) (λ u. word (numeral result) (in_range 0 least (suc largest) result ∷ is_few (counted_view what) result ∷ []) ∷ []) (new result) at.old at.new }
    ensures here { at.old.refused ≡ None → (names : NameTable) (i : Item) (new : ℕ → List Item) → leads i ≡ spec.numeral_lead (λ n. in_range 0 least (suc largest) n ∷ is_few (counted_view what) n ∷ []) new ∷ [] → IfSome at.new.refused (λ e. IsStuckAt names end i at.old.left.now at.old.shares (told e)) }
{
    few(end, at, least, what, limit(what))
}

/// A number that tells how many steps before the body follow; they are counted as entries.
pub fn counted_steps(end: usize, at: &mut Reading) -> u32
    ensures { (names : NameTable) (i : Item) (new : ℕ → List Item) → leads i ≡ spec.numeral_lead (λ n. in_range 0 1 (suc largest) n ∷ is_few simplifications n ∷ []) new ∷ [] → Reads names end (i ∷ []) (λ u. word (numeral result) (in_range 0 1 (suc largest) result ∷ is_few simplifications result ∷ []) ∷ []) (new result) at.old at.new }
{
    let most = MOST_SIMPLIFICATIONS as usize;
    few(end, at, 1, CertCount::Entries, most)
}

// The same of what has this limit, and is told as that.
fn few(end: usize, at: &mut Reading, least: u32, what: CertCount, most: usize) -> u32
    ensures { (names : NameTable) (i : Item) (new : ℕ → List Item) (c : Counted) → counted_as c ≡ counted_view what → most_of c ≡ most → leads i ≡ spec.numeral_lead (λ n. in_range 0 least (suc largest) n ∷ is_few c n ∷ []) new ∷ [] → WordReads names end i (λ u. word (numeral result) (in_range 0 least (suc largest) result ∷ is_few c result ∷ []) ∷ []) (new result) at.old at.new }
{
    let Some((n, found)) = digits(end, at, least, BOUND) else {
        return 0;
    };
    judged(at, found, too_many(what, n as usize, most, found.here));
    n
}

/// The word before a derivation in this nesting.
pub fn nested(end: usize, at: &mut Reading, bytes: &'static [u8], level: u32)
    ensures read { (names : NameTable) (i : Item) (new : List Item) → leads i ≡ spec.keyword bytes.now (is_shallow MOST_NESTING level ∷ []) new ∷ [] → Reads names end (i ∷ []) (λ u. word bytes.now (is_shallow MOST_NESTING level ∷ []) ∷ []) new at.old at.new }
    ensures shallow { at.new.refused ≡ None → level ≤ MOST_NESTING }
{
    let here = place(end, at.left);
    alone(end, at, Lead::Keyword(bytes), too_deep(level, here));
}

/// A symbol by its name, or these bytes.
pub fn name_or(names: &Names, end: usize, at: &mut Reading, bytes: &'static [u8]) -> Option<u32>
    ensures name { IfSome result (λ f. (i : Item) (new : List ℕ → List Item) (other : List Item) → leads i ≡ spec.name_lead [] new ∷ spec.text bytes.now other ∷ [] → Reads names.now end (i ∷ []) (λ u. symbol (u f) [] ∷ []) (new (name_of names.now f)) at.old at.new) }
    ensures found { IfSome result (λ f. number_of names.now.symbols (name_of names.now f) ≡ Some f) }
    ensures other { IfNone result ((i : Item) (new : List ℕ → List Item) (other : List Item) → leads i ≡ spec.name_lead [] new ∷ spec.text bytes.now other ∷ [] → Reads names.now end (i ∷ []) (λ u. fixed bytes.now ∷ []) other at.old at.new) }
{
    let Some(found) = first(end, at, &[Lead::Name, Lead::Text(bytes)]) else {
        return None;
    };
    if found.which != 0 {
        judged(at, found, None);
        return None;
    }
    let Some(f) = symbol(names, found.word) else {
        at.refused = Some(CertError::UnknownName { at: found.here });
        return None;
    };
    judged(at, found, None);
    Some(f)
}

/// A symbol by its name.
pub fn name(names: &Names, end: usize, at: &mut Reading) -> u32
    ensures { (i : Item) (new : List ℕ → List Item) → leads i ≡ spec.name_lead [] new ∷ [] → Reads names.now end (i ∷ []) (λ u. symbol (u result) [] ∷ []) (new (name_of names.now result)) at.old at.new }
{
    let Some(found) = first(end, at, &[Lead::Name]) else {
        return 0;
    };
    let Some(f) = symbol(names, found.word) else {
        at.refused = Some(CertError::UnknownName { at: found.here });
        return 0;
    };
    judged(at, found, None);
    f
}

/// Any number, the one with this number in its line.
pub fn numbered(end: usize, at: &mut Reading, what: CertCount, n: usize) -> u32
    ensures within { length at.new.left.now ≤ length at.old.left.now }
    ensures read { (names : NameTable) (i : Item) (new : ℕ → List Item) → leads i ≡ spec.numeral_lead (λ k. in_range 0 0 (suc largest) k ∷ is_few (counted_view what) n ∷ []) new ∷ [] → Reads names end (i ∷ []) (λ u. word (numeral result) (in_range 0 0 (suc largest) result ∷ is_few (counted_view what) n ∷ []) ∷ []) (new result) at.old at.new }
{
    let Some((k, found)) = digits(end, at, 0, BOUND) else {
        return 0;
    };
    judged(at, found, too_many(what, n, limit(what), found.here));
    k
}

/// Whether the symbol has so many arguments.
pub fn has_so_many(names: &Names, f: u32, n: usize) -> bool
    ensures { result ≡ is_number n (arity_at names.now f) }
{
    match names.arity(f) {
        Some(arity) => arity as usize == n,
        None => false,
    }
}

/// No bytes, before this byte: whether a symbol has so many arguments.
pub fn checked(end: usize, at: &mut Reading, byte: u8, met: bool)
    ensures { (names : NameTable) (f n : ℕ) (i : Item) (new : List Item) → leads i ≡ spec.check (has_arity (name_of names f) n) byte new ∷ [] → meets names (has_arity (name_of names f) n) ≡ met → Reads names end (i ∷ []) (λ u. behind (has_arity (u f) n) ∷ []) new at.old at.new }
{
    let here = place(end, at.left);
    alone(end, at, Lead::Check(byte), wrong_arity(met, here));
}

/// These bytes, or none before this byte, where a symbol has no arguments.
pub fn opened(end: usize, at: &mut Reading, bytes: &'static [u8], byte: u8, met: bool) -> bool
    ensures opened { result ≡ true → (names : NameTable) (f n : ℕ) (i : Item) (new other : List Item) → leads i ≡ spec.text bytes.now new ∷ spec.check (has_arity (name_of names f) n) byte other ∷ [] → Reads names end (i ∷ []) (λ u. fixed bytes.now ∷ []) new at.old at.new }
    ensures none { result ≡ false → (names : NameTable) (f n : ℕ) (i : Item) (new other : List Item) → leads i ≡ spec.text bytes.now new ∷ spec.check (has_arity (name_of names f) n) byte other ∷ [] → meets names (has_arity (name_of names f) n) ≡ met → Reads names end (i ∷ []) (λ u. behind (has_arity (u f) n) ∷ []) other at.old at.new }
{
    let missed = wrong_arity(met, place(end, at.left));
    one_of(end, at, Lead::Text(bytes), None, Lead::Check(byte), missed)
}

/// Puts what was read last, unless the text is refused.
pub fn put<T: Drop>(at: &mut Reading, list: &mut Vec<T>, x: T)
    ensures grown { at.new.refused ≡ None → list.new.items ≡ list.old.items ++ x ∷ [] }
    ensures read { (names : NameTable) (end : ℕ) (from : List Item) → Reads names end from (λ u. []) from at.old at.new }
    ensures within { length at.new.left.now ≤ length at.old.left.now }
{
    if at.refused.is_some() {
        return;
    }
    if list.push(x).is_err() {
        at.refused = Some(CertError::NoMemory);
    }
}

/// This word, which is counted, or that one, at which each shared automaton is used.
pub fn counted_or(
    end: usize,
    at: &mut Reading,
    bytes: &'static [u8],
    what: CertCount,
    n: usize,
    other: &'static [u8],
) -> bool
    ensures word { result ≡ true → (names : NameTable) (i : Item) (new new_other : List Item) → leads i ≡ spec.keyword bytes.now (is_few (counted_view what) n ∷ []) new ∷ spec.keyword other.now (shares all_used ∷ []) new_other ∷ [] → Reads names end (i ∷ []) (λ u. word bytes.now (is_few (counted_view what) n ∷ []) ∷ []) new at.old at.new }
    ensures other { result ≡ false → (names : NameTable) (i : Item) (new new_other : List Item) → leads i ≡ spec.keyword bytes.now (is_few (counted_view what) n ∷ []) new ∷ spec.keyword other.now (shares all_used ∷ []) new_other ∷ [] → Reads names end (i ∷ []) (λ u. word other.now (shares all_used ∷ []) ∷ []) new_other at.old at.new }
    ensures text { result ≡ false → at.old.refused ≡ None → at.new.refused ≡ None → at.old.left.now ≡ other.now ++ at.new.left.now }
    ensures few { result ≡ true → at.new.refused ≡ None → n ≤ most_of (counted_view what) }
    ensures here { at.old.refused ≡ None → (names : NameTable) (i : Item) (new new_other : List Item) → leads i ≡ spec.keyword bytes.now (is_few (counted_view what) n ∷ []) new ∷ spec.keyword other.now (shares all_used ∷ []) new_other ∷ [] → IfSome at.new.refused (λ e. IsStuckAt names end i at.old.left.now at.old.shares (told e)) }
{
    let here = place(end, at.left);
    let missed = too_many(what, n, limit(what), here);
    let unused = unused(&at.shares, here);
    one_of(
        end,
        at,
        Lead::Keyword(bytes),
        missed,
        Lead::Keyword(other),
        unused,
    )
}
