//! The words at which shared automata are judged.

ghost use Rattle.std.specs.Prelude.{◌≡◌, ◌++◌, ℕ, suc, List, [], ◌∷◌, None, length, true, IfSome};
ghost use Rattle.cops_names.specs.NameTable.{NameTable};
ghost use Rattle.cert_grammar.specs.Prelude.{name_of, Naming, Mark, word, closed, automaton_begins, automaton_ends, is_use, is_light, all_used, shares, use_mark, holds, share_effect, Item};
ghost use Rattle.cert_grammar.specs.Prelude.{leads, is_short};
ghost use Rattle.cert_grammar.specs.Items as spec;
ghost use Rattle.cert_words.specs.declared.reading.Reading as read;
ghost use Rattle.cert_words.specs.Words.{told};
ghost use Rattle.cert_words.specs.Walks.{Reads, IsStuckAt, BeginsAnew, IsStuckBehind};

use crate::choices::alone;
use crate::demands::BOUND;
use crate::error::{CertCount, CertError};
use crate::leads::Lead;
use crate::reading::Reading;
use crate::words::{digits, place, unused};
use cert_shares::Share;

/// The word with which an automaton begins.
pub fn begins(end: usize, at: &mut Reading, bytes: &'static [u8])
    ensures read { (names : NameTable) (i : Item) (new : List Item) → leads i ≡ spec.keyword bytes.now (shares automaton_begins ∷ []) new ∷ [] → Reads names end (i ∷ []) (λ u. word bytes.now (shares automaton_begins ∷ []) ∷ []) new at.old at.new }
    ensures here { at.old.refused ≡ None → (names : NameTable) (i : Item) (new : List Item) → leads i ≡ spec.keyword bytes.now (shares automaton_begins ∷ []) new ∷ [] → IfSome at.new.refused (λ e. IsStuckAt names end i at.old.left.now at.old.shares (told e)) }
{
    alone(end, at, Lead::Keyword(bytes), None);
}

/// The word of the last line, at which each shared automaton is used.
pub fn last_word(end: usize, at: &mut Reading, bytes: &'static [u8])
    ensures { (names : NameTable) (i : Item) (new : List Item) → leads i ≡ spec.keyword bytes.now (shares all_used ∷ []) new ∷ [] → Reads names end (i ∷ []) (λ u. word bytes.now (shares all_used ∷ []) ∷ []) new at.old at.new }
{
    let missed = unused(&at.shares, place(end, at.left));
    alone(end, at, Lead::Keyword(bytes), missed);
}

/// The number of a shared automaton, which is used.
pub fn used(end: usize, at: &mut Reading) -> u32
    ensures read { (names : NameTable) (i : Item) (new : ℕ → List Item) → leads i ≡ spec.numeral_lead (λ n. is_short n ∷ shares (is_use n) ∷ shares (is_light n) ∷ []) new ∷ [] → Reads names end (i ∷ []) (λ u. use_mark result ∷ []) (new result) at.old at.new }
    ensures used { at.new.refused ≡ None → holds at.old.shares (is_use result) ≡ true }
    ensures known { at.new.refused ≡ None → at.new.shares ≡ share_effect (is_light result) (share_effect (is_use result) at.old.shares) }
{
    let Some((n, found)) = digits(end, at, 0, BOUND) else {
        return 0;
    };
    let what = CertCount::Unfolded;
    match at.shares.take(n) {
        Share::Good => at.left = found.rest,
        Share::Bad => at.refused = Some(CertError::BadShare { at: found.here }),
        Share::Heavy => at.refused = Some(CertError::TooMany {
            what,
            at: found.here,
        }),
    }
    n
}

/// The end of an automaton that began where these bytes were left: it differs from those before.
pub fn ended<'a>(end: usize, at: &mut Reading<'a>, begun: &'a [u8])
    ensures read { (names : NameTable) (from : List Item) (f : Naming → List Mark) (i : Item) (new : List Item) (a : read.Reading) → a.left.now ≡ begun.now → BeginsAnew (f (name_of names)) → leads i ≡ spec.at_once (shares automaton_ends) new ∷ [] → Reads names end from f (i ∷ []) a at.old → Reads names end from (λ u. f u ++ closed (shares automaton_ends) ∷ []) new a at.new }
    ensures here { at.old.refused ≡ None → (names : NameTable) (from : List Item) (f : Naming → List Mark) (i : Item) (new : List Item) (a : read.Reading) → a.left.now ≡ begun.now → BeginsAnew (f (name_of names)) → leads i ≡ spec.at_once (shares automaton_ends) new ∷ [] → Reads names end from f (i ∷ []) a at.old → IfSome at.new.refused (λ e. IsStuckBehind names end i (f (name_of names)) a.left.now at.old.left.now a.shares (told e)) }
{
    if at.refused.is_some() {
        return;
    }
    let (text, _) = begun.split_at(begun.len().saturating_sub(at.left.len()));
    match at.shares.end(text) {
        Ok(true) => {}
        Ok(false) => {
            at.refused = Some(CertError::BadShare {
                at: place(end, begun),
            });
        }
        Err(_) => at.refused = Some(CertError::NoMemory),
    }
}
