//! The first of some leads, and what is read with it.

ghost use Rattle.std.specs.Prelude.{◌≡◌, ℕ, List, [], ◌∷◌, None, map, length, IfSome, MatchOption, true, false};
ghost use Rattle.cops_names.specs.NameTable.{NameTable};
ghost use Rattle.cert_grammar.specs.Prelude.{Naming, Mark, Lead as SpecLead};
ghost use Rattle.cert_grammar.specs.Items.{Item, leads};
ghost use Rattle.cert_grammar.specs.Items as spec;
ghost use Rattle.cert_words.specs.Words.{bare, told, IsLeadRead};
ghost use Rattle.cert_words.specs.Walks.{IsStuckAt};
ghost use Rattle.cert_words.specs.Choices.{Choice, lead_of, bare_of, Chosen, Missed, IsFirst, plain, IsMissed, Finds, IsJudged, IsWhy, WordReads};

use crate::error::CertError;
use crate::leads::{Lead, reach, stuck};
use crate::reading::Reading;

/// What is found: which of the leads, at which place, its word, and what is behind it.
#[derive(Clone, Copy, Drop)]
pub struct Found<'a> {
    pub which: usize,
    pub here: usize,
    pub word: &'a [u8],
    pub rest: &'a [u8],
}

// The first of the leads that is there, its word, and what is behind it.
fn which<'a>(leads: &[Lead], left: &'a [u8]) -> Option<(usize, &'a [u8], &'a [u8])>
    ensures { MatchOption result (Missed left.now (length leads.now) (map bare leads.now)) (λ x. IsFirst left.now (map bare leads.now) x.0 x.1.now x.2.now) }
{
    'leads: for (place, lead) in leads.iter().enumerate() {
        if let Some(size) = reach(lead, left) {
            let (word, rest) = left.split_at(size);
            return Some((place, word, rest));
        }
    }
    None
}

// The first of the leads that is there, unless the text is refused; where there is none it is refused. It is called for each
// word, and what it finds is long to hand over.
#[inline(always)]
pub fn first<'a>(end: usize, at: &mut Reading<'a>, leads: &[Lead]) -> Option<Found<'a>>
    ensures { MatchOption result (IsMissed end (λ i. map plain (spec.leads i) ≡ map bare leads.now) at.old at.new) (λ x. Finds end (map bare leads.now) x at.old at.new) }
{
    if at.refused.is_some() {
        return None;
    }
    let here = end.saturating_sub(at.left.len());
    match which(leads, at.left) {
        Some((which, word, rest)) => Some(Found {
            which,
            here,
            word,
            rest,
        }),
        None => {
            at.refused = Some(stuck(leads, at.left, end));
            None
        }
    }
}

// Goes on behind what was found, unless this is why the text is refused.
pub fn judged<'a>(at: &mut Reading<'a>, found: Found<'a>, missed: Option<CertError>)
    ensures { IsJudged found.entry missed at.old at.new }
{
    match missed {
        Some(refused) => at.refused = Some(refused),
        None => at.left = found.rest,
    }
}

// This lead alone, unless that is why the text is refused where it is there.
pub fn alone(end: usize, at: &mut Reading, lead: Lead, missed: Option<CertError>)
    ensures word { (names : NameTable) (i : Item) (a : SpecLead) (marks : Naming → List Mark) (to : List Item) → leads i ≡ a ∷ [] → plain a ≡ bare lead → IsWhy names end i a marks to at.old missed → WordReads names end i marks to at.old at.new }
    ensures passed { at.new.refused ≡ None → missed ≡ None }
{
    if let Some(found) = first(end, at, &[lead]) {
        judged(at, found, missed);
    }
}

// Whether the first of the two leads is there, or else the other, unless that is why the text is refused there.
pub fn one_of(
    end: usize,
    at: &mut Reading,
    lead: Lead,
    missed: Option<CertError>,
    other: Lead,
    missed_other: Option<CertError>,
) -> bool
    ensures one { result ≡ true → (names : NameTable) (i : Item) (a b : SpecLead) (marks : Naming → List Mark) (to : List Item) → leads i ≡ a ∷ b ∷ [] → plain a ≡ bare lead → plain b ≡ bare other → IsWhy names end i a marks to at.old missed → WordReads names end i marks to at.old at.new }
    ensures other { result ≡ false → (names : NameTable) (i : Item) (a b : SpecLead) (marks : Naming → List Mark) (to : List Item) → leads i ≡ a ∷ b ∷ [] → plain a ≡ bare lead → plain b ≡ bare other → IsWhy names end i b marks to at.old missed_other → WordReads names end i marks to at.old at.new }
    ensures passed { result ≡ true → at.new.refused ≡ None → missed ≡ None }
    ensures taken { result ≡ true → missed ≡ None → (w : List ℕ) × IsLeadRead (bare lead) at.old.left.now w at.new.left.now }
    ensures taken_other { result ≡ false → at.new.refused ≡ None → (w : List ℕ) × IsLeadRead (bare other) at.old.left.now w at.new.left.now }
{
    let Some(found) = first(end, at, &[lead, other]) else {
        return false;
    };
    if found.which == 0 {
        judged(at, found, missed);
        return true;
    }
    judged(at, found, missed_other);
    false
}

/// Which of the texts comes next, by its place among them.
pub fn choose(end: usize, at: &mut Reading, texts: &[Lead]) -> usize
    ensures chosen { (names : NameTable) (i : Item) (choices : List Choice) → leads i ≡ map lead_of choices → map bare texts.now ≡ map bare_of choices → Chosen names end i choices result at.old at.new }
    ensures here { at.old.refused ≡ None → (names : NameTable) (i : Item) (choices : List Choice) → leads i ≡ map lead_of choices → map bare texts.now ≡ map bare_of choices → IfSome at.new.refused (λ e. IsStuckAt names end i at.old.left.now at.old.shares (told e)) }
{
    match first(end, at, texts) {
        Some(found) => {
            judged(at, found, None);
            found.which
        }
        None => texts.len(),
    }
}
