//! Matching a pattern onto a subject: the least substitution that makes the one the other, or that there is none.
//!
//! The pattern f(x, g(y)) and the subject f(a, g(b)) give a for x and b for y. The pattern f(x, x) gives a for x
//! with f(a, a), and nothing with f(a, b), where x would have two values.
#![tactic(auto)]

ghost use Rattle.std.specs.FinMap as map;
ghost use Rattle.term_core.specs.View.{view};
ghost use Rattle.matching.specs.Answers.{MatchAnswers};

mod finding;
mod instances;
mod normal;
mod owned;
mod trail;

use finding::match_into;
pub use instances::matches;
pub use normal::matches_nowhere;
pub use owned::match_owned;
use std::alloc::Global;
use term_core::{NoMemory, Subst, Term};
pub use trail::{match_further, take_back};

/// What matching finds.
#[derive(Debug, Drop)]
pub enum Match {
    /// The least substitution.
    Bound(Subst),
    /// There is none.
    Unmatched,
}

/// The least substitution that makes the pattern equal the subject. The variables of the two are of
/// two kinds, even where their numbers agree.
pub fn match_term(alloc: Global, pattern: &Term, subject: &Term) -> Result<Match, NoMemory>
    ensures { MatchAnswers map.empty (view pattern.now) (view subject.now) result }
{
    match_onto(alloc, &Subst::new(alloc), pattern, subject)
}

/// The least extension of `start` that makes the pattern equal the subject.
#[tactic(auto, using(crate::proofs::Unmatched::no_instance))]
pub fn match_onto(
    alloc: Global,
    start: &Subst,
    pattern: &Term,
    subject: &Term,
) -> Result<Match, NoMemory>
    ensures { MatchAnswers start.now (view pattern.now) (view subject.now) result }
{
    // Most patterns do not match, and then nothing is copied.
    if !matches(pattern, subject) {
        return Ok(Match::Unmatched);
    }
    let mut values = start.try_clone(alloc)?;
    if match_into(alloc, &mut values, pattern, subject)? {
        Ok(Match::Bound(values))
    } else {
        Ok(Match::Unmatched)
    }
}
