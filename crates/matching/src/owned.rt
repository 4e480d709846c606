//! Matching onto a subject that is given away: its parts become values and are not copied.
ghost use Rattle.std.specs.Prelude.{IfOk, MatchBool};
ghost use Rattle.rewriting.specs.Matching.{IsLeastMatch, HasNoMatch};
ghost use Rattle.term_core.specs.View.{view, views};
ghost use Rattle.matching.specs.Lists.{AreLeastMatches, HaveNoMatches};
ghost use Rattle.matching.specs.Answers.{MatchAnswers};

use crate::Match;
use std::mem;
use term_core::{NoMemory, Subst, Term, equal};

// Binds the variables of the pattern that have no value to parts of the subject, as far as it matches.
#[cycle(taking)]
fn take_parts(values: &mut Subst, pattern: &Term, subject: Term) -> Result<bool, NoMemory>
    ensures { IfOk result (λ yes. MatchBool yes (IsLeastMatch values.old values.new (view pattern.now) (view subject)) (HasNoMatch values.old (view pattern.now) (view subject))) }
{
    match pattern {
        Term::Var(x) => match values.get(*x) {
            Some(t) => Ok(equal(t, &subject)),
            None => {
                values.bind(*x, subject)?;
                Ok(true)
            }
        },
        Term::Fun(f, patterns) => match subject {
            Term::Var(_) => Ok(false),
            Term::Fun(g, subjects) => {
                if *f == g {
                    take_all(values, patterns, subjects)
                } else {
                    Ok(false)
                }
            }
        },
    }
}

#[cycle(taking)]
fn take_all(values: &mut Subst, patterns: &[Term], subjects: Vec<Term>) -> Result<bool, NoMemory>
    ensures { IfOk result (λ yes. MatchBool yes (AreLeastMatches values.old values.new (views patterns.now) (views subjects.items)) (HaveNoMatches values.old (views patterns.now) (views subjects.items))) }
{
    if patterns.len() != subjects.len() {
        return Ok(false);
    }
    let mut left = subjects;
    for i in 0..patterns.len() {
        let subject = mem::replace(&mut left[i], Term::Var(0));
        if !take_parts(values, &patterns[i], subject)? {
            return Ok(false);
        }
    }
    Ok(true)
}

/// The same as `match_onto`, for values and a subject that are the caller's to give: parts of the
/// subject become values and are not copied.
pub fn match_owned(start: Subst, pattern: &Term, subject: Term) -> Result<Match, NoMemory>
    ensures { MatchAnswers start (view pattern.now) (view subject) result }
{
    let mut values = start;
    if take_parts(&mut values, pattern, subject)? {
        Ok(Match::Bound(values))
    } else {
        Ok(Match::Unmatched)
    }
}
