//! Matching by recursion on the pattern, where values are copies of parts of the subject.
ghost use Rattle.std.specs.Prelude.{◌≡◌, IfOk, OnOk, MatchBool};
ghost use Rattle.std.specs.FinMap as map;
ghost use Rattle.rewriting.specs.Matching.{IsLeastMatch, HasNoMatch};
ghost use Rattle.term_core.specs.View.{view, views};
ghost use Rattle.matching.specs.Lists.{AreLeastMatches, HaveNoMatches};

use std::alloc::Global;
use term_core::{NoMemory, Subst, Term, equal, try_clone};

fn bind_new(alloc: Global, values: &mut Subst, x: u32, subject: &Term) -> Result<(), NoMemory>
    ensures { OnOk result (values.new ≡ map.insert values.old x (view subject.now)) }
{
    values.bind(x, try_clone(alloc, subject)?)
}

// Binds the variables of the pattern that have no value, as far as it matches.
#[cycle(matching)]
pub(crate) fn match_into(
    alloc: Global,
    values: &mut Subst,
    pattern: &Term,
    subject: &Term,
) -> Result<bool, NoMemory>
    ensures { IfOk result (λ yes. MatchBool yes (IsLeastMatch values.old values.new (view pattern.now) (view subject.now)) (HasNoMatch values.old (view pattern.now) (view subject.now))) }
{
    match pattern {
        Term::Var(x) => match values.get(*x) {
            Some(t) => Ok(equal(t, subject)),
            None => {
                bind_new(alloc, values, *x, subject)?;
                Ok(true)
            }
        },
        Term::Fun(f, ps) => match subject {
            Term::Var(_) => Ok(false),
            Term::Fun(g, ss) => {
                if *f == *g {
                    match_all(alloc, values, ps, ss)
                } else {
                    Ok(false)
                }
            }
        },
    }
}

#[cycle(matching)]
fn match_all(alloc: Global, values: &mut Subst, ps: &[Term], ss: &[Term]) -> Result<bool, NoMemory>
    ensures { IfOk result (λ yes. MatchBool yes (AreLeastMatches values.old values.new (views ps.now) (views ss.now)) (HaveNoMatches values.old (views ps.now) (views ss.now))) }
{
    if ps.len() != ss.len() {
        return Ok(false);
    }
    for i in 0..ps.len() {
        if !match_into(alloc, values, &ps[i], &ss[i])? {
            return Ok(false);
        }
    }
    Ok(true)
}
