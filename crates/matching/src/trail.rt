//! Matching in place: the variables that are bound stand on a trail, so that their values can be taken back.
ghost use Rattle.std.specs.Prelude.{◌≡◌, None, IfOk, OnOk, MatchBool, take, drop};
ghost use Rattle.std.specs.FinMap as map;
ghost use Rattle.rewriting.specs.Matching.{IsLeastMatch, HasNoMatch};
ghost use Rattle.term_core.specs.View.{view, views};
ghost use Rattle.matching.specs.Lists.{AreLeastMatches, HaveNoMatches};
ghost use Rattle.matching.specs.Trails.{IsNoted, without};

use crate::instances::has_shape;
use std::alloc::Global;
use term_core::{NoMemory, Subst, Term, equal, try_clone};

// Binds a variable that has no value, and puts it on the trail.
fn bind_noted(
    alloc: Global,
    values: &mut Subst,
    trail: &mut Vec<u32>,
    x: u32,
    subject: &Term,
) -> Result<(), NoMemory>
    requires { map.get values.old x ≡ None }
    ensures bound { OnOk result (values.new ≡ map.insert values.old x (view subject.now)) }
    ensures noted { OnOk result (IsNoted values.old trail.old.items values.new trail.new.items) }
{
    trail.push(x)?;
    values.bind(x, try_clone(alloc, subject)?)?;
    Ok(())
}

// Binds the variables of the pattern that have no value, as far as it matches.
#[cycle(noting)]
fn match_noted(
    alloc: Global,
    values: &mut Subst,
    trail: &mut Vec<u32>,
    pattern: &Term,
    subject: &Term,
) -> Result<bool, NoMemory>
    ensures matched { IfOk result (λ yes. MatchBool yes (IsLeastMatch values.old values.new (view pattern.now) (view subject.now)) (HasNoMatch values.old (view pattern.now) (view subject.now))) }
    ensures noted { OnOk result (IsNoted values.old trail.old.items values.new trail.new.items) }
{
    match pattern {
        Term::Var(x) => match values.get(*x) {
            Some(t) => Ok(equal(t, subject)),
            None => {
                bind_noted(alloc, values, trail, *x, subject)?;
                Ok(true)
            }
        },
        Term::Fun(f, ps) => match subject {
            Term::Var(_) => Ok(false),
            Term::Fun(g, ss) => {
                if *f == *g {
                    match_all_noted(alloc, values, trail, ps, ss)
                } else {
                    Ok(false)
                }
            }
        },
    }
}

#[cycle(noting)]
fn match_all_noted(
    alloc: Global,
    values: &mut Subst,
    trail: &mut Vec<u32>,
    ps: &[Term],
    ss: &[Term],
) -> Result<bool, NoMemory>
    ensures matched { IfOk result (λ yes. MatchBool yes (AreLeastMatches values.old values.new (views ps.now) (views ss.now)) (HaveNoMatches values.old (views ps.now) (views ss.now))) }
    ensures noted { OnOk result (IsNoted values.old trail.old.items values.new trail.new.items) }
{
    if ps.len() != ss.len() {
        return Ok(false);
    }
    for i in 0..ps.len() {
        if !match_noted(alloc, values, trail, &ps[i], &ss[i])? {
            return Ok(false);
        }
    }
    Ok(true)
}

/// The same as `match_onto`, in place: where the pattern matches, the values become the least extension. The variables that are
/// bound for that are put on the trail, where it does not match, too.
#[tactic(auto, using(crate::proofs::Shapes::no_shape, crate::proofs::Noted::noted_none))]
pub fn match_further(
    alloc: Global,
    values: &mut Subst,
    trail: &mut Vec<u32>,
    pattern: &Term,
    subject: &Term,
) -> Result<bool, NoMemory>
    ensures matched { IfOk result (λ yes. MatchBool yes (IsLeastMatch values.old values.new (view pattern.now) (view subject.now)) (HasNoMatch values.old (view pattern.now) (view subject.now))) }
    ensures noted { OnOk result (IsNoted values.old trail.old.items values.new trail.new.items) }
{
    // Most patterns do not match, and then nothing is bound.
    if !has_shape(pattern, subject) {
        return Ok(false);
    }
    match_noted(alloc, values, trail, pattern, subject)
}

/// Takes back the values of the variables behind a place of the trail.
pub fn take_back(values: &mut Subst, trail: &mut Vec<u32>, from: usize)
    ensures values { values.new ≡ without values.old (drop from trail.old.items) }
    ensures trail { trail.new.items ≡ take from trail.old.items }
{
    'trail: while trail.len() > from {
        let Some(x) = trail.pop() else {
            return;
        };
        values.unbind(x);
    }
}
