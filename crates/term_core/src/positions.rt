//! Positions in a term: the subterm at one, and the term with another subterm there.
ghost use Rattle.std.specs.Prelude.{◌≡◌, ◌<◌, ◌+◌, IfOk, option_map, map, length, ◌++◌, OnOk, IsSome};
ghost use Rattle.rewriting.specs.Terms as math;
ghost use Rattle.rewriting.specs.Positions as position;
ghost use Rattle.term_core.specs.View.{view, views};
ghost use Rattle.term_core.specs.Replace.{PutAnswers, ReplaceAnswers};

use crate::terms::{NoMemory, Term, TermError, fits, try_clone};
use std::alloc::Global;

// The argument with a number, from 1.
#[tactic(auto, using(crate::proofs::Views::argument_at, crate::proofs::Views::argument_below, crate::proofs::Views::argument_above))]
fn argument(t: &Term, k: u32) -> Option<&Term>
    ensures { option_map (λ s. view s.now) result ≡ position.argument_of (view t.now) k }
{
    match t {
        Term::Var(_) => None,
        Term::Fun(_, args) => {
            if k >= 1 && k as usize <= args.len() {
                Some(&args[k as usize - 1])
            } else {
                None
            }
        }
    }
}

/// The subterm at a position, a list of argument numbers from 1; none where the term has no such position.
pub fn subterm<'a>(t: &'a Term, p: &[u32]) -> Option<&'a Term>
    ensures { option_map (λ s. view s.now) result ≡ position.subterm (view t.now) p.now }
{
    let mut here = t;
    for k in p {
        here = argument(here, *k)?;
    }
    Some(here)
}

// Appends copies of some terms.
fn copy_onto(alloc: Global, terms: &[Term], out: &mut Vec<Term>) -> Result<(), NoMemory>
    ensures { OnOk result (map view out.new.items ≡ map view out.old.items ++ map view terms.now) }
{
    for term in terms {
        out.push(try_clone(alloc, term)?)?;
    }
    Ok(())
}

// Copies of some terms, but for one, which is taken from the caller.
#[tactic(auto, using(crate::proofs::Views::spliced_views))]
fn spliced(alloc: Global, args: &[Term], at: usize, part: Term) -> Result<Vec<Term>, NoMemory>
    requires { at < length args.now }
    ensures { IfOk result (λ v. views v.items ≡ position.with_argument (views args.now) (at + 1) (view part)) }
{
    let mut out = Vec::with_capacity(alloc, args.len())?;
    copy_onto(alloc, &args[..at], &mut out)?;
    out.push(part)?;
    copy_onto(alloc, &args[at + 1..], &mut out)?;
    Ok(out)
}

// A copy of the term with another argument at a number, from 1.
#[tactic(auto, using(crate::proofs::Views::low, crate::proofs::Views::high, crate::proofs::Views::with_argument_views))]
fn with_argument(alloc: Global, t: &Term, k: u32, part: Term) -> Result<Term, NoMemory>
    requires { IsSome (position.argument_of (view t.now) k) }
    ensures { IfOk result (λ v. view v ≡ position.with_argument_of (view t.now) k (view part)) }
{
    match t {
        Term::Var(x) => Ok(Term::Var(*x)),
        Term::Fun(f, args) => Ok(Term::Fun(*f, spliced(alloc, args, k as usize - 1, part)?)),
    }
}

// The term with u at a position, of any size.
fn put(alloc: Global, t: &Term, p: &[u32], u: &Term) -> Result<Term, TermError>
    ensures { PutAnswers (view t.now) p.now (view u.now) result }
{
    let Some((k, rest)) = p.split_first() else {
        return Ok(try_clone(alloc, u)?);
    };
    let Some(arg) = argument(t, *k) else {
        return Err(TermError::NoPosition);
    };
    let part = put(alloc, arg, rest, u)?;
    Ok(with_argument(alloc, t, *k, part)?)
}

/// The term with `u` at a position: `NoPosition` where there is no such position, `TooLarge` where the
/// result does not fit.
pub fn replace(alloc: Global, t: &Term, p: &[u32], u: &Term) -> Result<Term, TermError>
    requires whole { math.Fits (view t.now) }
    requires part { math.Fits (view u.now) }
    ensures { ReplaceAnswers (view t.now) p.now (view u.now) result }
{
    let v = put(alloc, t, p, u)?;
    if fits(&v) {
        Ok(v)
    } else {
        Err(TermError::TooLarge)
    }
}
