//! Most general unifiers of lists of terms, by a run that stops at terms beyond the limits of size, and terms with other
//! numbers for their variables.
//!
//! `unify_terms` of f(x, b) and f(a, y) gives x = a and y = b. f(a) and g(a) clash, and so do x and f(x), since x occurs
//! in what it would be bound to. Where both terms are to have variables of their own, one is unified with 2k for each
//! variable k, the other with 2k + 1: `rename(alloc, &t, 2, 1)`.
#![tactic(auto)]

mod bound;
mod renaming;
mod solving;

ghost use Rattle.std.specs.Prelude.{◌≡◌, length};
ghost use Rattle.rewriting.specs.Terms as math;
ghost use Rattle.term_core.specs.View.{view, views};
ghost use Rattle.unification.specs.Solving.{bindings, AreInTurn, OutcomeAnswers};
ghost use Rattle.unification.specs.Answers.{UnifyAnswers};

use crate::bound::{Bound, subst_of};
use crate::solving::{Progress, solve, solve_all};
pub use renaming::{rename, renamed};
use std::alloc::Global;
use term_core::{NoMemory, Subst, Term};

/// What unification finds.
#[derive(Debug, Drop)]
pub enum Unified {
    /// The most general unifier that the run gives.
    Mgu(Subst),
    /// There is no unifier.
    Clash,
    /// A term of the run has more than 10,000 nodes or a depth of more than 400.
    TooLarge,
}

// What a run comes to, with the variables that it has bound.
fn outcome(alloc: Global, progress: Progress, found: &[Bound<'_>]) -> Result<Unified, NoMemory>
    requires { AreInTurn found.now }
    ensures { OutcomeAnswers (bindings found.now) progress result }
{
    match progress {
        Progress::Solved => Ok(Unified::Mgu(subst_of(alloc, found)?)),
        Progress::Clash => Ok(Unified::Clash),
        Progress::TooLarge => Ok(Unified::TooLarge),
    }
}

/// Solves the equations between the terms of two lists of one length, in order
/// (Baader and Nipkow, Term Rewriting and All That, section 4.6).
pub fn unify(alloc: Global, a: &[Term], b: &[Term]) -> Result<Unified, NoMemory>
    requires { length a.now ≡ length b.now }
    ensures { UnifyAnswers (views a.now) (views b.now) result }
{
    let mut found = Vec::new(alloc);
    let progress = solve_all(a, b, false, &mut found)?;
    outcome(alloc, progress, &found)
}

/// The same for the one equation between two terms.
pub fn unify_terms(alloc: Global, a: &Term, b: &Term) -> Result<Unified, NoMemory>
    ensures { UnifyAnswers (math.cons (view a.now) math.nil) (math.cons (view b.now) math.nil) result }
{
    let mut found = Vec::new(alloc);
    let progress = solve(a, b, false, &mut found)?;
    outcome(alloc, progress, &found)
}

/// The same for two terms that are known to fit, and are not measured then.
pub fn unify_fitting(alloc: Global, a: &Term, b: &Term) -> Result<Unified, NoMemory>
    requires first { math.Fits (view a.now) }
    requires second { math.Fits (view b.now) }
    ensures { UnifyAnswers (math.cons (view a.now) math.nil) (math.cons (view b.now) math.nil) result }
{
    let mut found = Vec::new(alloc);
    let progress = solve(a, b, true, &mut found)?;
    outcome(alloc, progress, &found)
}
