//! Whether a term is absolutely irreducible: no instance of a part of it that is no variable is an instance of a left
//! side.
#![tactic(auto)]

ghost use Rattle.std.specs.Prelude.{◌≡◌, ◌<◌, ◌^◌, ◌↔◌, ℕ, true, IfOk, IsTrue, Ok as Answered};
ghost use Rattle.rewriting.specs.Terms as math;
ghost use Rattle.rewriting.specs.Variables.{occurs};
ghost use Rattle.unifier_run.specs.Irreducible.{DoAllClash};
ghost use Rattle.term_core.specs.View.{view};
ghost use Rattle.irreducible.specs.Judging.{JudgeAnswers};
ghost use Rattle.irreducible.specs.Answers.{IrreducibleAnswers};

mod judging;

use crate::judging::judge;
use prepared_system::PreparedSystem;
use renumbering::Numbering;
use rule_index::IndexedSystem;
use std::alloc::Global;
use term_core::{NoMemory, System, Term, fits};
use unification::renamed;

/// What the test answers.
#[derive(Clone, Copy, Debug, PartialEq, Eq)]
pub enum Irreducible {
    /// No subterm that is no variable unifies with a left side renamed apart.
    Yes,
    /// Some such subterm does.
    No,
    /// A run passes the size before one is found.
    TooLarge,
}

// A term that does not fit: the first run on it passes the size.
fn judge_large(sys: &PreparedSystem<'_>, t: &Term) -> Irreducible
    requires { math.Fits (view t.now) → ⊥ }
    ensures { JudgeAnswers sys.now (view t.now) (Answered result) }
{
    match t {
        Term::Var(_) => Irreducible::Yes,
        Term::Fun(_, _) => {
            if sys.rules().is_empty() {
                Irreducible::Yes
            } else {
                Irreducible::TooLarge
            }
        }
    }
}

// A term whose variables have renamed numbers in 32 bits.
fn judge_small(alloc: Global, sys: &PreparedSystem<'_>, t: &Term) -> Result<Irreducible, NoMemory>
    requires fits { math.Fits (view t.now) }
    requires small { (k : ℕ) → occurs k (view t.now) ≡ true → k < 2 ^ 31 }
    ensures { JudgeAnswers sys.now (view t.now) result }
{
    let apart = renamed(alloc, t, 2, 1)?;
    judge(alloc, sys, &apart)
}

// A term that fits, judged by one with small numbers for its variables.
fn judge_numbered(
    alloc: Global,
    sys: &PreparedSystem<'_>,
    t: &Term,
) -> Result<Irreducible, NoMemory>
    requires { math.Fits (view t.now) }
    ensures { JudgeAnswers sys.now (view t.now) result }
{
    let mut numbering = Numbering::new(alloc);
    let small = numbering.numbered(alloc, t)?;
    judge_small(alloc, sys, &small)
}

// Whether it fits or not.
fn judge_any(alloc: Global, sys: &PreparedSystem<'_>, t: &Term) -> Result<Irreducible, NoMemory>
    ensures { JudgeAnswers sys.now (view t.now) result }
{
    if !fits(t) {
        return Ok(judge_large(sys, t));
    }
    judge_numbered(alloc, sys, t)
}

/// Judges the subterms that are no variables in preorder, each with the rules in order; the first
/// run that does not end in a clash decides (Avenhaus and Loria-Saenz 1994).
#[tactic(auto, using(crate::proofs::Parts::judged_whole))]
pub fn is_absolutely_irreducible_in(
    alloc: Global,
    sys: &PreparedSystem<'_>,
    t: &Term,
) -> Result<Irreducible, NoMemory>
    ensures { IrreducibleAnswers sys.now (view t.now) result }
{
    judge_any(alloc, sys, t)
}

/// Judges a term alike, where nothing is prepared: the rules are renamed for this one question.
pub fn is_absolutely_irreducible(
    alloc: Global,
    sys: &System,
    t: &Term,
) -> Result<Irreducible, NoMemory>
    ensures { IrreducibleAnswers sys.now (view t.now) result }
{
    let indexed = IndexedSystem::new(alloc, sys)?;
    let prepared = PreparedSystem::new(alloc, indexed)?;
    is_absolutely_irreducible_in(alloc, &prepared, t)
}

/// Whether every run for the term ends in a clash; a run that passes the size does not.
pub fn do_all_clash(alloc: Global, sys: &PreparedSystem<'_>, t: &Term) -> Result<bool, NoMemory>
    ensures { IfOk result (λ b. IsTrue b ↔ DoAllClash sys.now (view t.now)) }
{
    match is_absolutely_irreducible_in(alloc, sys, t)? {
        Irreducible::Yes => Ok(true),
        Irreducible::No | Irreducible::TooLarge => Ok(false),
    }
}
