//! The runs by which a term is judged: each of its parts that is no variable against the left sides with the same root.
ghost use Rattle.std.specs.Prelude.{◌≡◌, true};
ghost use Rattle.rewriting.specs.Terms as math;
ghost use Rattle.rewriting.specs.Prelude.{apply, odd};
ghost use Rattle.rule_index.specs.Roots.{has_root};
ghost use Rattle.term_core.specs.View.{view};
ghost use Rattle.irreducible.specs.Judging.{RootAnswers, JudgeAnswers};

use crate::Irreducible;
use prepared_system::PreparedSystem;
use std::alloc::Global;
use term_core::{NoMemory, Term};
use unification::{Unified, unify_terms};

// The rules with the root symbol in order, tried on the whole term; the runs of all others clash at once.
fn judge_root(
    alloc: Global,
    sys: &PreparedSystem<'_>,
    f: u32,
    part: &Term,
) -> Result<Irreducible, NoMemory>
    requires fits { math.Fits (view part.now) }
    requires root { has_root f (view part.now) ≡ true }
    ensures { (s : math.Term) → view part.now ≡ apply odd s → RootAnswers sys.now s result }
{
    let inners = sys.inner_rules();
    for number in sys.indexed().with_root(f) {
        let inner = &inners[*number as usize - 1];
        match unify_terms(alloc, &inner.left, part)? {
            Unified::Clash => {}
            Unified::Mgu(_) => return Ok(Irreducible::No),
            Unified::TooLarge => return Ok(Irreducible::TooLarge),
        }
    }
    Ok(Irreducible::Yes)
}

/// The subterms that are no variables in preorder, each with the rules in order.
pub fn judge(alloc: Global, sys: &PreparedSystem<'_>, part: &Term) -> Result<Irreducible, NoMemory>
    requires { math.Fits (view part.now) }
    ensures { (s : math.Term) → view part.now ≡ apply odd s → JudgeAnswers sys.now s result }
{
    match part {
        Term::Var(_) => Ok(Irreducible::Yes),
        Term::Fun(f, args) => {
            match judge_root(alloc, sys, *f, part)? {
                Irreducible::Yes => {}
                other => return Ok(other),
            }
            for arg in args {
                match judge(alloc, sys, arg)? {
                    Irreducible::Yes => {}
                    other => return Ok(other),
                }
            }
            Ok(Irreducible::Yes)
        }
    }
}
