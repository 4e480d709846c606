//! The unifiers and overlaps of two rules of a prepared system.
ghost use Rattle.std.specs.Prelude.{◌≡◌};
ghost use Rattle.rewriting.specs.Systems.{IsSystem};
ghost use Rattle.term_core.specs.RuleView.{rule_view};
ghost use Rattle.critical_pairs.specs.Spots.{IsSpotOf, AreRulesAt, IsUnifierAt, UnifierAnswers, MadeAnswers, IsRefusal};
ghost use Rattle.critical_pairs.specs.View.{overlap_view};
ghost use Rattle.unifier_run.specs.Overlaps as math;

use crate::fitting::does_pair_fit;
use crate::pairs::{Triple, copy, pair};
use crate::{Overlap, OverlapError};
use prepared_system::PreparedSystem;
use std::alloc::Global;
use term_core::{Rule, Subst, TermError, subterm};
use unification::{Unified, unify_terms};

fn too_large(alloc: Global, triple: &Triple) -> OverlapError
    ensures { IsRefusal triple.now.inner triple.now.pos.now triple.now.outer result }
{
    match copy(alloc, triple.pos) {
        Ok(pos) => OverlapError::PairTooLarge {
            inner: triple.inner,
            pos,
            outer: triple.outer,
        },
        Err(_) => OverlapError::NoMemory,
    }
}

// The inner and the outer rule of a triple, renamed apart.
fn rules_at<'a>(sys: &'a PreparedSystem<'_>, triple: &Triple) -> (&'a Rule, &'a Rule)
    requires { IsSpotOf sys.now triple.now.inner triple.now.pos.now triple.now.outer }
    ensures renamed { AreRulesAt sys.now triple.now.inner triple.now.pos.now triple.now.outer (rule_view result.0.now) (rule_view result.1.now) }
    ensures sound { IsSystem sys.now }
{
    let inner = &sys.inner_rules()[triple.inner as usize - 1];
    let outer = &sys.outer_rules()[triple.outer as usize - 1];
    (inner, outer)
}

/// The unifier of the run at a triple, none where it clashes, or the refusal of one that passes the size.
pub fn unifier_at(
    alloc: Global,
    sys: &PreparedSystem<'_>,
    triple: &Triple,
) -> Result<Option<Subst>, OverlapError>
    requires { IsSpotOf sys.now triple.now.inner triple.now.pos.now triple.now.outer }
    ensures { UnifierAnswers sys.now triple.now.inner triple.now.pos.now triple.now.outer result }
{
    let (inner, outer) = rules_at(sys, triple);
    // The renamed left side has the positions of the rule's.
    let Some(part) = subterm(&outer.left, triple.pos) else {
        unreachable!();
    };
    match unify_terms(alloc, &inner.left, part)? {
        Unified::Clash => Ok(None),
        Unified::TooLarge => Err(too_large(alloc, triple)),
        Unified::Mgu(m) => Ok(Some(m)),
    }
}

/// What is made at a triple by the unifier of its run.
pub trait Made: Drop {
    /// Whether it is made of the overlap.
    ghost is_of: { Self → math.Overlap → Type 0 };

    /// Makes it, or refuses an overlap that does not fit.
    fn make_by(
        alloc: Global,
        sys: &PreparedSystem<'_>,
        m: &Subst,
        triple: &Triple,
    ) -> Result<Self, OverlapError>
        requires { IsUnifierAt sys.now triple.now.inner triple.now.pos.now triple.now.outer m.now }
        ensures { MadeAnswers is_of sys.now triple.now.inner triple.now.pos.now triple.now.outer result };
}

impl Made for Overlap {
    ghost is_of = { λ made o. overlap_view made ≡ o };

    fn make_by(
        alloc: Global,
        sys: &PreparedSystem<'_>,
        m: &Subst,
        triple: &Triple,
    ) -> Result<Overlap, OverlapError> {
        let (inner, outer) = rules_at(sys, triple);
        match pair(alloc, m, inner, outer, triple) {
            Ok(overlap) => Ok(overlap),
            Err(TermError::TooLarge) => Err(too_large(alloc, triple)),
            Err(TermError::NoPosition) => unreachable!(),
            Err(TermError::NoMemory) => Err(OverlapError::NoMemory),
        }
    }
}

/// Only measures the overlap.
impl Made for () {
    ghost is_of = { λ _ _. Unit {0} };

    fn make_by(
        alloc: Global,
        sys: &PreparedSystem<'_>,
        m: &Subst,
        triple: &Triple,
    ) -> Result<(), OverlapError> {
        let (inner, outer) = rules_at(sys, triple);
        if does_pair_fit(m, inner, outer, triple.pos) {
            Ok(())
        } else {
            Err(too_large(alloc, triple))
        }
    }
}
