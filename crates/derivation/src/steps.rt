//! The term after a single step: the contraction of a redex, or the use of a hypothesis.
ghost use Rattle.std.specs.Prelude.{◌≡◌, [], Some, IfSome, IfNone, map};
ghost use Rattle.rewriting.specs.Terms as math;
ghost use Rattle.rewriting.specs.Positions as position;
ghost use Rattle.certificates.specs.Prelude.{HypothesisStep, HypothesisFails, DoConditionsFit};
ghost use Rattle.term_core.specs.Prelude.{view, condition_view};
ghost use Rattle.derivation.specs.Errors.{Judged};
ghost use Rattle.derivation.specs.Judged.{IsCounted, HasSizeAt, IsContracted, HasNoContractum};

use crate::errors::{ReplayError, here};
use crate::instances::contractum;
use crate::places::{Counted, replaced};
use cert_model::{StepReason, condition};
use std::alloc::Global;
use term_core::{Cond, Subst, Term, equal, size, subterm, try_clone};

// The term with the instance of a right side at a position, where a single node is now.
pub fn contracted(
    alloc: Global,
    right: &Term,
    values: Subst,
    t: Counted,
    p: &[u32],
) -> Result<Counted, ReplayError>
    requires right { math.Fits (view right.now) }
    requires counted { IsCounted t }
    requires there { HasSizeAt (view t.term) p.now 1 }
    ensures { Judged (λ u. IsContracted (view right.now) values (view t.term) p.now (view u.term) × IsCounted u) (λ path reason. (path ≡ []) × HasNoContractum (view right.now) values (view t.term) p.now reason) result }
{
    let part = contractum(alloc, values, right)?;
    match replaced(t, p, 1, part) {
        Some(u) => Ok(u),
        None => Err(here(alloc, StepReason::TooLarge)),
    }
}

// The number of nodes of a term, where it stands at a position.
fn nodes_where(t: &Term, p: &[u32], left: &Term) -> Option<u32>
    requires { math.Fits (view t.now) }
    ensures some { IfSome result (λ n. (position.subterm (view t.now) p.now ≡ Some (view left.now)) × (math.size (view left.now) ≡ n)) }
    ensures none { IfNone result (position.subterm (view t.now) p.now ≡ Some (view left.now) → ⊥) }
{
    let part = subterm(t, p)?;
    if !equal(part, left) {
        return None;
    }
    Some(size(part))
}

// The term after a step by a hypothesis.
pub fn by_hypothesis(
    alloc: Global,
    hyps: &[Cond],
    t: Counted,
    number: u32,
    p: &[u32],
) -> Result<Counted, ReplayError>
    requires hypotheses { DoConditionsFit (map condition_view hyps.now) }
    requires counted { IsCounted t }
    ensures { Judged (λ u. HypothesisStep (map condition_view hyps.now) (view t.term) number p.now (view u.term) × IsCounted u) (λ path reason. (path ≡ []) × HypothesisFails (map condition_view hyps.now) (view t.term) number p.now reason) result }
{
    let Some(h) = condition(hyps, number) else {
        return Err(here(alloc, StepReason::NoSuchHypothesis));
    };
    let Some(was) = nodes_where(&t.term, p, &h.left) else {
        return Err(here(alloc, StepReason::NoRedex));
    };
    let part = try_clone(alloc, &h.right)?;
    match replaced(t, p, was, part) {
        Some(u) => Ok(u),
        None => Err(here(alloc, StepReason::TooLarge)),
    }
}
