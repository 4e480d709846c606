//! Derivations under the conditions of an overlap: its sides derive one term, or a condition's left side two irreducible ones that do not unify.
ghost use Rattle.std.specs.Prelude.{◌≡◌, map};
ghost use Rattle.rewriting.specs.Terms as math;
ghost use Rattle.certificates.specs.Prelude.{DoConditionsFit, IsShort};
ghost use Rattle.term_core.specs.Prelude.{view, condition_view};
ghost use Rattle.cert_model.specs.DerivationView.{derivation_view};
ghost use Rattle.cert_model.specs.ReasonView.{bad_step_view, evidence_reason_view};
ghost use Rattle.critical_pairs.specs.View.{overlap_view};
ghost use Rattle.refuter.specs.Answers.{RefutesAnswers};
ghost use Rattle.valid_certificates.specs.PairEvidence.{IsJoinJudged, IsUnfeasibleJudged};
ghost use Rattle.pair_check.specs.Judges.{EndAnswers, AreIrreducibleApart};
ghost use Rattle.pair_check.specs.WhichView.{made_of};

use cert_model::{BadStep, Derivation, EvidenceReason, condition};
use critical_pairs::Overlap;
use derivation::{ReplayError, replay};
use irreducible::do_all_clash;
use prepared_system::PreparedSystem;
use refuter::Refusal;
use std::alloc::Global;
use term_core::{Term, equal};
use unification::{Unified, unify_terms};

/// Which derivation of an overlap's evidence it is: from its left or its right side, or the first or the second from a condition's left side.
#[derive(Clone, Copy)]
pub enum Which {
    Left,
    Right,
    First,
    Second,
}

// Why the derivation is bad, which has a bad step.
fn reason_of(which: Which, bad: BadStep) -> EvidenceReason
    ensures { evidence_reason_view result ≡ made_of which (bad_step_view bad) }
{
    match which {
        Which::Left => EvidenceReason::JoinLeft(bad),
        Which::Right => EvidenceReason::JoinRight(bad),
        Which::First => EvidenceReason::UnfeasibleFirst(bad),
        Which::Second => EvidenceReason::UnfeasibleSecond(bad),
    }
}

// The end of the derivation from the term.
fn end_of(
    alloc: Global,
    sys: &PreparedSystem<'_>,
    overlap: &Overlap,
    start: &Term,
    d: &Derivation,
    which: Which,
) -> Result<Term, Refusal>
    requires start { math.Fits (view start.now) }
    requires fit { DoConditionsFit (map condition_view overlap.now.conds.items) }
    requires short { IsShort (derivation_view d.now) }
    ensures { EndAnswers sys.now (map condition_view overlap.now.conds.items) (view start.now) (derivation_view d.now) (made_of which) result }
{
    match replay(alloc, sys.system(), &overlap.conds, start, d) {
        Ok(end) => Ok(end),
        Err(ReplayError::Bad(bad)) => Err(Refusal::Reason(reason_of(which, bad))),
        Err(ReplayError::NoMemory) => Err(Refusal::NoMemory),
    }
}

/// Judges that both sides of an overlap derive one term.
pub fn judge_join(
    alloc: Global,
    sys: &PreparedSystem<'_>,
    overlap: &Overlap,
    left: &Derivation,
    right: &Derivation,
) -> Result<(), Refusal>
    requires left { math.Fits (view overlap.now.left) }
    requires right { math.Fits (view overlap.now.right) }
    requires fit { DoConditionsFit (map condition_view overlap.now.conds.items) }
    requires left_short { IsShort (derivation_view left.now) }
    requires right_short { IsShort (derivation_view right.now) }
    ensures { RefutesAnswers (IsJoinJudged sys.now (overlap_view overlap.now) (derivation_view left.now) (derivation_view right.now)) result }
{
    let first = end_of(alloc, sys, overlap, &overlap.left, left, Which::Left)?;
    let second = end_of(alloc, sys, overlap, &overlap.right, right, Which::Right)?;
    if equal(&first, &second) {
        Ok(())
    } else {
        Err(Refusal::Reason(EvidenceReason::JoinDiffers))
    }
}

// That two terms are absolutely irreducible and do not unify.
fn judge_ends(alloc: Global, sys: &PreparedSystem<'_>, u: &Term, v: &Term) -> Result<(), Refusal>
    ensures { RefutesAnswers (AreIrreducibleApart sys.now (view u.now) (view v.now)) result }
{
    if !do_all_clash(alloc, sys, u)? {
        return Err(Refusal::Reason(EvidenceReason::FirstReducible));
    }
    if !do_all_clash(alloc, sys, v)? {
        return Err(Refusal::Reason(EvidenceReason::SecondReducible));
    }
    match unify_terms(alloc, u, v)? {
        Unified::Clash => Ok(()),
        Unified::Mgu(_) => Err(Refusal::Reason(EvidenceReason::UnfeasibleUnifies)),
        Unified::TooLarge => Err(Refusal::Reason(EvidenceReason::UnfeasibleLarge)),
    }
}

/// Judges that the left side of a condition, numbered from 1, derives two irreducible terms that do not unify.
pub fn judge_unfeasible(
    alloc: Global,
    sys: &PreparedSystem<'_>,
    overlap: &Overlap,
    number: u32,
    first: &Derivation,
    second: &Derivation,
) -> Result<(), Refusal>
    requires fit { DoConditionsFit (map condition_view overlap.now.conds.items) }
    requires first_short { IsShort (derivation_view first.now) }
    requires second_short { IsShort (derivation_view second.now) }
    ensures { RefutesAnswers (IsUnfeasibleJudged sys.now (overlap_view overlap.now) number (derivation_view first.now) (derivation_view second.now)) result }
{
    let Some(cond) = condition(&overlap.conds, number) else {
        return Err(Refusal::Reason(EvidenceReason::UnfeasibleNumber));
    };
    let one = end_of(alloc, sys, overlap, &cond.left, first, Which::First)?;
    let other = end_of(alloc, sys, overlap, &cond.left, second, Which::Second)?;
    judge_ends(alloc, sys, &one, &other)
}
