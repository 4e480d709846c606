//! Two conditions that ask for two results of one term: their left sides are equal, and the caps of their right sides clash.
ghost use Rattle.std.specs.Prelude.{◌≤◌, length, map};
ghost use Rattle.rewriting.specs.Terms as math;
ghost use Rattle.certificates.specs.Sizes.{DoConditionsFit};
ghost use Rattle.term_core.specs.Prelude.{view, condition_view};
ghost use Rattle.critical_pairs.specs.View.{overlap_view};
ghost use Rattle.refuter.specs.Answers.{RefutesAnswers};
ghost use Rattle.valid_certificates.specs.PairEvidence.{IsConflictJudged};
ghost use Rattle.pair_check.specs.Judges.{IsConflictOf};

use cert_model::{EvidenceReason, condition};
use critical_pairs::Overlap;
use refuter::Refusal;
use rule_index::IndexedSystem;
use std::alloc::Global;
use tcap_infeasible::{ComparedCaps, compare_caps};
use term_core::{Cond, equal};

// That two conditions have one left side, and right sides whose caps clash.
fn judge_conditions(
    alloc: Global,
    sys: &IndexedSystem,
    first: &Cond,
    second: &Cond,
) -> Result<(), Refusal>
    requires first { math.Fits (view first.now.right) }
    requires second { math.Fits (view second.now.right) }
    ensures { RefutesAnswers (IsConflictOf sys.now (condition_view first.now) (condition_view second.now)) result }
{
    if !equal(&first.left, &second.left) {
        return Err(Refusal::Reason(EvidenceReason::ConflictLeft));
    }
    match compare_caps(alloc, sys, &first.right, &second.right)? {
        ComparedCaps::Clash => Ok(()),
        ComparedCaps::Unify => Err(Refusal::Reason(EvidenceReason::ConflictUnifies)),
        ComparedCaps::TooLarge => Err(Refusal::Reason(EvidenceReason::ConflictLarge)),
    }
}

/// Judges that a condition of the inner and one of the outer rule, both numbered from 1, ask for two results of one term.
pub fn judge_conflict(
    alloc: Global,
    sys: &IndexedSystem,
    overlap: &Overlap,
    inner: u32,
    outer: u32,
) -> Result<(), Refusal>
    requires fit { DoConditionsFit (map condition_view overlap.now.conds.items) }
    requires counted { overlap.now.inner_conds ≤ length overlap.now.conds.items }
    ensures { RefutesAnswers (IsConflictJudged sys.now (overlap_view overlap.now) inner outer) result }
{
    let split = overlap.inner_conds as usize;
    let Some(first) = condition(&overlap.conds[..split], inner) else {
        return Err(Refusal::Reason(EvidenceReason::ConflictNumber));
    };
    let Some(second) = condition(&overlap.conds[split..], outer) else {
        return Err(Refusal::Reason(EvidenceReason::ConflictNumber));
    };
    judge_conditions(alloc, sys, first, second)
}
