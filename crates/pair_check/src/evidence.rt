//! The evidence for an overlap, judged by its kind.
ghost use Rattle.unifier_run.specs.Overlaps.{IsOverlapOf};
ghost use Rattle.cert_model.specs.EvidenceView.{pair_evidence_view};
ghost use Rattle.critical_pairs.specs.View.{overlap_view};
ghost use Rattle.refuter.specs.Answers.{RefutesAnswers};
ghost use Rattle.infeasible.specs.Known.{IsKnown};
ghost use Rattle.valid_certificates.specs.PairEvidence.{IsTrivialJudged, IsEvidenceJudged, IsPairJudged};
ghost use Rattle.valid_certificates.specs.Entries.{IsPairShort};
ghost use Rattle.validity.specs.KindView.{kind_view};
ghost use Rattle.pair_check.specs.Judges.{IsReady};

use crate::conflict::judge_conflict;
use crate::derived::{judge_join, judge_unfeasible};
use cert_model::{EvidenceReason, PairEvidence};
use critical_pairs::Overlap;
use infeasible::JudgeByKind;
use prepared_system::PreparedSystem;
use refuter::Refusal;
use std::alloc::Global;
use term_core::equal;
use validity::{CertKind, allowed};

// That both sides are equal, at the root.
fn judge_trivial(overlap: &Overlap) -> Result<(), Refusal>
    ensures { RefutesAnswers (IsTrivialJudged (overlap_view overlap.now)) result }
{
    if !overlap.pos.is_empty() {
        return Err(Refusal::Reason(EvidenceReason::NotRoot));
    }
    if !equal(&overlap.left, &overlap.right) {
        return Err(Refusal::Reason(EvidenceReason::SidesDiffer));
    }
    Ok(())
}

// The same whatever the kind of the certificate.
fn judge_kind(
    alloc: Global,
    sys: &PreparedSystem<'_>,
    overlap: &Overlap,
    evidence: &PairEvidence,
    judge: &mut JudgeByKind,
) -> Result<(), Refusal>
    requires ready { IsReady (overlap_view overlap.now) }
    requires short { IsPairShort (pair_evidence_view evidence.now) }
    requires knows { IsKnown judge.old sys.now }
    ensures knows { IsKnown judge.new sys.now }
    ensures judged { RefutesAnswers (IsEvidenceJudged sys.now (overlap_view overlap.now) (pair_evidence_view evidence.now)) result }
{
    match evidence {
        PairEvidence::Trivial => judge_trivial(overlap),
        PairEvidence::Infeasible(inner) => judge.judge(alloc, sys.indexed(), &overlap.conds, inner),
        PairEvidence::Conflict { inner, outer } => {
            judge_conflict(alloc, sys.indexed(), overlap, *inner, *outer)
        }
        PairEvidence::Join { left, right } => judge_join(alloc, sys, overlap, left, right),
        PairEvidence::Unfeasible {
            cond,
            first,
            second,
        } => judge_unfeasible(alloc, sys, overlap, *cond, first, second),
    }
}

/// Judges the evidence for an overlap of the system, or tells the first reason why it is not valid. What certificates of
/// the kind may not give is not looked at; evidence that the conditions are never met is left to the judge.
pub fn judge_evidence(
    alloc: Global,
    sys: &PreparedSystem<'_>,
    kind: CertKind,
    overlap: &Overlap,
    evidence: &PairEvidence,
    judge: &mut JudgeByKind,
) -> Result<(), Refusal>
    requires overlap { IsOverlapOf sys.now (overlap_view overlap.now) }
    requires short { IsPairShort (pair_evidence_view evidence.now) }
    requires knows { IsKnown judge.old sys.now }
    ensures knows { IsKnown judge.new sys.now }
    ensures judged { RefutesAnswers (IsPairJudged (kind_view kind) sys.now (overlap_view overlap.now) (pair_evidence_view evidence.now)) result }
{
    if !allowed(kind, evidence) {
        return Err(Refusal::Reason(EvidenceReason::NotAllowed));
    }
    // The law tells that terms and conditions are small.
    sys.rules_are_sound();
    judge_kind(alloc, sys, overlap, evidence, judge)
}
