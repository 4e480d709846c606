//! Evidence for an overlap, given back where it is valid in a certificate of the kind.
ghost use Rattle.unifier_run.specs.Overlaps.{IsOverlapOf};
ghost use Rattle.valid_certificates.specs.Entries.{IsPairShort};
ghost use Rattle.validity.specs.KindView.{kind_view};
ghost use Rattle.cert_model.specs.EvidenceView.{pair_evidence_view};
ghost use Rattle.critical_pairs.specs.View.{overlap_view};
ghost use Rattle.search_spaces.specs.PairItems as spaces;
ghost use Rattle.evidence_offers.specs.RefutingView.{refuting_view};
ghost use Rattle.pair_search.specs.Answers.{JudgedAnswers, ItemAnswers};
ghost use Rattle.pair_search.specs.Grown.{IsGrown};

use crate::grown::Grown;
use cert_model::{InfEvidence, PairEvidence};
use critical_pairs::Overlap;
use evidence_offers::Refuting;
use infeasible::JudgeByKind;
use pair_check::{CertKind, Refusal, judge_evidence};
use prepared_system::PreparedSystem;
use std::alloc::Global;
use term_core::NoMemory;

/// The evidence, where it is valid in a certificate of the kind.
pub fn judged(
    alloc: Global,
    sys: &PreparedSystem<'_>,
    kind: CertKind,
    overlap: &Overlap,
    evidence: PairEvidence,
) -> Result<Option<PairEvidence>, NoMemory>
    requires overlap { IsOverlapOf sys.now (overlap_view overlap.now) }
    requires short { IsPairShort (pair_evidence_view evidence) }
    ensures { JudgedAnswers (kind_view kind) sys.now (overlap_view overlap.now) (pair_evidence_view evidence) result }
{
    let mut judge = JudgeByKind::new();
    match judge_evidence(alloc, sys, kind, overlap, &evidence, &mut judge) {
        Ok(()) => Ok(Some(evidence)),
        Err(Refusal::Reason(_)) => Ok(None),
        Err(Refusal::NoMemory) => Err(NoMemory),
    }
}

/// The evidence that the conditions are never met, where it is valid in a certificate of the kind. What grows from a condition
/// is remembered.
pub fn try_refuting(
    alloc: Global,
    sys: &PreparedSystem<'_>,
    kind: CertKind,
    overlap: &Overlap,
    refuting: Refuting,
    grown: &mut Grown,
) -> Result<Option<PairEvidence>, NoMemory>
    requires overlap { IsOverlapOf sys.now (overlap_view overlap.now) }
    requires knows { IsGrown grown.old sys.now }
    ensures answer { ItemAnswers (kind_view kind) sys.now (overlap_view overlap.now) (spaces.try_refuting (refuting_view refuting)) result }
    ensures knows { IsGrown grown.new sys.now }
{
    match refuting {
        Refuting::Caps => {
            let evidence = PairEvidence::Infeasible(InfEvidence::Tcap);
            judged(alloc, sys, kind, overlap, evidence)
        }
        Refuting::Growth { cond } => grown.grow(alloc, sys, overlap, cond),
    }
}
