//! The entries of a certificate, one for each overlap with its first evidence; an overlap that lacks evidence ends the walk.
ghost use Rattle.std.specs.Prelude.{ℕ, ◌≡◌, ◌++◌, ◌∷◌, [], OnOk, map};
ghost use Rattle.rewriting.specs.Rules as rules;
ghost use Rattle.unifier_run.specs.Overlaps as math;
ghost use Rattle.certificates.specs.Evidence as evidence;
ghost use Rattle.cert_model.specs.CertificateView.{pair_entry_view};
ghost use Rattle.cert_model.specs.EvidenceView.{pair_evidence_view};
ghost use Rattle.critical_pairs.specs.View.{overlap_view};
ghost use Rattle.pair_check.specs.Walk.{EachIsOverlap};
ghost use Rattle.cc_count.specs.Counts.{Spends};
ghost use Rattle.search_spaces.specs.Entries.{entry_for};
ghost use Rattle.pair_search.specs.Answers.{OverlapAnswers, HasFirst, EntriesAnswers};
ghost use Rattle.pair_search.specs.Grown.{IsGrown};

use crate::grown::Grown;
use cc_count::{Budget, Sought};
use cert_model::{PairEntry, PairEvidence, copy_numbers};
use critical_pairs::Overlap;
use prepared_system::PreparedSystem;
use std::alloc::Global;
use term_core::NoMemory;

/// Puts the entry for an overlap last.
pub fn add_entry(
    alloc: Global,
    entries: &mut Vec<PairEntry>,
    overlap: &Overlap,
    evidence: PairEvidence,
) -> Result<(), NoMemory>
    ensures { OnOk result (map pair_entry_view entries.new.items ≡ map pair_entry_view entries.old.items ++ entry_for (overlap_view overlap.now) (pair_evidence_view evidence) ∷ []) }
{
    let pos = copy_numbers(alloc, &overlap.pos)?;
    entries.push(PairEntry {
        inner: overlap.inner,
        pos,
        outer: overlap.outer,
        evidence,
    })?;
    Ok(())
}

/// What is tried for an overlap.
pub trait OverlapTrial {
    /// The first evidence for an overlap of a system, at its cost.
    ghost first: { rules.System → math.Overlap → evidence.PairEvidence → ℕ → Type 0 };

    /// Nothing that is tried is evidence.
    ghost lacks: { rules.System → math.Overlap → Type 0 };

    /// What all that is tried costs.
    ghost whole: { rules.System → math.Overlap → ℕ };

    /// The trial stops where the next thing cannot be paid.
    ghost stops: { rules.System → math.Overlap → ℕ → Type 0 };

    /// Tries all in order, up to the first evidence.
    fn try_for(
        &self,
        alloc: Global,
        sys: &PreparedSystem<'_>,
        overlap: &Overlap,
        budget: &mut Budget,
        grown: &mut Grown,
    ) -> Result<Sought<PairEvidence>, NoMemory>
        requires overlap { math.IsOverlapOf sys.now (overlap_view overlap.now) }
        requires knows { IsGrown grown.old sys.now }
        ensures answer { OverlapAnswers (first sys.now (overlap_view overlap.now)) (lacks sys.now (overlap_view overlap.now)) (whole sys.now (overlap_view overlap.now)) (stops sys.now (overlap_view overlap.now)) budget.old budget.new result }
        ensures kept { (n : ℕ) × Spends budget.old n budget.new }
        ensures knows { IsGrown grown.new sys.now };

    /// An overlap that lacks evidence has no first.
    ghost none_first: { (s : rules.System) (o : math.Overlap) (e : evidence.PairEvidence) (n : ℕ) → lacks s o → first s o e n → ⊥ };
}

/// For each overlap, in order, the first evidence; at the first that lacks it the walk ends.
pub fn entries_for<T: OverlapTrial>(
    alloc: Global,
    sys: &PreparedSystem<'_>,
    overlaps: &[Overlap],
    trial: &T,
    budget: &mut Budget,
) -> Result<Sought<Vec<PairEntry>>, NoMemory>
    requires overlaps { EachIsOverlap sys.now (map overlap_view overlaps.now) }
    ensures answer { EntriesAnswers (HasFirst (T.first sys.now)) (T.whole sys.now) (T.stops sys.now) (map overlap_view overlaps.now) budget.old budget.new result }
    ensures kept { (n : ℕ) × Spends budget.old n budget.new }
{
    let mut entries = Vec::new(alloc);
    let mut grown = Grown::new();
    'rows: for overlap in overlaps {
        match trial.try_for(alloc, sys, overlap, budget, &mut grown)? {
            Sought::Found(evidence) => add_entry(alloc, &mut entries, overlap, evidence)?,
            Sought::Nothing => return Ok(Sought::Nothing),
            Sought::Spent => return Ok(Sought::Spent),
        }
    }
    Ok(Sought::Found(entries))
}
