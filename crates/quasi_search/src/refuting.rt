//! That the conditions of an overlap are never met, tried in order: by caps, then by the automata that grow from conditions.
ghost use Rattle.std.specs.Prelude.{ℕ, ◌∷◌, [], length};
ghost use Rattle.unifier_run.specs.Overlaps.{IsOverlapOf};
ghost use Rattle.critical_pairs.specs.View.{overlap_view};
ghost use Rattle.cc_count.specs.Counts.{Spends};
ghost use Rattle.evidence_offers.specs.RefutingView.{refuting_view};
ghost use Rattle.pair_search.specs.Answers.{WalkAnswers};
ghost use Rattle.pair_search.specs.Grown.{IsGrown};
ghost use Rattle.quasi_space.specs.QuasiItems.{try_refuting as refuting_item, quasi_item_cost, GivesQuasi, refuting_items};

use cc_count::{Budget, Sought};
use cert_model::PairEvidence;
use critical_pairs::Overlap;
use evidence_offers::Refuting;
use pair_check::CertKind;
use pair_search::{Grown, try_refuting};
use prepared_system::PreparedSystem;
use std::alloc::Global;
use term_core::NoMemory;

// Tries one way, for a unit.
fn try_way(
    alloc: Global,
    sys: &PreparedSystem<'_>,
    overlap: &Overlap,
    refuting: Refuting,
    budget: &mut Budget,
    grown: &mut Grown,
) -> Result<Sought<PairEvidence>, NoMemory>
    requires overlap { IsOverlapOf sys.now (overlap_view overlap.now) }
    requires knows { IsGrown grown.old sys.now }
    ensures answer { WalkAnswers quasi_item_cost (GivesQuasi sys.now (overlap_view overlap.now)) (refuting_item (refuting_view refuting) ∷ []) budget.old budget.new result }
    ensures kept { (n : ℕ) × Spends budget.old n budget.new }
    ensures knows { IsGrown grown.new sys.now }
{
    if !budget.take() {
        return Ok(Sought::Spent);
    }
    match try_refuting(alloc, sys, CertKind::Quasi, overlap, refuting, grown)? {
        Some(evidence) => Ok(Sought::Found(evidence)),
        None => Ok(Sought::Nothing),
    }
}

/// Tries caps, then the automata that grow from conditions.
pub fn try_refutings(
    alloc: Global,
    sys: &PreparedSystem<'_>,
    overlap: &Overlap,
    budget: &mut Budget,
    grown: &mut Grown,
) -> Result<Sought<PairEvidence>, NoMemory>
    requires overlap { IsOverlapOf sys.now (overlap_view overlap.now) }
    requires knows { IsGrown grown.old sys.now }
    ensures answer { WalkAnswers quasi_item_cost (GivesQuasi sys.now (overlap_view overlap.now)) (refuting_items (length (overlap_view overlap.now).pair.conditions)) budget.old budget.new result }
    ensures kept { (n : ℕ) × Spends budget.old n budget.new }
    ensures knows { IsGrown grown.new sys.now }
{
    // The law tells that conditions are few.
    sys.rules_are_sound();
    match try_way(alloc, sys, overlap, Refuting::Caps, budget, grown)? {
        Sought::Nothing => {}
        end => return Ok(end),
    }
    let count = overlap.conds.len() as u32;
    'growths: for before in 0..count {
        let growth = Refuting::Growth { cond: before + 1 };
        match try_way(alloc, sys, overlap, growth, budget, grown)? {
            Sought::Nothing => {}
            end => return Ok(end),
        }
    }
    Ok(Sought::Nothing)
}
