//! What settles one overlap, in the order of trial: its conditions are never met, its sides join, or a condition is unfeasible.
ghost use Rattle.std.specs.Prelude.{ℕ};
ghost use Rattle.unifier_run.specs.Overlaps.{IsOverlapOf};
ghost use Rattle.critical_pairs.specs.View.{overlap_view};
ghost use Rattle.cc_count.specs.Counts.{Spends};
ghost use Rattle.first_found.specs.Items.{IsFirst, NoneGives};
ghost use Rattle.first_found.proofs.Items.{not_both};
ghost use Rattle.pair_search.specs.Answers.{WalkAnswers};
ghost use Rattle.pair_search.specs.Grown.{IsGrown};
ghost use Rattle.quasi_space.specs.QuasiItems.{quasi_item_cost, GivesQuasi, quasi_items};
ghost use Rattle.quasi_space.specs.Quasi.{items_cost, StopsAtQuasi};

use crate::joins::try_joins;
use crate::reducts::try_reducts;
use crate::refuting::try_refutings;
use cc_count::{Budget, Sought};
use cert_model::PairEvidence;
use critical_pairs::Overlap;
use pair_search::{Grown, OverlapTrial};
use prepared_system::PreparedSystem;
use std::alloc::Global;
use term_core::NoMemory;

/// Tries all items of the overlap in order, up to the first that gives valid evidence.
pub fn try_overlap(
    alloc: Global,
    sys: &PreparedSystem<'_>,
    overlap: &Overlap,
    budget: &mut Budget,
    grown: &mut Grown,
) -> Result<Sought<PairEvidence>, NoMemory>
    requires overlap { IsOverlapOf sys.now (overlap_view overlap.now) }
    requires knows { IsGrown grown.old sys.now }
    ensures answer { WalkAnswers quasi_item_cost (GivesQuasi sys.now (overlap_view overlap.now)) (quasi_items sys.now (overlap_view overlap.now)) budget.old budget.new result }
    ensures kept { (n : ℕ) × Spends budget.old n budget.new }
    ensures knows { IsGrown grown.new sys.now }
{
    match try_refutings(alloc, sys, overlap, budget, grown)? {
        Sought::Nothing => {}
        end => return Ok(end),
    }
    match try_joins(alloc, sys, overlap, budget)? {
        Sought::Nothing => try_reducts(alloc, sys, overlap, budget),
        end => Ok(end),
    }
}

/// What is tried for an overlap of a system with a measure.
pub(crate) struct QuasiTrial;

impl OverlapTrial for QuasiTrial {
    ghost first = { λ s o. IsFirst quasi_item_cost (GivesQuasi s o) (quasi_items s o) };

    ghost lacks = { λ s o. NoneGives (GivesQuasi s o) (quasi_items s o) };

    ghost whole = { items_cost };

    ghost stops = { StopsAtQuasi };

    ghost none_first = { λ s o e n. not_both (GivesQuasi s o) quasi_item_cost (quasi_items s o) e n };

    fn try_for(
        &self,
        alloc: Global,
        sys: &PreparedSystem<'_>,
        overlap: &Overlap,
        budget: &mut Budget,
        grown: &mut Grown,
    ) -> Result<Sought<PairEvidence>, NoMemory> {
        try_overlap(alloc, sys, overlap, budget, grown)
    }
}
