//! The items of one overlap, tried one after the other for a unit each, up to the first that gives valid evidence.
ghost use Rattle.std.specs.Prelude.{ℕ, ◌∷◌, [], map};
ghost use Rattle.unifier_run.specs.Overlaps.{IsOverlapOf};
ghost use Rattle.valid_certificates.specs.Kinds.{ortho};
ghost use Rattle.critical_pairs.specs.View.{overlap_view};
ghost use Rattle.cc_count.specs.Counts.{Spends};
ghost use Rattle.first_found.specs.Items.{IsFirst, NoneGives, one};
ghost use Rattle.first_found.proofs.Items.{not_both};
ghost use Rattle.search_spaces.specs.Entries.{overlap_cost, StopsAtOverlap};
ghost use Rattle.search_spaces.specs.PairItems.{GivesEvidence, ortho_items};
ghost use Rattle.pair_search.specs.Answers.{ItemAnswers, WalkAnswers};
ghost use Rattle.pair_search.specs.Grown.{IsGrown};
ghost use Rattle.ortho_search.specs.ItemView.{item_view};

use crate::items::{Item, items_of};
use cc_count::{Budget, Sought};
use cert_model::PairEvidence;
use critical_pairs::Overlap;
use pair_search::{Grown, OverlapTrial, judged, try_refuting};
use prepared_system::PreparedSystem;
use std::alloc::Global;
use term_core::NoMemory;
use validity::CertKind;

// The evidence that an item tries, where it is valid.
fn try_item(
    alloc: Global,
    sys: &PreparedSystem<'_>,
    overlap: &Overlap,
    item: Item,
    grown: &mut Grown,
) -> Result<Option<PairEvidence>, NoMemory>
    requires overlap { IsOverlapOf sys.now (overlap_view overlap.now) }
    requires knows { IsGrown grown.old sys.now }
    ensures answer { ItemAnswers ortho sys.now (overlap_view overlap.now) (item_view item) result }
    ensures knows { IsGrown grown.new sys.now }
{
    match item {
        Item::Trivial => judged(alloc, sys, CertKind::Ortho, overlap, PairEvidence::Trivial),
        Item::Conflict { inner, outer } => {
            let evidence = PairEvidence::Conflict { inner, outer };
            judged(alloc, sys, CertKind::Ortho, overlap, evidence)
        }
        Item::Infeasible(refuting) => {
            try_refuting(alloc, sys, CertKind::Ortho, overlap, refuting, grown)
        }
    }
}

// Tries one item, for a unit.
fn try_one(
    alloc: Global,
    sys: &PreparedSystem<'_>,
    overlap: &Overlap,
    item: Item,
    budget: &mut Budget,
    grown: &mut Grown,
) -> Result<Sought<PairEvidence>, NoMemory>
    requires overlap { IsOverlapOf sys.now (overlap_view overlap.now) }
    requires knows { IsGrown grown.old sys.now }
    ensures answer { WalkAnswers one (GivesEvidence ortho sys.now (overlap_view overlap.now)) (item_view item ∷ []) budget.old budget.new result }
    ensures kept { (n : ℕ) × Spends budget.old n budget.new }
    ensures knows { IsGrown grown.new sys.now }
{
    if !budget.take() {
        return Ok(Sought::Spent);
    }
    match try_item(alloc, sys, overlap, item, grown)? {
        Some(evidence) => Ok(Sought::Found(evidence)),
        None => Ok(Sought::Nothing),
    }
}

// Tries the items in order, up to the first that gives valid evidence.
fn try_items(
    alloc: Global,
    sys: &PreparedSystem<'_>,
    overlap: &Overlap,
    items: &[Item],
    budget: &mut Budget,
    grown: &mut Grown,
) -> Result<Sought<PairEvidence>, NoMemory>
    requires overlap { IsOverlapOf sys.now (overlap_view overlap.now) }
    requires knows { IsGrown grown.old sys.now }
    ensures answer { WalkAnswers one (GivesEvidence ortho sys.now (overlap_view overlap.now)) (map item_view items.now) budget.old budget.new result }
    ensures kept { (n : ℕ) × Spends budget.old n budget.new }
    ensures knows { IsGrown grown.new sys.now }
{
    'items: for item in items {
        match try_one(alloc, sys, overlap, *item, budget, grown)? {
            Sought::Nothing => {}
            end => return Ok(end),
        }
    }
    Ok(Sought::Nothing)
}

/// Tries all items of the overlap in order, a unit each, up to the first that gives valid evidence.
pub fn try_overlap(
    alloc: Global,
    sys: &PreparedSystem<'_>,
    overlap: &Overlap,
    budget: &mut Budget,
    grown: &mut Grown,
) -> Result<Sought<PairEvidence>, NoMemory>
    requires overlap { IsOverlapOf sys.now (overlap_view overlap.now) }
    requires knows { IsGrown grown.old sys.now }
    ensures answer { WalkAnswers one (GivesEvidence ortho sys.now (overlap_view overlap.now)) (ortho_items (overlap_view overlap.now)) budget.old budget.new result }
    ensures kept { (n : ℕ) × Spends budget.old n budget.new }
    ensures knows { IsGrown grown.new sys.now }
{
    // The law tells that conditions are few.
    sys.rules_are_sound();
    let inner_count = overlap.inner_conds;
    let outer_count = overlap.conds.len() as u32 - inner_count;
    let items = items_of(alloc, inner_count, outer_count)?;
    try_items(alloc, sys, overlap, &items, budget, grown)
}

/// What is tried for an overlap of an almost orthogonal system.
pub(crate) struct OrthoTrial;

impl OverlapTrial for OrthoTrial {
    ghost first = { λ s o. IsFirst one (GivesEvidence ortho s o) (ortho_items o) };

    ghost lacks = { λ s o. NoneGives (GivesEvidence ortho s o) (ortho_items o) };

    ghost whole = { λ s. overlap_cost ortho_items };

    ghost stops = { λ s. StopsAtOverlap ortho s ortho_items };

    ghost none_first = { λ s o e n. not_both (GivesEvidence ortho s o) one (ortho_items o) e n };

    fn try_for(
        &self,
        alloc: Global,
        sys: &PreparedSystem<'_>,
        overlap: &Overlap,
        budget: &mut Budget,
        grown: &mut Grown,
    ) -> Result<Sought<PairEvidence>, NoMemory> {
        try_overlap(alloc, sys, overlap, budget, grown)
    }
}
