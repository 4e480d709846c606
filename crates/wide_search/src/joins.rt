//! Joins of overlaps by lists of eight steps.
ghost use Rattle.std.specs.Prelude.{IfOk, IfSome};
ghost use Rattle.rewriting.specs.Terms as math;
ghost use Rattle.unifier_run.specs.Overlaps.{IsOverlapOf};
ghost use Rattle.critical_pairs.specs.View.{overlap_view};
ghost use Rattle.reach_lists.specs.Laws.{IsWithoutRepetition};
ghost use Rattle.reach.specs.EntryView.{table_view};
ghost use Rattle.reach.specs.Parts.{DoAllFit};
ghost use Rattle.term_core.specs.View.{view};

use crate::listed::{COND_DEPTH, STEPS};
use cc_count::{Budget, Sought};
use cert_model::PairEvidence;
use critical_pairs::Overlap;
use prepared_system::PreparedSystem;
use quasi_search::{Extent, listed_within, try_shared};
use reach::Entry;
use std::alloc::Global;
use term_core::{NoMemory, Term};

// The terms that a term leads to with the conditions of an overlap as hypotheses; none where the budget is spent before.
fn listed_under(
    alloc: Global,
    sys: &PreparedSystem<'_>,
    overlap: &Overlap,
    start: &Term,
    budget: &mut Budget,
) -> Result<Option<Vec<Entry>>, NoMemory>
    requires overlap { IsOverlapOf sys.now (overlap_view overlap.now) }
    requires start { math.Fits (view start.now) }
    ensures fit { IfOk result (λ o. IfSome o (λ list. DoAllFit (table_view list.items))) }
    ensures once { IfOk result (λ o. IfSome o (λ list. IsWithoutRepetition (table_view list.items))) }
{
    let extent = Extent {
        steps: STEPS,
        cond_depth: COND_DEPTH,
    };
    listed_within(alloc, sys, overlap, start, extent, budget)
}

/// Lists the terms that either side leads to, and takes the first shared one.
pub(crate) fn try_joins(
    alloc: Global,
    sys: &PreparedSystem<'_>,
    overlap: &Overlap,
    budget: &mut Budget,
) -> Result<Sought<PairEvidence>, NoMemory>
    requires overlap { IsOverlapOf sys.now (overlap_view overlap.now) }
{
    let Some(left) = listed_under(alloc, sys, overlap, &overlap.left, budget)? else {
        return Ok(Sought::Spent);
    };
    let Some(right) = listed_under(alloc, sys, overlap, &overlap.right, budget)? else {
        return Ok(Sought::Spent);
    };
    try_shared(alloc, &left, &right)
}
