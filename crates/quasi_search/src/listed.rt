//! Terms that a term leads to under the conditions of an overlap, which are taken as hypotheses.
ghost use Rattle.std.specs.Prelude.{ℕ, IfOk, IfSome};
ghost use Rattle.rewriting.specs.Terms as math;
ghost use Rattle.unifier_run.specs.Overlaps.{IsOverlapOf};
ghost use Rattle.term_core.specs.View.{view};
ghost use Rattle.critical_pairs.specs.View.{overlap_view};
ghost use Rattle.cc_count.specs.Counts.{Spends};
ghost use Rattle.reach_lists.specs.Laws.{IsWithoutRepetition};
ghost use Rattle.reach.specs.EntryView.{table_view};
ghost use Rattle.reach.specs.Parts.{DoAllFit};
ghost use Rattle.quasi_search.specs.Listed.{ReachedAnswers, ListedAnswers};

use cc_count::Budget;
use critical_pairs::Overlap;
use flatterm::Work;
use prepared_system::PreparedSystem;
use reach::{Entry, ReachStop, reach_in};
use search_spaces::{COND_DEPTH, STEPS};
use std::alloc::Global;
use term_core::{NoMemory, Term};

/// How far lists of reached terms go: how many steps, and how deep lists for conditions are nested.
#[derive(Clone, Copy)]
pub struct Extent {
    pub steps: u32,
    pub cond_depth: u32,
}

/// The terms that a term reaches so far with the conditions of an overlap as hypotheses; none where the budget is spent
/// before.
pub fn listed_within(
    alloc: Global,
    sys: &PreparedSystem<'_>,
    overlap: &Overlap,
    start: &Term,
    extent: Extent,
    budget: &mut Budget,
) -> Result<Option<Vec<Entry>>, NoMemory>
    requires overlap { IsOverlapOf sys.now (overlap_view overlap.now) }
    requires start { math.Fits (view start.now) }
    ensures answer { ReachedAnswers sys.now (overlap_view overlap.now) extent.steps extent.cond_depth (view start.now) budget.old budget.new result }
    ensures fit { IfOk result (λ o. IfSome o (λ list. DoAllFit (table_view list.items))) }
    ensures once { IfOk result (λ o. IfSome o (λ list. IsWithoutRepetition (table_view list.items))) }
    ensures kept { (n : ℕ) × Spends budget.old n budget.new }
{
    // The law tells that conditions are few.
    sys.rules_are_sound();
    let mut work = Work::new();
    match reach_in(
        alloc,
        sys.indexed(),
        &overlap.conds,
        start,
        extent.steps,
        extent.cond_depth,
        budget,
        &mut work,
    ) {
        Ok(list) => Ok(Some(list)),
        Err(ReachStop::Spent) => Ok(None),
        Err(ReachStop::NoMemory) => Err(NoMemory),
    }
}

/// The listing of a term with the conditions of an overlap as hypotheses; none where the budget is spent before.
pub(crate) fn listed_under(
    alloc: Global,
    sys: &PreparedSystem<'_>,
    overlap: &Overlap,
    start: &Term,
    budget: &mut Budget,
) -> Result<Option<Vec<Entry>>, NoMemory>
    requires overlap { IsOverlapOf sys.now (overlap_view overlap.now) }
    requires start { math.Fits (view start.now) }
    ensures answer { ListedAnswers sys.now (overlap_view overlap.now) (view start.now) budget.old budget.new result }
    ensures fit { IfOk result (λ o. IfSome o (λ list. DoAllFit (table_view list.items))) }
    ensures once { IfOk result (λ o. IfSome o (λ list. IsWithoutRepetition (table_view list.items))) }
    ensures kept { (n : ℕ) × Spends budget.old n budget.new }
{
    let extent = Extent {
        steps: STEPS,
        cond_depth: COND_DEPTH,
    };
    listed_within(alloc, sys, overlap, start, extent, budget)
}
