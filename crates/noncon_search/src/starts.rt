//! The starts of peaks, one after the other: left sides of rules and sources of overlaps, each with the terms that it reaches.
ghost use Rattle.std.specs.Prelude.{◌≡◌, [], map};
ghost use Rattle.rewriting.specs.Terms as math;
ghost use Rattle.reach_lists.specs.Laws.{EachOf};
ghost use Rattle.search_spaces.specs.Listings.{listing};
ghost use Rattle.search_spaces.specs.PeakItems.{peak_items_of, peak_items};
ghost use Rattle.reach.specs.EntryView.{table_view};
ghost use Rattle.term_core.specs.View.{view};
ghost use Rattle.noncon_search.specs.Answers.{pair_items, WalkAnswers};

use crate::ends::ends_of;
use crate::pairs::try_pairs;
use cc_count::Budget;
use cops_names::Names;
use critical_pairs::Overlap;
use flatterm::Work;
use reach::{Entry, ReachStop, reach_in};
use rule_index::IndexedSystem;
use search_spaces::{COND_DEPTH, STEPS};
use std::alloc::Global;
use term_core::{NoMemory, Rule, Term};
use validity::Search;

// Tries the pairs of a start's listed terms.
fn try_listed(
    alloc: Global,
    sys: &IndexedSystem<'_>,
    names: &Names,
    start: &Term,
    listed: &[Entry],
    budget: &mut Budget,
) -> Result<Search, NoMemory>
    requires fits { math.Fits (view start.now) }
    requires listed { table_view listed.now ≡ listing sys.now [] (view start.now) }
    ensures { WalkAnswers names.now sys.now (pair_items (view start.now) (table_view listed.now)) budget.old budget.new result }
{
    let ends = ends_of(alloc, sys, listed)?;
    try_pairs(alloc, sys, names, start, &ends, budget)
}

// Lists the terms that a start reaches, and tries their pairs.
fn try_start(
    alloc: Global,
    sys: &IndexedSystem<'_>,
    names: &Names,
    start: &Term,
    budget: &mut Budget,
) -> Result<Search, NoMemory>
    requires fits { math.Fits (view start.now) }
    ensures { WalkAnswers names.now sys.now (peak_items_of sys.now (view start.now)) budget.old budget.new result }
{
    let mut work = Work::new();
    match reach_in(alloc, sys, &[], start, STEPS, COND_DEPTH, budget, &mut work) {
        Ok(listed) => try_listed(alloc, sys, names, start, &listed, budget),
        Err(ReachStop::Spent) => Ok(Search::Spent),
        Err(ReachStop::NoMemory) => Err(NoMemory),
    }
}

/// What has a term from which peaks may start.
pub trait HasStart {
    ghost start: { Self → math.Term };

    fn start(&self) -> &Term
        ensures { view result.now ≡ start self.now };
}

impl HasStart for Rule {
    ghost start = { λ r. view r.left };

    fn start(&self) -> &Term {
        &self.left
    }
}

impl HasStart for Overlap {
    ghost start = { λ o. view o.source };

    fn start(&self) -> &Term {
        &self.source
    }
}

/// Tries the left sides of rules, or the sources of overlaps, as starts.
pub(crate) fn try_each<T: HasStart>(
    alloc: Global,
    sys: &IndexedSystem<'_>,
    names: &Names,
    all: &[T],
    budget: &mut Budget,
) -> Result<Search, NoMemory>
    requires fit { EachOf (λ x. math.Fits (T.start x)) all.now }
    ensures { WalkAnswers names.now sys.now (peak_items sys.now (map T.start all.now)) budget.old budget.new result }
{
    'starts: for one in all {
        match try_start(alloc, sys, names, one.start(), budget)? {
            Search::Nothing => {}
            end => return Ok(end),
        }
    }
    Ok(Search::Nothing)
}
