//! All pairs of the listed terms of a start, tried as the ends of a peak, for a unit each, up to the first certificate.
ghost use Rattle.std.specs.Prelude.{◌∷◌, []};
ghost use Rattle.term_core.specs.View.{view};
ghost use Rattle.search_spaces.specs.PeakItems.{try_ends};
ghost use Rattle.noncon_search.specs.Ends.{end_view, ends_view, AreEnds};
ghost use Rattle.noncon_search.specs.Answers.{pairs_with, pair_items, WalkAnswers};

use crate::candidates::candidate;
use crate::ends::End;
use cc_count::Budget;
use cops_names::Names;
use rule_index::IndexedSystem;
use std::alloc::Global;
use term_core::{NoMemory, Term};
use validity::Search;

// The earlier end of pairs, and the start that reaches it.
#[derive(Clone, Copy)]
struct First<'a> {
    start: &'a Term,
    end: &'a End<'a>,
}

// Tries two ends, for a unit.
fn try_pair(
    alloc: Global,
    sys: &IndexedSystem<'_>,
    names: &Names,
    first: First<'_>,
    second: &End<'_>,
    budget: &mut Budget,
) -> Result<Search, NoMemory>
    requires ends { AreEnds sys.now (view first.start.now) (first.end.now ∷ second.now ∷ []) }
    ensures { WalkAnswers names.now sys.now (try_ends (view first.entry.start.now) (end_view first.entry.end.now) (end_view second.now) ∷ []) budget.old budget.new result }
{
    if !budget.take() {
        return Ok(Search::Spent);
    }
    match candidate(alloc, sys, names, first.start, first.end, second)? {
        Some(cert) => Ok(Search::Found(cert)),
        None => Ok(Search::Nothing),
    }
}

// Tries an end with each of later ones.
fn try_with(
    alloc: Global,
    sys: &IndexedSystem<'_>,
    names: &Names,
    first: First<'_>,
    later: &[End<'_>],
    budget: &mut Budget,
) -> Result<Search, NoMemory>
    requires ends { AreEnds sys.now (view first.start.now) (first.end.now ∷ later.now) }
    ensures { WalkAnswers names.now sys.now (pairs_with (view first.entry.start.now) (end_view first.entry.end.now) (ends_view later.now)) budget.old budget.new result }
{
    'later: for second in later {
        match try_pair(alloc, sys, names, first, second, budget)? {
            Search::Nothing => {}
            end => return Ok(end),
        }
    }
    Ok(Search::Nothing)
}

/// Tries all pairs of an earlier and a later end, by the earlier, then the later.
pub fn try_pairs(
    alloc: Global,
    sys: &IndexedSystem<'_>,
    names: &Names,
    start: &Term,
    ends: &[End<'_>],
    budget: &mut Budget,
) -> Result<Search, NoMemory>
    requires ends { AreEnds sys.now (view start.now) ends.now }
    ensures { WalkAnswers names.now sys.now (pair_items (view start.now) (ends_view ends.now)) budget.old budget.new result }
{
    'firsts: for (i, end) in ends.iter().enumerate() {
        let first = First { start, end };
        let later = &ends[i + 1..];
        match try_with(alloc, sys, names, first, later, budget)? {
            Search::Nothing => {}
            end => return Ok(end),
        }
    }
    Ok(Search::Nothing)
}
