//! The terms that a start reaches, tried as the ends of a peak.
ghost use Rattle.std.specs.Prelude.{◌≡◌, [], IfOk};
ghost use Rattle.rewriting.specs.Terms as math;
ghost use Rattle.reach_lists.specs.Lists.{reach_list};
ghost use Rattle.reach.specs.EntryView.{table_view};
ghost use Rattle.term_core.specs.View.{view};
ghost use Rattle.noncon_search.specs.Ends.{AreEnds};

use cc_count::Budget;
use cops_names::Names;
use flatterm::Work;
use noncon_search::{End, ends_of, try_pairs};
use reach::{Entry, ReachStop, reach_in};
use rule_index::IndexedSystem;
use std::alloc::Global;
use term_core::{NoMemory, Term};
use validity::Search;

/// The steps of a listing.
pub(crate) const STEPS: u32 = 8;

/// Its condition depth.
pub(crate) const COND_DEPTH: u32 = 3;

/// Which of the terms that a start reaches are tried as ends.
#[derive(Clone, Copy, Debug, PartialEq, Eq)]
pub(crate) enum Tried {
    /// Those of which each redex has evidence that its conditions are never met: each two of them are apart.
    Refuted,
    /// All.
    All,
}

// The ends of which each redex has evidence, in their order.
fn refuted<'a>(
    alloc: Global,
    sys: &IndexedSystem<'_>,
    start: &Term,
    ends: Vec<End<'a>>,
) -> Result<Vec<End<'a>>, NoMemory>
    requires ends { AreEnds sys.now (view start.now) ends.items }
    ensures { IfOk result (λ some. AreEnds sys.now (view start.now) some.items) }
{
    let mut some = Vec::new(alloc);
    'ends: for end in ends {
        if end.is_refuted {
            some.push(end)?;
        }
    }
    Ok(some)
}

// The listed terms that are tried as ends.
fn tried_ends<'a>(
    alloc: Global,
    sys: &IndexedSystem<'_>,
    start: &Term,
    listed: &'a [Entry],
    tried: Tried,
) -> Result<Vec<End<'a>>, NoMemory>
    requires fits { math.Fits (view start.now) }
    requires listed { table_view listed.now ≡ reach_list sys.now [] 8 3 (view start.now) }
    ensures { IfOk result (λ ends. AreEnds sys.now (view start.now) ends.items) }
{
    let ends = ends_of(alloc, sys, listed)?;
    match tried {
        Tried::Refuted => refuted(alloc, sys, start, ends),
        Tried::All => Ok(ends),
    }
}

/// Lists the terms that a start reaches, and tries their pairs.
pub(crate) fn try_start(
    alloc: Global,
    sys: &IndexedSystem<'_>,
    names: &Names,
    start: &Term,
    tried: Tried,
    budget: &mut Budget,
) -> Result<Search, NoMemory>
    requires fits { math.Fits (view start.now) }
{
    let mut work = Work::new();
    match reach_in(alloc, sys, &[], start, STEPS, COND_DEPTH, budget, &mut work) {
        Ok(listed) => {
            let ends = tried_ends(alloc, sys, start, &listed, tried)?;
            try_pairs(alloc, sys, names, start, &ends, budget)
        }
        Err(ReachStop::Spent) => Ok(Search::Spent),
        Err(ReachStop::NoMemory) => Err(NoMemory),
    }
}
