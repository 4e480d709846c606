//! The search for a certificate with a measure.
ghost use Rattle.std.specs.Prelude.{map};
ghost use Rattle.unifier_run.specs.Overlaps.{AreOverlaps};
ghost use Rattle.critical_pairs.specs.View.{overlap_view};

use crate::entries::entries_for;
use crate::measures::search_measures;
use crate::shares::{part_of, settle};
use cc_count::{Budget, Sought};
use cert_model::{Certificate, PairEntry};
use critical_pairs::Overlap;
use ctrs_classes::is_deterministic;
use prepared_system::PreparedSystem;
use quasi_check::are_right_sides_irreducible;
use std::alloc::Global;
use term_core::NoMemory;
use validity::Search;

// Searches for a measure behind the entries.
fn search_behind(
    alloc: Global,
    sys: &PreparedSystem<'_>,
    pairs: Vec<PairEntry>,
    budget: &mut Budget,
) -> Result<Search, NoMemory> {
    match search_measures(alloc, sys.system(), budget)? {
        Sought::Found(measure) => Ok(Search::Found(Certificate::Quasi(measure, pairs))),
        Sought::Nothing => Ok(Search::Nothing),
        Sought::Spent => Ok(Search::Spent),
    }
}

/// Searches for the entries with half of the units, and behind them for a measure.
pub(crate) fn search_quasi_widely(
    alloc: Global,
    sys: &PreparedSystem<'_>,
    overlaps: &[Overlap],
    budget: &mut Budget,
) -> Result<Search, NoMemory>
    requires overlaps { AreOverlaps sys.now (map overlap_view overlaps.now) }
{
    if !is_deterministic(sys.system()) {
        return Ok(Search::Nothing);
    }
    if !are_right_sides_irreducible(alloc, sys)? {
        return Ok(Search::Nothing);
    }
    let mut share = part_of(budget, 2);
    let entries = entries_for(alloc, sys, overlaps, &mut share)?;
    settle(budget, &share);
    match entries {
        Sought::Found(pairs) => search_behind(alloc, sys, pairs, budget),
        Sought::Nothing => Ok(Search::Nothing),
        Sought::Spent => Ok(Search::Spent),
    }
}
