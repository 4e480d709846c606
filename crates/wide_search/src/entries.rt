//! What settles the overlaps in a certificate with a measure.
ghost use Rattle.std.specs.Prelude.{map};
ghost use Rattle.unifier_run.specs.Overlaps.{IsOverlapOf};
ghost use Rattle.critical_pairs.specs.View.{overlap_view};
ghost use Rattle.pair_check.specs.Walk.{EachIsOverlap};
ghost use Rattle.pair_search.specs.Grown.{IsGrown};

use crate::joins::try_joins;
use cc_count::{Budget, Sought};
use cert_model::{PairEntry, PairEvidence};
use critical_pairs::Overlap;
use pair_search::{Grown, add_entry};
use prepared_system::PreparedSystem;
use quasi_search::try_overlap;
use std::alloc::Global;
use term_core::NoMemory;

// What the smaller search tries for an overlap, and then joins by longer lists.
fn try_widely(
    alloc: Global,
    sys: &PreparedSystem<'_>,
    overlap: &Overlap,
    budget: &mut Budget,
    grown: &mut Grown,
) -> Result<Sought<PairEvidence>, NoMemory>
    requires overlap { IsOverlapOf sys.now (overlap_view overlap.now) }
    requires knows { IsGrown grown.old sys.now }
    ensures knows { IsGrown grown.new sys.now }
{
    match try_overlap(alloc, sys, overlap, budget, grown)? {
        Sought::Nothing => try_joins(alloc, sys, overlap, budget),
        end => Ok(end),
    }
}

/// An entry for each overlap, in order; at the first that has none the walk ends.
pub(crate) fn entries_for(
    alloc: Global,
    sys: &PreparedSystem<'_>,
    overlaps: &[Overlap],
    budget: &mut Budget,
) -> Result<Sought<Vec<PairEntry>>, NoMemory>
    requires overlaps { EachIsOverlap sys.now (map overlap_view overlaps.now) }
{
    let mut entries = Vec::new(alloc);
    let mut grown = Grown::new();
    'rows: for overlap in overlaps {
        match try_widely(alloc, sys, overlap, budget, &mut grown)? {
            Sought::Found(evidence) => add_entry(alloc, &mut entries, overlap, evidence)?,
            Sought::Nothing => return Ok(Sought::Nothing),
            Sought::Spent => return Ok(Sought::Spent),
        }
    }
    Ok(Sought::Found(entries))
}
