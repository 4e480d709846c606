//! How far the evidence of each kind of certificate gets through the overlaps, and what it costs.
ghost use Rattle.std.specs.Prelude.{map};
ghost use Rattle.unifier_run.specs.Overlaps.{AreOverlaps, IsOverlapOf};
ghost use Rattle.critical_pairs.specs.View.{overlap_view};
ghost use Rattle.pair_search.specs.Grown.{IsGrown};

use cc_count::{Budget, Sought};
use cert_model::PairEvidence;
use critical_pairs::Overlap;
use pair_search::Grown;
use prepared_system::PreparedSystem;
use std::alloc::Global;
use term_core::NoMemory;

/// How many overlaps are shown whole.
pub const SHOWN: usize = 100;

/// The kinds of certificates whose entries settle overlaps.
#[derive(Clone, Copy)]
pub enum Way {
    Ortho,
    Quasi,
}

/// Why the walk over the overlaps does not settle all.
#[derive(Clone, Copy)]
pub enum WalkEnd {
    /// The overlap with this number, from 1, is the first that nothing settles.
    Open(usize),
    /// The units were spent at the overlap with this number.
    Spent(usize),
}

/// What was found for the first overlaps, why the walk does not settle all, if so, and for how many units.
#[derive(Drop)]
pub struct Walked {
    pub shown: Vec<Sought<PairEvidence>>,
    pub end: Option<WalkEnd>,
    pub units: u64,
}

// What settles an overlap.
fn try_overlap(
    alloc: Global,
    sys: &PreparedSystem<'_>,
    way: Way,
    overlap: &Overlap,
    budget: &mut Budget,
    grown: &mut Grown,
) -> Result<Sought<PairEvidence>, NoMemory>
    requires overlap { IsOverlapOf sys.now (overlap_view overlap.now) }
    requires knows { IsGrown grown.old sys.now }
    ensures knows { IsGrown grown.new sys.now }
{
    match way {
        Way::Ortho => ortho_search::try_overlap(alloc, sys, overlap, budget, grown),
        Way::Quasi => quasi_search::try_overlap(alloc, sys, overlap, budget, grown),
    }
}

// Whether an overlap ends the walk.
fn end_at(number: usize, walk: &Sought<PairEvidence>) -> Option<WalkEnd> {
    match walk {
        Sought::Nothing => Some(WalkEnd::Open(number)),
        Sought::Spent => Some(WalkEnd::Spent(number)),
        Sought::Found(_) => None,
    }
}

impl Walked {
    // Takes what was found for the overlap behind so many others.
    fn take(
        &mut self,
        before: usize,
        walk: Sought<PairEvidence>,
        spent: u64,
    ) -> Result<(), NoMemory> {
        if self.end.is_none() {
            self.units = spent;
            self.end = end_at(before.saturating_add(1), &walk);
        }
        if before < SHOWN {
            self.shown.push(walk)?;
        }
        Ok(())
    }
}

/// Tries the overlaps in order: the first ones, and those behind them up to the first that nothing settles.
pub fn walk_overlaps(
    alloc: Global,
    sys: &PreparedSystem<'_>,
    way: Way,
    overlaps: &[Overlap],
    units: u64,
) -> Result<Walked, NoMemory>
    requires overlaps { AreOverlaps sys.now (map overlap_view overlaps.now) }
{
    let mut budget = Budget::new(units);
    let mut grown = Grown::new();
    let mut walked = Walked {
        shown: Vec::new(alloc),
        end: None,
        units: 0,
    };
    'overlaps: for (before, overlap) in overlaps.iter().enumerate() {
        if before >= SHOWN && walked.end.is_some() {
            return Ok(walked);
        }
        let walk = try_overlap(alloc, sys, way, overlap, &mut budget, &mut grown)?;
        walked.take(before, walk, budget.spent())?;
    }
    Ok(walked)
}
