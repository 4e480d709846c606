//! The search for a certificate that a system is not confluent: two terms that one term reaches, and that are shown to be apart.
#![tactic(auto)]

ghost use Rattle.std.specs.Prelude.{ℕ};
ghost use Rattle.certificates.specs.Certificates as math;
ghost use Rattle.valid_certificates.specs.Certificates.{IsValid};
ghost use Rattle.cc_count.specs.Counts.{Spends};
ghost use Rattle.search_spaces.specs.Peak.{peak_space, IsPeakCost};
ghost use Rattle.search_answers.specs.Given.{IsOverlapList};
ghost use Rattle.search_answers.specs.Answers.{Searches, ending_of, IfFound, IfNothing};
ghost use Rattle.first_found.specs.Spaces.{MayEndExactly};
ghost use Rattle.noncon_search.specs.Answers.{StartsAnswer};

mod candidates;
mod ends;
mod entries;
mod made_caps;
mod overlay;
mod pairs;
mod redexes;
mod starts;
mod trying;

use crate::starts::try_each;
use cc_count::Budget;
use cops_names::Names;
use critical_pairs::Overlap;
pub use ends::{End, ends_of};
pub use pairs::try_pairs;
use prepared_system::PreparedSystem;
use rule_index::IndexedSystem;
use search_answers::overlaps_or_none;
pub use starts::HasStart;
use std::alloc::Global;
use term_core::{NoMemory, System};
pub use validity::Search;

// Tries all starts: the left sides of the rules, then the sources of the overlaps.
fn try_starts(
    alloc: Global,
    sys: &IndexedSystem<'_>,
    names: &Names,
    overlaps: Option<&[Overlap]>,
    budget: &mut Budget,
) -> Result<Search, NoMemory>
    requires overlaps { IsOverlapList sys.now overlaps }
    ensures { StartsAnswer names.now sys.now budget.old budget.new result }
{
    match try_each(alloc, sys, names, sys.rules(), budget)? {
        Search::Nothing => {}
        end => return Ok(end),
    }
    match overlaps {
        Some(overlaps) => try_each(alloc, sys, names, overlaps, budget),
        None => Ok(Search::Nothing),
    }
}

/// The same as `search_peak`, over an index and a list of overlaps that were made before; none where the overlaps are refused.
pub fn search_peak_over(
    alloc: Global,
    sys: &IndexedSystem<'_>,
    names: &Names,
    overlaps: Option<&[Overlap]>,
    budget: &mut Budget,
) -> Result<Search, NoMemory>
    requires overlaps { IsOverlapList sys.now overlaps }
    ensures searched { Searches ending_of (MayEndExactly (peak_space names.now sys.now)) budget.old budget.new result }
    ensures nothing { IfNothing ending_of result ((c : math.Certificate) → (peak_space names.now sys.now).Holds c → IsValid sys.now c → ⊥) }
    ensures valid { IfFound ending_of result (IsValid sys.now) }
    ensures paid { IfNothing ending_of result ((n : ℕ) × Spends budget.old n budget.new × IsPeakCost sys.now n) }
    ensures kept { (n : ℕ) × Spends budget.old n budget.new }
{
    try_starts(alloc, sys, names, overlaps, budget)
}

/// Searches for a peak whose ends are apart. From each start, the left sides of the rules and then the sources of the
/// overlaps, the terms that it reaches in 5 steps with condition depth 2 are listed, a unit each; then each two of them are
/// tried in order, a unit each: evidence for all redexes of both, the first that is valid for each, or else their rigid caps.
pub fn search_peak(
    alloc: Global,
    sys: &System,
    names: &Names,
    budget: &mut Budget,
) -> Result<Search, NoMemory>
    ensures searched { Searches ending_of (MayEndExactly (peak_space names.now sys.now)) budget.old budget.new result }
    ensures nothing { IfNothing ending_of result ((c : math.Certificate) → (peak_space names.now sys.now).Holds c → IsValid sys.now c → ⊥) }
    ensures valid { IfFound ending_of result (IsValid sys.now) }
    ensures paid { IfNothing ending_of result ((n : ℕ) × Spends budget.old n budget.new × IsPeakCost sys.now n) }
    ensures kept { (n : ℕ) × Spends budget.old n budget.new }
{
    let indexed = IndexedSystem::new(alloc, sys)?;
    let prepared = PreparedSystem::new(alloc, indexed)?;
    let found = overlaps_or_none(alloc, &prepared)?;
    search_peak_over(alloc, prepared.indexed(), names, found.as_deref(), budget)
}
