//! The search for a certificate that a system is almost orthogonal: for each overlap the first valid evidence.
#![tactic(auto)]

ghost use Rattle.std.specs.Prelude.{ℕ, ◌↔◌, IsTrue, map};
ghost use Rattle.unifier_run.specs.Overlaps.{AreOverlaps};
ghost use Rattle.certificates.specs.Certificates as math;
ghost use Rattle.critical_pairs.specs.View.{overlap_view};
ghost use Rattle.valid_certificates.specs.Certificates.{IsValid};
ghost use Rattle.valid_certificates.specs.Confluence.{IsInOrthoClasses};
ghost use Rattle.cc_count.specs.Counts.{Spends};
ghost use Rattle.search_answers.specs.Given.{IsOverlapList};
ghost use Rattle.search_spaces.specs.Ortho.{ortho_space, IsOrthoPaid};
ghost use Rattle.search_answers.specs.Answers.{Searches, ending_of, IfFound, IfNothing};
ghost use Rattle.first_found.specs.Spaces.{MayEndExactly};

mod items;
mod trying;

use crate::trying::OrthoTrial;
pub use crate::trying::try_overlap;
use cc_count::{Budget, Sought};
use cert_model::Certificate;
use cops_names::Names;
use critical_pairs::Overlap;
use ctrs_classes::{is_extended_oriented, is_left_linear, is_right_stable, is_type3};
use pair_search::entries_for;
use prepared_system::PreparedSystem;
use rule_index::IndexedSystem;
use search_answers::{found_if_written, overlaps_or_none};
use std::alloc::Global;
use term_core::{NoMemory, System};
pub use validity::Search;

// Whether the system is left-linear, of type 3, extended properly oriented and right-stable.
fn is_in_classes(sys: &System) -> bool
    ensures { IsTrue result ↔ IsInOrthoClasses sys.now }
{
    is_left_linear(sys) && is_type3(sys) && is_extended_oriented(sys) && is_right_stable(sys)
}

// Searches where the classes hold.
fn search_open(
    alloc: Global,
    sys: &PreparedSystem<'_>,
    names: &Names,
    overlaps: &[Overlap],
    budget: &mut Budget,
) -> Result<Search, NoMemory>
    requires classes { IsInOrthoClasses sys.now }
    requires overlaps { AreOverlaps sys.now (map overlap_view overlaps.now) }
    ensures searched { Searches ending_of (MayEndExactly (ortho_space names.now sys.now)) budget.old budget.new result }
    ensures paid { IfNothing ending_of result ((n : ℕ) × Spends budget.old n budget.new × IsOrthoPaid names.now sys.now n) }
    ensures kept { (n : ℕ) × Spends budget.old n budget.new }
{
    match entries_for(alloc, sys, overlaps, &OrthoTrial, budget)? {
        Sought::Found(pairs) => found_if_written(alloc, names, Certificate::Ortho(pairs)),
        Sought::Nothing => Ok(Search::Nothing),
        Sought::Spent => Ok(Search::Spent),
    }
}

/// The same as `search_ortho`, over left sides and a list of the overlaps that were made before; none where the overlaps are refused.
pub fn search_ortho_over(
    alloc: Global,
    sys: &PreparedSystem<'_>,
    names: &Names,
    overlaps: Option<&[Overlap]>,
    budget: &mut Budget,
) -> Result<Search, NoMemory>
    requires overlaps { IsOverlapList sys.now overlaps }
    ensures searched { Searches ending_of (MayEndExactly (ortho_space names.now sys.now)) budget.old budget.new result }
    ensures nothing { IfNothing ending_of result ((c : math.Certificate) → (ortho_space names.now sys.now).Holds c → IsValid sys.now c → ⊥) }
    ensures valid { IfFound ending_of result (IsValid sys.now) }
    ensures paid { IfNothing ending_of result ((n : ℕ) × Spends budget.old n budget.new × IsOrthoPaid names.now sys.now n) }
    ensures kept { (n : ℕ) × Spends budget.old n budget.new }
{
    let Some(found) = overlaps else {
        return Ok(Search::Nothing);
    };
    if is_in_classes(sys.system()) {
        search_open(alloc, sys, names, found, budget)
    } else {
        Ok(Search::Nothing)
    }
}

/// Searches for the certificate of an almost orthogonal system: an entry for each overlap, with the first valid evidence
/// among that the overlap is trivial, caps, conflicts and grown automata. Each evidence that is tried costs a unit, and the
/// search ends at the first overlap that has none. Where a class fails or the overlaps are refused, there is nothing to
/// search, at no cost; nor is there a certificate where its text would be too long.
pub fn search_ortho(
    alloc: Global,
    sys: &System,
    names: &Names,
    budget: &mut Budget,
) -> Result<Search, NoMemory>
    ensures searched { Searches ending_of (MayEndExactly (ortho_space names.now sys.now)) budget.old budget.new result }
    ensures nothing { IfNothing ending_of result ((c : math.Certificate) → (ortho_space names.now sys.now).Holds c → IsValid sys.now c → ⊥) }
    ensures valid { IfFound ending_of result (IsValid sys.now) }
    ensures paid { IfNothing ending_of result ((n : ℕ) × Spends budget.old n budget.new × IsOrthoPaid names.now sys.now n) }
    ensures kept { (n : ℕ) × Spends budget.old n budget.new }
{
    let indexed = IndexedSystem::new(alloc, sys)?;
    let prepared = PreparedSystem::new(alloc, indexed)?;
    let found = overlaps_or_none(alloc, &prepared)?;
    search_ortho_over(alloc, &prepared, names, found.as_deref(), budget)
}
