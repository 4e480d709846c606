//! The search for a certificate that a system with a measure is confluent: evidence for each overlap, and a measure of a grid or a precedence.
#![tactic(auto)]

ghost use Rattle.std.specs.Prelude.{ℕ, ◌↔◌, IfOk, IsTrue, map};
ghost use Rattle.unifier_run.specs.Overlaps.{AreOverlaps};
ghost use Rattle.certificates.specs.Certificates as math;
ghost use Rattle.critical_pairs.specs.View.{overlap_view};
ghost use Rattle.valid_certificates.specs.Certificates.{IsValid};
ghost use Rattle.quasi_check.specs.Parts.{AreRulesGood};
ghost use Rattle.cc_count.specs.Counts.{Spends};
ghost use Rattle.search_answers.specs.Given.{IsOverlapList};
ghost use Rattle.search_answers.specs.Answers.{Searches, ending_of, IfFound, IfNothing};
ghost use Rattle.quasi_space.specs.Endings.{MayEndLast};
ghost use Rattle.quasi_space.specs.Measures.{pruned_measures};
ghost use Rattle.quasi_space.specs.Quasi.{quasi_space, quasi_space_by};

mod joins;
mod listed;
mod measures;
mod reducts;
mod refuting;
mod trying;

pub use crate::joins::try_shared;
pub use crate::listed::{Extent, listed_within};
use crate::measures::search_measures;
use crate::trying::QuasiTrial;
pub use crate::trying::try_overlap;
use cc_count::{Budget, Sought};
use cert_model::Certificate;
use cops_names::Names;
use critical_pairs::Overlap;
use ctrs_classes::is_deterministic;
use pair_search::entries_for;
use prepared_system::PreparedSystem;
use quasi_check::are_right_sides_irreducible;
use rule_index::IndexedSystem;
use search_answers::{found_if_written, overlaps_or_none};
use std::alloc::Global;
use term_core::{NoMemory, System};
pub use validity::Search;

// Whether the system is deterministic, and the right side of each condition is absolutely irreducible.
fn are_rules_good(alloc: Global, sys: &PreparedSystem<'_>) -> Result<bool, NoMemory>
    ensures { IfOk result (λ b. IsTrue b ↔ AreRulesGood sys.now) }
{
    if !is_deterministic(sys.system()) {
        return Ok(false);
    }
    are_right_sides_irreducible(alloc, sys)
}

// Searches where the rules are good: for the entries, and behind them for a measure.
fn search_open(
    alloc: Global,
    sys: &PreparedSystem<'_>,
    names: &Names,
    overlaps: &[Overlap],
    budget: &mut Budget,
) -> Result<Search, NoMemory>
    requires rules { AreRulesGood sys.now }
    requires overlaps { AreOverlaps sys.now (map overlap_view overlaps.now) }
    ensures pruned { Searches ending_of (MayEndLast (quasi_space_by (pruned_measures sys.now) names.now sys.now)) budget.old budget.new result }
    ensures kept { (n : ℕ) × Spends budget.old n budget.new }
{
    let pairs = match entries_for(alloc, sys, overlaps, &QuasiTrial, budget)? {
        Sought::Found(pairs) => pairs,
        Sought::Nothing => return Ok(Search::Nothing),
        Sought::Spent => return Ok(Search::Spent),
    };
    match search_measures(alloc, sys.system(), budget)? {
        Sought::Found(measure) => {
            found_if_written(alloc, names, Certificate::Quasi(measure, pairs))
        }
        Sought::Nothing => Ok(Search::Nothing),
        Sought::Spent => Ok(Search::Spent),
    }
}

/// The same as `search_quasi`, over left sides and a list of the overlaps that were made before; none where the overlaps are refused.
pub fn search_quasi_over(
    alloc: Global,
    sys: &PreparedSystem<'_>,
    names: &Names,
    overlaps: Option<&[Overlap]>,
    budget: &mut Budget,
) -> Result<Search, NoMemory>
    requires overlaps { IsOverlapList sys.now overlaps }
    ensures searched { Searches ending_of (MayEndLast (quasi_space names.now sys.now)) budget.old budget.new result }
    ensures pruned { Searches ending_of (MayEndLast (quasi_space_by (pruned_measures sys.now) names.now sys.now)) budget.old budget.new result }
    ensures nothing { IfNothing ending_of result ((c : math.Certificate) → (quasi_space names.now sys.now).Holds c → IsValid sys.now c → ⊥) }
    ensures valid { IfFound ending_of result (IsValid sys.now) }
    ensures kept { (n : ℕ) × Spends budget.old n budget.new }
{
    let Some(found) = overlaps else {
        return Ok(Search::Nothing);
    };
    if are_rules_good(alloc, sys)? {
        search_open(alloc, sys, names, found, budget)
    } else {
        Ok(Search::Nothing)
    }
}

/// Searches for a certificate with a measure. First there is to be an entry for each overlap, with the first valid evidence
/// among caps and grown automata, common reducts of its sides, and two reducts of the left side of a condition that show that
/// it is never met. Caps and each automaton cost a unit. Reducts are looked for in lists of what a term reaches in 5 steps with
/// condition depth 2, a unit for each term that is listed; common ones cost no more, and each two of a condition a unit. The
/// search ends at the first overlap that has no evidence.
///
/// Behind them the first good measure of a grid of linear interpretations is searched for, where nothing is tried behind a
/// beginning that no good one has: a unit for each interpretation that is judged, and for each shorter beginning that is
/// given up. Where none is good, the precedences are tried in the same way. Where the system is not deterministic, the right side of a condition is not absolutely irreducible, or the
/// overlaps are refused, there is nothing to search, at no cost; nor is there a certificate where its text would be too long.
pub fn search_quasi(
    alloc: Global,
    sys: &System,
    names: &Names,
    budget: &mut Budget,
) -> Result<Search, NoMemory>
    ensures searched { Searches ending_of (MayEndLast (quasi_space names.now sys.now)) budget.old budget.new result }
    ensures pruned { Searches ending_of (MayEndLast (quasi_space_by (pruned_measures sys.now) names.now sys.now)) budget.old budget.new result }
    ensures nothing { IfNothing ending_of result ((c : math.Certificate) → (quasi_space names.now sys.now).Holds c → IsValid sys.now c → ⊥) }
    ensures valid { IfFound ending_of result (IsValid sys.now) }
    ensures kept { (n : ℕ) × Spends budget.old n budget.new }
{
    let indexed = IndexedSystem::new(alloc, sys)?;
    let prepared = PreparedSystem::new(alloc, indexed)?;
    let found = overlaps_or_none(alloc, &prepared)?;
    search_quasi_over(alloc, &prepared, names, found.as_deref(), budget)
}
