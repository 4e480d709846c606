//! All searches for a certificate, one behind the other: those of the system, and then those of what its standard steps leave.
#![tactic(auto)]

ghost use Rattle.std.specs.Prelude.{ℕ, ◌≡◌};
ghost use Rattle.certificates.specs.Certificates as math;
ghost use Rattle.valid_certificates.specs.Certificates.{IsValid};
ghost use Rattle.cc_count.specs.Counts.{Spends};
ghost use Rattle.search_spaces.specs.Texts.{HasText};
ghost use Rattle.search_spaces.specs.Ortho.{ortho_space};
ghost use Rattle.search_answers.specs.Answers.{Searches, IfFound, IfNothing};
ghost use Rattle.proof_spaces.specs.Endings.{MayProofEnd};
ghost use Rattle.portfolio.specs.Answers.{outcome_ending};
ghost use Rattle.proof_spaces.specs.Proofs.{proof_space};

mod behind;
mod own;
mod untouched;

use crate::behind::search_simplified;
use crate::own::search_whole;
use cc_count::Budget;
use cert_model::Certificate;
use cops_names::Names;
use prepared_system::PreparedSystem;
use proof_spaces::proof_spaces_are_searchable;
use rule_index::IndexedSystem;
use search_answers::overlaps_or_none;
use std::alloc::Global;
use term_core::{NoMemory, System};
use validity::Search;

/// How the searches end.
#[derive(Debug, Drop)]
pub enum Outcome {
    Found(Certificate),
    /// What is searched holds no valid certificate.
    Exhausted,
    /// The budget was spent.
    Spent,
}

/// Searches for a certificate of an almost orthogonal system, then for one that the system is not confluent, then for one with
/// a measure. Where none is found, the standard steps that simplify the system are made, and where there are any, the system
/// that they leave is searched in the same order; what is found there stands behind the steps, and counts only where it can be
/// written with them. The first that is valid is found. A unit is spent for each item and each step that is tried, in all
/// searches together at most what the budget has.
pub fn prove(
    alloc: Global,
    sys: &System,
    names: &Names,
    budget: &mut Budget,
) -> Result<Outcome, NoMemory>
    // By the price, by that where nothing behind dead prefixes of the grid is tried, and by the sum of all that is searched then.
    ensures searched { Searches outcome_ending (MayProofEnd names.now sys.now) budget.old budget.new result }
    ensures valid { IfFound outcome_ending result (IsValid sys.now) }
    ensures written { IfFound outcome_ending result (HasText names.now) }
    ensures exhausted { IfNothing outcome_ending result ((c : math.Certificate) → (proof_space names.now sys.now).Holds c → IsValid sys.now c → ⊥) }
    // Where the first space has a certificate, that is found, for exactly its price.
    ensures ortho_first { (c : math.Certificate) (n : ℕ) → (ortho_space names.now sys.now).Finds c n → IfFound outcome_ending result (λ found. (found ≡ c) × Spends budget.old n budget.new) }
    ensures kept { (n : ℕ) × Spends budget.old n budget.new }
{
    proof_spaces_are_searchable();
    let indexed = IndexedSystem::new(alloc, sys)?;
    let prepared = PreparedSystem::new(alloc, indexed)?;
    let found = overlaps_or_none(alloc, &prepared)?;
    match search_whole(alloc, &prepared, names, found.as_deref(), budget)? {
        Search::Found(cert) => Ok(Outcome::Found(cert)),
        Search::Nothing => search_simplified(alloc, sys, names, found, budget),
        Search::Spent => Ok(Outcome::Spent),
    }
}
