//! A wider search than that for proofs, without a claim of completeness: what it finds is judged by the checker before it is told.
#![tactic(auto)]

ghost use Rattle.std.specs.Prelude.{ℕ, ◌≡◌, map};
ghost use Rattle.valid_certificates.specs.Certificates.{IsValid};
ghost use Rattle.cc_count.specs.Counts.{Spends};
ghost use Rattle.search_spaces.specs.Texts.{HasText};
ghost use Rattle.search_answers.specs.Answers.{ending_of, IfFound};

mod accepted;
mod entries;
mod grid;
mod ground;
mod joins;
mod listed;
mod measures;
mod numbers;
mod parts;
mod quasi;
mod shares;
mod starts;
mod steps;
mod turns;

use crate::parts::search_behind;
use crate::shares::{part_of, settle};
use cc_count::Budget;
use cert_model::Simp;
use cops_names::Names;
use std::alloc::Global;
use step_search::{SimpSearch, find_steps};
use term_core::{NoMemory, System};
pub use validity::Search;

// Searches the system itself with half of the units, and then what its steps leave.
fn search_both(
    alloc: Global,
    sys: &System,
    names: &Names,
    steps: &[Simp],
    last: &System,
    budget: &mut Budget,
) -> Result<Search, NoMemory>
    requires named { sys.now.arities ≡ map (λ s. s.1) names.now.symbols }
    ensures valid { IfFound ending_of result (IsValid sys.now) }
    ensures written { IfFound ending_of result (HasText names.now) }
{
    let mut share = part_of(budget, 2);
    let found = search_behind(alloc, sys, names, &[], sys, &mut share)?;
    settle(budget, &share);
    match found {
        Search::Found(cert) => Ok(Search::Found(cert)),
        Search::Nothing => search_behind(alloc, sys, names, steps, last, budget),
        Search::Spent => match search_behind(alloc, sys, names, steps, last, budget)? {
            Search::Found(cert) => Ok(Search::Found(cert)),
            _ => Ok(Search::Spent),
        },
    }
}

// The search within a share of its own.
fn seek_within(
    alloc: Global,
    sys: &System,
    names: &Names,
    budget: &mut Budget,
) -> Result<Search, NoMemory>
    requires named { sys.now.arities ≡ map (λ s. s.1) names.now.symbols }
    ensures valid { IfFound ending_of result (IsValid sys.now) }
    ensures written { IfFound ending_of result (HasText names.now) }
{
    match find_steps(alloc, sys, budget)? {
        SimpSearch::Steps(steps, last) => {
            if steps.is_empty() {
                search_behind(alloc, sys, names, &[], sys, budget)
            } else {
                search_both(alloc, sys, names, &steps, &last, budget)
            }
        }
        SimpSearch::Spent => Ok(Search::Spent),
    }
}

/// Searches for a certificate more widely than the search for proofs: for an almost orthogonal system in the same way; for
/// peaks from left sides, sources of overlaps and their instances by ground terms of up to three symbols, by lists of eight
/// steps with condition depth 3; for a measure with joins of eight steps and interpretations with numbers up to 6; and, where
/// standard steps simplify the system, for the same behind them. A unit is taken for each start, listed term, pair, item and
/// measure that is judged, and all parts share the units. What is found was judged by the checker; `Nothing` and `Spent` say
/// nothing of the system, `Spent` that some part was cut short.
pub fn seek(
    alloc: Global,
    sys: &System,
    names: &Names,
    budget: &mut Budget,
) -> Result<Search, NoMemory>
    requires named { sys.now.arities ≡ map (λ s. s.1) names.now.symbols }
    ensures valid { IfFound ending_of result (IsValid sys.now) }
    ensures written { IfFound ending_of result (HasText names.now) }
    ensures kept { (n : ℕ) × Spends budget.old n budget.new }
{
    let mut share = part_of(budget, 1);
    let found = seek_within(alloc, sys, names, &mut share);
    settle(budget, &share);
    found
}
