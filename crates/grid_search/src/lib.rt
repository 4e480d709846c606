//! The search for a linear interpretation that is good, in a grid of small numbers.
#![tactic(auto)]

mod entries;
mod needs;
mod prefix;
mod walk;

ghost use Rattle.std.specs.Prelude.{ℕ};
ghost use Rattle.cc_count.specs.Counts.{Spends};
ghost use Rattle.grid_search.specs.Answers.{GridAnswers};

pub use crate::prefix::{PrefixJudge, check_prefix};
use crate::walk::walk_grid;
use cc_count::{Budget, Sought};
use cert_model::Linear;
use std::alloc::Global;
use term_core::{NoMemory, System};
use unravel::UnravelError;

/// Searches the grid for the first interpretation that is good, entry by entry: nothing is tried that begins with entries
/// at which a rule of the unraveled system does not fall. Each interpretation that is judged, and each shorter beginning
/// that is dead, costs a unit. Where a side of the unraveled system does not fit, none is good, and nothing is paid.
pub fn search_grid(
    alloc: Global,
    sys: &System,
    budget: &mut Budget,
) -> Result<Sought<Linear>, NoMemory>
    ensures answer { GridAnswers sys.now budget.old budget.new result }
    ensures kept { (n : ℕ) × Spends budget.old n budget.new }
{
    match PrefixJudge::new(alloc, sys) {
        Ok(judge) => walk_grid(alloc, &judge, budget),
        Err(UnravelError::TooLarge { .. }) => Ok(Sought::Nothing),
        Err(UnravelError::NoMemory) => Err(NoMemory),
    }
}
