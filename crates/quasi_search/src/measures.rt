//! The search for a measure: of a grid of linear interpretations, then of the precedences.
ghost use Rattle.std.specs.Prelude.{ℕ};
ghost use Rattle.cc_count.specs.Counts.{Spends};
ghost use Rattle.quasi_search.specs.MeasureTrials.{MeasureAnswers, PrecedenceAnswers};

use cc_count::{Budget, Sought};
use cert_model::MeasureCert;
use grid_search::search_grid;
use precedence_search::search_precedences;
use std::alloc::Global;
use term_core::{NoMemory, System};

// Searches the precedences alone.
fn search_orders(
    alloc: Global,
    sys: &System,
    budget: &mut Budget,
) -> Result<Sought<MeasureCert>, NoMemory>
    ensures answer { PrecedenceAnswers sys.now budget.old budget.new result }
    ensures kept { (n : ℕ) × Spends budget.old n budget.new }
{
    match search_precedences(alloc, sys, budget)? {
        Sought::Found(order) => Ok(Sought::Found(MeasureCert::Lpo(order))),
        Sought::Nothing => Ok(Sought::Nothing),
        Sought::Spent => Ok(Sought::Spent),
    }
}

/// Searches the grid of linear interpretations for the first that is good, and behind it the precedences.
pub(crate) fn search_measures(
    alloc: Global,
    sys: &System,
    budget: &mut Budget,
) -> Result<Sought<MeasureCert>, NoMemory>
    ensures answer { MeasureAnswers sys.now budget.old budget.new result }
    ensures kept { (n : ℕ) × Spends budget.old n budget.new }
{
    match search_grid(alloc, sys, budget)? {
        Sought::Found(linear) => Ok(Sought::Found(MeasureCert::Linear(linear))),
        Sought::Nothing => search_orders(alloc, sys, budget),
        Sought::Spent => Ok(Sought::Spent),
    }
}
