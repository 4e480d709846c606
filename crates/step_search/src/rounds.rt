//! The standard steps, found round by round.
ghost use Rattle.step_search.specs.Answers.{FindAnswers};

use crate::tries::Made;
use crate::walks::walk_through;
use cc_count::{Budget, Sought};
use cert_model::Simp;
use simplify::{changed, copied};
use std::alloc::Global;
use term_core::{NoMemory, System};

/// The standard steps of a system, and the system that they leave.
#[derive(Debug, Drop)]
pub enum SimpSearch {
    Steps(Vec<Simp>, System),
    /// The budget was spent.
    Spent,
}

/// The standard steps, at exactly a unit for each try that was made, which are no more than the tries of all systems met;
/// `Spent` only where these are more than the budget had left, and then nothing is left.
pub fn find_steps(alloc: Global, sys: &System, budget: &mut Budget) -> Result<SimpSearch, NoMemory>
    ensures { FindAnswers sys.now budget.old budget.new result }
{
    let mut current = copied(alloc, sys)?;
    let mut steps = Vec::new(alloc);
    // Each round but the last spends a unit.
    'rounds: loop {
        match walk_through(alloc, &current, budget)? {
            Sought::Found(made) => {
                let Made { step, change } = made;
                steps.push(step)?;
                current = changed(current, change);
            }
            Sought::Nothing => return Ok(SimpSearch::Steps(steps, current)),
            Sought::Spent => return Ok(SimpSearch::Spent),
        }
    }
}
