//! The search for the answer to a query of a system: evidence that the conditions are never met, or values under which they are
//! met, with a derivation for each.
#![tactic(auto)]

mod assignments;
mod choices;
mod occurring;
mod refuting;
mod reply;
mod values;

ghost use Rattle.std.specs.Prelude.{◌≡◌, ◌≤◌, ◌*◌, ℕ, length, map};
ghost use Rattle.rewriting.specs.Prelude.{sides, variables_of, CountsFrom};
ghost use Rattle.certificates.specs.Prelude.{DoConditionsFit, AreConditionsOver};
ghost use Rattle.term_core.specs.RuleView.{condition_view};
ghost use Rattle.cc_count.specs.Counts.{Spends};
ghost use Rattle.query_search.specs.Answers.{SearchAnswers, IsTrueReply, IsEmptyReply, IsAnswer, HasAnswerWithin, WalkAnswers};
ghost use Rattle.query_space.specs.Items as items;
ghost use Rattle.query_space.specs.Variables.{past_all_variables};

use crate::assignments::try_assignments;
use crate::refuting::try_evidences;
pub use crate::reply::Reply;
use cc_count::Budget;
use query_terms::Query;
use rule_index::IndexedSystem;
use std::alloc::Global;
use term_core::{Cond, MAX_CONDITIONS, NoMemory, System};

// Tries all evidences, then all values.
fn try_all(
    alloc: Global,
    sys: &IndexedSystem<'_>,
    conds: &[Cond],
    count: u32,
    budget: &mut Budget,
) -> Result<Reply, NoMemory>
    requires few { length conds.now ≤ 2 * MAX_CONDITIONS }
    requires fit { DoConditionsFit (map condition_view conds.now) }
    requires counted { count ≡ past_all_variables (sides (map condition_view conds.now)) }
    ensures { WalkAnswers sys.now (map condition_view conds.now) (items.query_items sys.now (map condition_view conds.now)) budget.old budget.new result }
{
    match try_evidences(alloc, sys, conds, budget)? {
        Reply::Exhausted => try_assignments(alloc, sys, conds, count, budget),
        end => Ok(end),
    }
}

/// Answers a query. First evidence is tried that the conditions are never met: caps, then the automata that grow from the
/// left sides. Then values are tried for the variables that occur in a left side and in no right side before: each has itself
/// or one of the constants. Under these the conditions are met in turn, by the terms that the left sides reach in 5 steps with
/// condition depth 2. The first answer is taken, for exactly its price.
pub fn answer(
    alloc: Global,
    sys: &System,
    q: &Query,
    budget: &mut Budget,
) -> Result<Reply, NoMemory>
    requires over { AreConditionsOver sys.now.arities (map condition_view q.now.conds.items) }
    requires few { length q.now.conds.items ≤ 2 * MAX_CONDITIONS }
    requires fit { DoConditionsFit (map condition_view q.now.conds.items) }
    requires numbered { CountsFrom 0 (variables_of (sides (map condition_view q.now.conds.items))) }
    requires named { length q.now.names.items ≡ length (variables_of (sides (map condition_view q.now.conds.items))) }
    ensures searched { SearchAnswers sys.now (map condition_view q.now.conds.items) budget.old budget.new result }
    ensures says { IsTrueReply sys.now (map condition_view q.now.conds.items) result }
    ensures nothing { IsEmptyReply sys.now (map condition_view q.now.conds.items) result }
    ensures enough { HasAnswerWithin sys.now (map condition_view q.now.conds.items) budget.old.left → IsAnswer result }
{
    sys.rules_are_sound();
    let indexed = IndexedSystem::new(alloc, sys)?;
    let count = q.names.len() as u32;
    try_all(alloc, &indexed, &q.conds, count, budget)
}
