//! The assignments of values to open variables, tried one after the other until one answers.
ghost use Rattle.std.specs.Prelude.{◌≡◌, map};
ghost use Rattle.rewriting.specs.Rules.{sides};
ghost use Rattle.certificates.specs.Sizes.{DoConditionsFit};
ghost use Rattle.term_core.specs.RuleView.{condition_view};
ghost use Rattle.query_space.specs.Items as items;
ghost use Rattle.query_space.specs.Variables.{past_all_variables};
ghost use Rattle.query_search.specs.Answers.{WalkAnswers};

use crate::choices::{Turns, chosen, constants_of};
use crate::occurring::open_variables;
use crate::reply::Reply;
use crate::values::try_values;
use cc_count::Budget;
use rule_index::IndexedSystem;
use std::alloc::Global;
use term_core::{Cond, NoMemory};

/// Tries all values of open variables: each has itself, then each of the constants.
pub(crate) fn try_assignments(
    alloc: Global,
    sys: &IndexedSystem<'_>,
    conds: &[Cond],
    count: u32,
    budget: &mut Budget,
) -> Result<Reply, NoMemory>
    requires fit { DoConditionsFit (map condition_view conds.now) }
    requires counted { count ≡ past_all_variables (sides (map condition_view conds.now)) }
    ensures { WalkAnswers sys.now (map condition_view conds.now) (items.value_items sys.now (map condition_view conds.now)) budget.old budget.new result }
{
    let open = open_variables(alloc, conds, count)?;
    let constants = constants_of(alloc, sys.system())?;
    let mut turns = Turns::new(alloc, open.len(), constants.len())?;
    'assignments: loop {
        let values = chosen(alloc, &open, &constants, &turns)?;
        match try_values(alloc, sys, conds, count, &values, budget)? {
            Reply::Exhausted => {}
            end => return Ok(end),
        }
        if !turns.turn() {
            return Ok(Reply::Exhausted);
        }
    }
}
