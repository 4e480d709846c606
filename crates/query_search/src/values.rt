//! One assignment of values to the open variables: derivations under it that meet the conditions in turn.
ghost use Rattle.std.specs.Prelude.{◌≡◌, ◌∷◌, [], IfOk, map, option_map};
ghost use Rattle.std.specs.List.{range_with_len};
ghost use Rattle.rewriting.specs.Prelude.{sides, values_of};
ghost use Rattle.certificates.specs.Sizes.{DoConditionsFit};
ghost use Rattle.term_core.specs.Prelude.{view, condition_view};
ghost use Rattle.reach.specs.SolutionView.{solution_view};
ghost use Rattle.query_space.specs.Items as items;
ghost use Rattle.query_space.specs.Variables.{past_all_variables};
ghost use Rattle.query_search.specs.Answers.{FirstAnswers, WalkAnswers};

use crate::reply::Reply;
use cc_count::Budget;
use flatterm::Work;
use reach::{ReachStop, Solution, first_solution};
use rule_index::IndexedSystem;
use std::alloc::Global;
use term_core::{Cond, NoMemory, Subst, Term, try_clone};

// The condition depth of the conditions themselves: one more than that of their lists.
const COND_DEPTH: u32 = 3;

// The value of a variable, or itself.
fn value_of(alloc: Global, values: &Subst, x: u32) -> Result<Term, NoMemory>
    ensures { IfOk result (λ t. view t ≡ values_of values.now x) }
{
    match values.get(x) {
        Some(t) => try_clone(alloc, t),
        None => Ok(Term::Var(x)),
    }
}

// The values of the first variables, by number.
fn listed_values(alloc: Global, values: &Subst, count: u32) -> Result<Vec<Term>, NoMemory>
    ensures { IfOk result (λ ts. map view ts.items ≡ map (values_of values.now) (range_with_len 0 count)) }
{
    let mut out = Vec::new(alloc);
    'numbers: for x in 0..count {
        out.push(value_of(alloc, values, x)?)?;
    }
    Ok(out)
}

// What a full substitution carries, if there is one.
fn carried(
    alloc: Global,
    conds: &[Cond],
    count: u32,
    full: Option<Solution>,
) -> Result<Reply, NoMemory>
    requires counted { count ≡ past_all_variables (sides (map condition_view conds.now)) }
    ensures { FirstAnswers (map condition_view conds.now) (option_map solution_view full) result }
{
    match full {
        Some(s) => {
            let values = listed_values(alloc, &s.values, count)?;
            Ok(Reply::Meets(values, s.by))
        }
        None => Ok(Reply::Exhausted),
    }
}

/// Tries the values, for a unit and the costs of the lists.
pub(crate) fn try_values(
    alloc: Global,
    sys: &IndexedSystem<'_>,
    conds: &[Cond],
    count: u32,
    values: &Subst,
    budget: &mut Budget,
) -> Result<Reply, NoMemory>
    requires fit { DoConditionsFit (map condition_view conds.now) }
    requires counted { count ≡ past_all_variables (sides (map condition_view conds.now)) }
    ensures { WalkAnswers sys.now (map condition_view conds.now) (items.try_values values.now ∷ []) budget.old budget.new result }
{
    if !budget.take() {
        return Ok(Reply::Spent);
    }
    let mut work = Work::new();
    match first_solution(alloc, sys, conds, values, COND_DEPTH, budget, &mut work) {
        Ok(full) => carried(alloc, conds, count, full),
        Err(ReachStop::Spent) => Ok(Reply::Spent),
        Err(ReachStop::NoMemory) => Err(NoMemory),
    }
}
