//! What is told of the first solution of conditions.
use crate::answers::{do_fit, put_derivation, put_term};
use crate::questions::Question;
use cc_count::Budget;
use flatterm::Work;
use reach::{ReachStop, Solution, first_solution};
use rule_index::IndexedSystem;
use std::alloc::{AllocError, Global};
use term_core::Subst;

// so many variables may have values that are told
const VARIABLES: u32 = 3;

/// The first solution of the hypotheses of a line's question, taken as conditions: the values of variables by number, and a
/// derivation for each condition.
pub fn of_question(alloc: Global, question: &Question) -> Result<String, AllocError> {
    let mut budget = Budget::new(question.budget);
    let mut out = String::new(alloc);
    match solution_for(alloc, question, &mut budget) {
        Ok(Some(solution)) => put_solution(alloc, &mut out, question, &solution)?,
        Ok(None) => out.push_str("none")?,
        Err(stop) => out.push_str(format!(in alloc; "{stop:?}")?.as_str())?,
    }
    let (left, spent) = (budget.left(), budget.spent());
    out.push_str(format!(in alloc; "; left {left}, spent {spent}")?.as_str())?;
    Ok(out)
}

// The first solution, or that the budget is spent or memory is refused; so for conditions that do not fit.
fn solution_for(
    alloc: Global,
    question: &Question,
    budget: &mut Budget,
) -> Result<Option<Solution>, ReachStop> {
    let Some((_, conds)) = question.asked() else {
        return Err(ReachStop::NoMemory);
    };
    if !do_fit(conds) {
        return Err(ReachStop::NoMemory);
    }
    let sys = IndexedSystem::new(alloc, &question.sys)?;
    let none = Subst::new(alloc);
    first_solution(
        alloc,
        &sys,
        conds,
        &none,
        question.depth,
        budget,
        &mut Work::new(),
    )
}

fn put_solution(
    alloc: Global,
    out: &mut String,
    question: &Question,
    solution: &Solution,
) -> Result<(), AllocError> {
    for x in 0..VARIABLES {
        if let Some(value) = solution.values.get(x) {
            out.push_str(format!(in alloc; "|{x} is ")?.as_str())?;
            put_term(alloc, out, question, value)?;
            out.push_str(";")?;
        }
    }
    for by in &solution.by {
        put_derivation(alloc, out, by)?;
    }
    Ok(())
}
