//! The terms that are reached, for a line of `lists.txt`, each with its derivation, and what is left of the budget and spent. Where there is a
//! list, the question is asked again with its cost as the budget, and with one unit less.
//!
//! A question is a line `STEPS DEPTH BUDGET; RULES; START`, or with `; HYPOTHESES` behind it, in the notation of files, over the
//! variables x, y and z. With `first ` before it the hypotheses are conditions instead, and their first solution is told.
ghost use Rattle.std.specs.Prelude.{IsTrue, map};
ghost use Rattle.certificates.specs.Sizes.{DoConditionsFit};
ghost use Rattle.term_core.specs.RuleView.{condition_view};

use crate::questions::Question;
use cc_count::Budget;
use cert_model::{Derivation, Step};
use cops_read::Names;
use cops_write::write_term;
use flatterm::Work;
use reach::{ReachStop, Reached, reach};
use std::alloc::{AllocError, Global};
use term_core::{Cond, Term, fits};

// of a longer list only the first and the last terms are told
const LONGEST: usize = 20;

// a longer term is told by its length
const WIDEST: usize = 60;

/// The answer to the question of a line.
pub fn of_question(alloc: Global, question: &Question) -> Result<String, AllocError> {
    let mut budget = Budget::new(question.budget);
    let mut work = Work::new();
    let mut out = String::new(alloc);
    match list_for(alloc, question, &mut budget, &mut work) {
        Ok(list) => {
            put_list(alloc, &mut out, question, &list)?;
            let cost = budget.spent();
            if !is_exact(alloc, question, cost) {
                out.push_str("; the cost is not exact")?;
            }
        }
        Err(stop) => out.push_str(format!(in alloc; "{stop:?}")?.as_str())?,
    }
    let (left, spent) = (budget.left(), budget.spent());
    let splices = work.splices();
    out.push_str(format!(in alloc; "; left {left}, spent {spent}, spliced {splices}")?.as_str())?;
    Ok(out)
}

/// Whether both sides of all these conditions fit.
#[tactic(auto, using(crate::proofs::Conditions::all_fit))]
pub fn do_fit(conds: &[Cond]) -> bool
    ensures { IsTrue result → DoConditionsFit (map condition_view conds.now) }
{
    let Some((cond, rest)) = conds.split_first() else {
        return true;
    };
    if !fits(&cond.left) {
        return false;
    }
    if !fits(&cond.right) {
        return false;
    }
    do_fit(rest)
}

// The list, or that the budget is spent or memory is refused; so for a start that does not fit.
fn list_for(
    alloc: Global,
    question: &Question,
    budget: &mut Budget,
    work: &mut Work,
) -> Result<Vec<Reached>, ReachStop> {
    let Some((start, hyps)) = question.asked() else {
        return Err(ReachStop::NoMemory);
    };
    if hyps.len() > 100 || !fits(start) || !do_fit(hyps) {
        return Err(ReachStop::NoMemory);
    }
    let (steps, depth) = (question.steps, question.depth);
    reach(
        alloc,
        &question.sys,
        hyps,
        start,
        steps,
        depth,
        budget,
        work,
    )
}

// Whether a budget of the cost is enough, and one unit less is not, and nothing is left either way.
fn is_exact(alloc: Global, question: &Question, cost: u64) -> bool {
    let mut enough = Budget::new(cost);
    let mut less = Budget::new(cost.saturating_sub(1));
    let mut work = Work::new();
    let found = list_for(alloc, question, &mut enough, &mut work);
    let stopped = list_for(alloc, question, &mut less, &mut work);
    found.is_ok()
        && matches!(stopped, Err(ReachStop::Spent))
        && enough.left() == 0
        && less.left() == 0
}

fn put_list(
    alloc: Global,
    out: &mut String,
    question: &Question,
    list: &[Reached],
) -> Result<(), AllocError> {
    let last = list.len().saturating_sub(1);
    if last >= LONGEST {
        out.push_str(format!(in alloc; "{} terms: ", list.len())?.as_str())?;
    }
    for (i, reached) in list.iter().enumerate() {
        if last < LONGEST || i == 0 || i == last {
            if i > 0 {
                out.push_str("; ")?;
            }
            put_term(alloc, out, question, &reached.term)?;
            put_derivation(alloc, out, &reached.by)?;
        }
    }
    Ok(())
}

/// Puts the text of a term last, or its length where that is long.
pub fn put_term(
    alloc: Global,
    out: &mut String,
    question: &Question,
    t: &Term,
) -> Result<(), AllocError> {
    let number = u32::try_from(question.sys.rules().len()).unwrap_or(0);
    let mut text = Vec::new(alloc);
    if !fits(t) || write_term(alloc, &question.names, number, t, &mut text).is_err() {
        return out.push_str("?");
    }
    if text.len() > WIDEST {
        return out.push_str(format!(in alloc; "a term of {} bytes", text.len())?.as_str());
    }
    out.push_str(std::str::from_utf8(&text).unwrap_or("?"))
}

/// Puts the steps last in square brackets, each as the number of its rule, or `h` and that of its hypothesis, at its position, with
/// the derivations of the conditions behind it.
pub fn put_derivation(alloc: Global, out: &mut String, d: &Derivation) -> Result<(), AllocError> {
    out.push_str(" [")?;
    for (i, step) in d.steps.iter().enumerate() {
        if i > 0 {
            out.push_str(", ")?;
        }
        match step {
            Step::Rule { rule, pos, conds } => {
                out.push_str(format!(in alloc; "{rule}@")?.as_str())?;
                put_position(alloc, out, pos)?;
                for cond in conds {
                    put_derivation(alloc, out, cond)?;
                }
            }
            Step::Hyp { number, pos } => {
                out.push_str(format!(in alloc; "h{number}@")?.as_str())?;
                put_position(alloc, out, pos)?;
            }
        }
    }
    out.push_str("]")
}

fn put_position(alloc: Global, out: &mut String, pos: &[u32]) -> Result<(), AllocError> {
    if pos.is_empty() {
        return out.push_str("e");
    }
    for (i, k) in pos.iter().enumerate() {
        if i > 0 {
            out.push_str(".")?;
        }
        out.push_str(format!(in alloc; "{k}")?.as_str())?;
    }
    Ok(())
}
