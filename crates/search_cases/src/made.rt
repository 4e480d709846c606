//! What steps make of a system, or which steps are found, for a line of `steps.txt`.
//!
//! `simplify; STEPS; FILE` makes the steps, written as in `drop 1 tcap, drop 1 auto 2, inline 2 1`, where `auto K` is the automaton
//! that grows in FILE from the left side of condition K: the answer is the rules, with `|K` for the variable K of a rule, and how
//! many symbols are the file's, or the first step that is not good, and why.
//! `steps BUDGET; FILE` finds the standard steps: the answer is these, the rules that they leave, and what is left of the budget and
//! was spent. Where they are found, they are asked for again with so many units as were spent, and with one unit less.
use crate::files::file_of;
use crate::told::{put_rules, put_steps};
use automaton_grow::grow;
use cc_count::Budget;
use cert_model::InfEvidence;
use cops_read::Names;
use simplify::{Simp, simplify};
use std::alloc::{AllocError, Global};
use step_search::{SimpSearch, find_steps};
use term_core::{System, fits};

// The automaton that grows from the left side of a condition, as evidence.
fn grown(alloc: Global, sys: &System, rule: u32, cond: u32) -> Option<InfEvidence> {
    let asked = sys
        .rules()
        .get((rule as usize).checked_sub(1)?)?
        .conds
        .get((cond as usize).checked_sub(1)?)?;
    if !fits(&asked.left) {
        return None;
    }
    match grow(alloc, sys, &asked.left) {
        Ok(automaton) => Some(InfEvidence::Auto { cond, automaton }),
        Err(_) => None,
    }
}

// The step of some words.
fn step_of(alloc: Global, sys: &System, text: &str) -> Option<Simp> {
    let mut words = text.split_whitespace();
    let kind = words.next()?;
    let rule = words.next()?.parse::<u32>().ok()?;
    let third = words.next()?;
    if kind == "inline" {
        let cond = third.parse::<u32>().ok()?;
        return Some(Simp::Inline { rule, cond });
    }
    if third == "tcap" {
        let evidence = InfEvidence::Tcap;
        return Some(Simp::Drop { rule, evidence });
    }
    let cond = words.next()?.parse::<u32>().ok()?;
    let evidence = grown(alloc, sys, rule, cond)?;
    Some(Simp::Drop { rule, evidence })
}

fn steps_of(alloc: Global, sys: &System, text: &str) -> Result<Option<Vec<Simp>>, AllocError> {
    let mut steps = Vec::new(alloc);
    for piece in text.split(',') {
        let Some(step) = step_of(alloc, sys, piece) else {
            return Ok(None);
        };
        steps.push(step)?;
    }
    Ok(Some(steps))
}

// What the steps make of the file.
fn of_steps(alloc: Global, steps: &str, file: &str) -> Result<String, AllocError> {
    let Some((sys, names)) = file_of(alloc, file)? else {
        return String::from_str(alloc, "no file");
    };
    let Some(steps) = steps_of(alloc, &sys, steps)? else {
        return String::from_str(alloc, "no steps");
    };
    match simplify(alloc, &sys, &steps) {
        Ok(last) => {
            let mut out = String::new(alloc);
            put_rules(alloc, &mut out, &names, &last)?;
            Ok(out)
        }
        Err(e) => format!(in alloc; "{e:?}"),
    }
}

// The standard steps of the file.
fn of_search(alloc: Global, units: u64, file: &str) -> Result<String, AllocError> {
    let Some((sys, names)) = file_of(alloc, file)? else {
        return String::from_str(alloc, "no file");
    };
    let mut budget = Budget::new(units);
    let mut out = String::new(alloc);
    match find_steps(alloc, &sys, &mut budget) {
        Ok(SimpSearch::Steps(steps, last)) => {
            put_found(alloc, &mut out, &names, &steps, &last)?;
            if !is_exact(alloc, &sys, budget.spent()) {
                out.push_str("; the units are not exact")?;
            }
        }
        Ok(SimpSearch::Spent) => out.push_str("spent")?,
        Err(_) => out.push_str("no memory")?,
    }
    let (left, spent) = (budget.left(), budget.spent());
    out.push_str(format!(in alloc; "; left {left}, spent {spent}")?.as_str())?;
    Ok(out)
}

fn put_found(
    alloc: Global,
    out: &mut String,
    names: &Names,
    steps: &[Simp],
    last: &System,
) -> Result<(), AllocError> {
    put_steps(alloc, out, steps)?;
    out.push_str("; ")?;
    put_rules(alloc, out, names, last)
}

// Whether so many units are enough, and one less is not, and nothing is left either way.
fn is_exact(alloc: Global, sys: &System, spent: u64) -> bool {
    let mut enough = Budget::new(spent);
    let mut less = Budget::new(spent.saturating_sub(1));
    let found = find_steps(alloc, sys, &mut enough);
    let stopped = find_steps(alloc, sys, &mut less);
    matches!(found, Ok(SimpSearch::Steps(_, _)))
        && (spent == 0 || matches!(stopped, Ok(SimpSearch::Spent)))
        && enough.left() == 0
        && less.left() == 0
}

/// What is told of a line.
pub fn of_line(alloc: Global, line: &str) -> Result<String, AllocError> {
    let (asked, rest) = line.split_once("; ").unwrap_or((line, ""));
    if asked == "simplify" {
        let (steps, file) = rest.split_once("; ").unwrap_or((rest, ""));
        return of_steps(alloc, steps, file);
    }
    let budget = asked
        .strip_prefix("steps ")
        .and_then(|word| word.parse::<u64>().ok());
    match budget {
        Some(budget) => of_search(alloc, budget, rest),
        None => String::from_str(alloc, "no question"),
    }
}
