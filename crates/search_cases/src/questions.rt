//! The question that a line asks.
use crate::lines::expanded;
use cops_read::{Names, read_system};
use std::alloc::{AllocError, Global};
use term_core::{Cond, System, Term};

/// The rules, behind which stands one more: its left side is a new symbol over the start, and its conditions are the hypotheses. It
/// is used nowhere, since no other term has this symbol.
#[derive(Drop)]
pub struct Question {
    pub steps: u32,
    pub depth: u32,
    pub budget: u64,
    pub sys: System,
    pub names: Names,
}

impl Question {
    /// The start and the hypotheses.
    pub fn asked(&self) -> Option<(&Term, &[Cond])> {
        let last = self.sys.rules().last()?;
        match &last.left {
            Term::Fun(_, args) => Some((args.first()?, &last.conds)),
            Term::Var(_) => None,
        }
    }
}

/// The question of a line, or none where it is not in the notation.
pub fn question_of(alloc: Global, line: &str) -> Result<Option<Question>, AllocError> {
    let mut parts = line.split(';');
    let mut numbers = parts.next().unwrap_or("").split_whitespace();
    let steps = numbers.next().and_then(|word| word.parse::<u32>().ok());
    let depth = numbers.next().and_then(|word| word.parse::<u32>().ok());
    let budget = numbers.next().and_then(|word| word.parse::<u64>().ok());
    let rules = expanded(alloc, parts.next().unwrap_or(""))?;
    let start = expanded(alloc, parts.next().unwrap_or(""))?;
    let bar = if line.split(';').count() > 3 { "|" } else { "" };
    let hypotheses = parts.next().unwrap_or("");
    let text = format!(in alloc;
        "(CONDITIONTYPE ORIENTED)(VAR x y z)(RULES {rules} ask({start}) -> asked {bar} {hypotheses})"
    )?;
    let (Some(steps), Some(depth), Some(budget)) = (steps, depth, budget) else {
        return Ok(None);
    };
    match read_system(alloc, text.as_bytes()) {
        Ok((sys, names)) => Ok(Some(Question {
            steps,
            depth,
            budget,
            sys,
            names,
        })),
        Err(_) => Ok(None),
    }
}
