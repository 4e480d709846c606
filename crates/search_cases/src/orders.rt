//! What is judged of precedences and of their first symbols, and which one a search finds.
//!
//! A case is a line `WORDS: SYSTEM` of `precedences.txt`: the heads of symbols, the greatest first, each a number, from 0, of a symbol of the file, or
//! `RULE.CONDITION` for an auxiliary one; or `prefixes`, or `search UNITS`. Other lines are printed as they are.
use crate::prefixes::print_prefixes;
use cc_count::Budget;
use cops_read::read_system;
use lpo::check_lpo;
use precedence_search::search_precedences;
use std::alloc::Global;
use std::{fs, io};
use term_core::{Head, NoMemory, System};

fn number(word: &str) -> u32 {
    word.parse().unwrap_or(u32::MAX)
}

fn head_of(word: &str) -> Head {
    match word.split_once('.') {
        Some((rule, cond)) => Head::Aux {
            rule: number(rule),
            cond: number(cond),
        },
        None => Head::File(number(word)),
    }
}

fn heads_of(alloc: Global, words: &str) -> Result<Vec<Head>, NoMemory> {
    let mut order = Vec::new(alloc);
    for word in words.split_whitespace() {
        order.push(head_of(word))?;
    }
    Ok(order)
}

fn print_judged(rt: &HostRuntime, sys: &System, words: &str) -> io::Result<()> {
    match heads_of(rt.alloc(), words) {
        Ok(order) => println!(rt; "{:?}", check_lpo(rt.alloc(), sys, &order)),
        Err(e) => println!(rt; "{e:?}"),
    }
}

fn print_searched(rt: &HostRuntime, sys: &System, units: &str) -> io::Result<()> {
    let mut budget = Budget::new(units.parse().unwrap_or(0));
    match search_precedences(rt.alloc(), sys, &mut budget) {
        Ok(found) => println!(rt; "{found:?}")?,
        Err(e) => println!(rt; "{e:?}")?,
    }
    println!(rt; "{}", budget.spent())
}

fn print_case(rt: &HostRuntime, line: &str) -> io::Result<()> {
    println!(rt; "{line}")?;
    let Some((words, text)) = line.split_once(": ") else {
        return Ok(());
    };
    let Ok((sys, _)) = read_system(rt.alloc(), text.as_bytes()) else {
        return println!(rt; "no system");
    };
    if words == "prefixes" {
        return print_prefixes(rt, &sys);
    }
    match words.split_once(' ') {
        Some(("search", units)) => print_searched(rt, &sys, units),
        _ => print_judged(rt, &sys, words),
    }
}

/// Prints what is said of each.
pub fn print_cases(rt: &HostRuntime) -> io::Result<()> {
    let text = fs::read_to_string(rt, "precedences.txt")?;
    for line in text.as_str().lines() {
        print_case(rt, line)?;
    }
    Ok(())
}
