//! Prints what calls answer to the systems and terms in `data/cases.txt`: calls of the lower crates that take memory, where
//! they succeed, and worked examples from the text of a system to the answer of a call.
//!
//! A case is a line `CALL: SYSTEM`, or `CALL` alone, where CALL is a word with numbers behind it. The last rule of a system
//! may only name terms: where a call is asked of terms, they are the arguments of its left side, without the first, which is
//! there for its variables. Other lines are printed as they are.
#![tactic(auto)]

mod of_joins;
mod of_numbers;
mod of_systems;
mod of_terms;

use cops_read::read_system;
use std::{fs, io};
use term_core::{System, Term};

// The arguments of the last left side, without the first.
fn terms_of(sys: &System) -> &[Term] {
    let Some(rule) = sys.rules().last() else {
        return &[];
    };
    match &rule.left {
        Term::Fun(_, args) => args.get(1..).unwrap_or(&[]),
        Term::Var(_) => &[],
    }
}

fn print_call(rt: &HostRuntime, call: &str, sys: &System) -> io::Result<()> {
    let terms = terms_of(sys);
    match call {
        "index" => of_systems::print_index(rt, sys),
        "overlaps" => of_systems::print_overlaps(rt, sys),
        "search" => of_systems::print_search(rt, sys),
        "pass" => of_systems::print_passes(rt, sys),
        "unravel" => of_systems::print_unraveled(rt, sys),
        "classes" => of_systems::print_classes(rt, sys),
        "same_rules" => of_joins::print_with_rules(rt, sys, true),
        "other_rules" => of_joins::print_with_rules(rt, sys, false),
        "irreducible" => of_systems::print_irreducible(rt, sys, terms),
        "number" => of_terms::print_numbered(rt, terms),
        "term" => of_terms::print_terms(rt, terms),
        _ => of_terms::print_call(rt, call, terms),
    }
}

fn print_case(rt: &HostRuntime, line: &str) -> io::Result<()> {
    println!(rt; "{line}")?;
    let Some((call, text)) = line.split_once(": ") else {
        return of_numbers::print_call(rt, line);
    };
    match read_system(rt.alloc(), text.as_bytes()) {
        Ok((sys, _)) => {
            if call == "parts" {
                return of_joins::print_parts(rt, sys);
            }
            print_call(rt, call, &sys)
        }
        Err(e) => println!(rt; "{e}"),
    }
}

fn main(rt: HostRuntime) -> io::Result<()> {
    let text = fs::read_to_string(&rt, "cases.txt")?;
    for line in text.as_str().lines() {
        print_case(&rt, line)?;
    }
    Ok(())
}
