//! Prints what is judged of systems and certificates that no run of the program judges: by a measure that is no interpretation,
//! of an interpretation of a system that is not deterministic, of the first entries of an interpretation, of a conflict by
//! a right side that rules contract, since a certificate with it is rejected for its class, of a peak that ends at a term
//! with a symbol that is not the file's, of certificates behind steps, and of their texts. The cases of `run_cases` have all else.
//!
//! A case is a line `CALL: SYSTEM` of `data/cases.txt`. Other lines are printed as they are.
#![tactic(auto)]

mod behind;
mod foreign;
mod measures;
mod prefixes;
mod texts;

use behind::print_behind;
use cert_model::PairEvidence;
use cops_read::read_system;
use critical_pairs::overlaps_in;
use infeasible::JudgeByKind;
use measures::{NoRules, print_linear};
use pair_check::{CertKind, judge_evidence};
use prefixes::print_prefixes;
use prepared_system::PreparedSystem;
use quasi_check::check_quasi;
use rule_index::IndexedSystem;
use std::{fs, io};
use term_core::System;
use texts::print_text;

// What is said of a conflict of the first conditions at the only overlap.
fn print_conflict(rt: &HostRuntime, sys: &System) -> io::Result<()> {
    let alloc = rt.alloc();
    let Ok(indexed) = IndexedSystem::new(alloc, sys) else {
        return println!(rt; "no index");
    };
    let Ok(prepared) = PreparedSystem::new(alloc, indexed) else {
        return println!(rt; "not prepared");
    };
    let Ok(found) = overlaps_in(alloc, &prepared) else {
        return println!(rt; "no list");
    };
    let [overlap] = found.as_slice() else {
        return println!(rt; "not one overlap");
    };
    let evidence = PairEvidence::Conflict { inner: 1, outer: 1 };
    let mut judge = JudgeByKind::new();
    let answer = judge_evidence(
        alloc,
        &prepared,
        CertKind::Ortho,
        overlap,
        &evidence,
        &mut judge,
    );
    println!(rt; "{answer:?}")
}

fn print_case(rt: &HostRuntime, line: &str) -> io::Result<()> {
    println!(rt; "{line}")?;
    let Some((call, text)) = line.split_once(": ") else {
        return Ok(());
    };
    if call == "behind" {
        return print_behind(rt, text);
    }
    if call == "foreign" || call == "text" {
        return print_text(rt, text, call == "foreign");
    }
    let Ok((sys, _)) = read_system(rt.alloc(), text.as_bytes()) else {
        return println!(rt; "no system");
    };
    match call {
        "quasi" => println!(rt; "{:?}", check_quasi(rt.alloc(), &sys, &NoRules, &[])),
        "linear" => print_linear(rt, &sys),
        "prefix" => print_prefixes(rt, &sys),
        _ => print_conflict(rt, &sys),
    }
}

fn main(rt: HostRuntime) -> io::Result<()> {
    let text = fs::read_to_string(&rt, "cases.txt")?;
    for line in text.as_str().lines() {
        print_case(&rt, line)?;
    }
    Ok(())
}
