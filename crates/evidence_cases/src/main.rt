//! Prints what calls answer to the systems, terms and automata in `data/`: which automata are closed, what they exclude and what
//! reaches their states, how they grow, the caps of terms; and what sets of numbers and relations are. Each word that the program is given names a file of cases.
//!
//! A case begins with an empty line and a line of an equals sign and an account. Then come a system, a line with a dash,
//! and a certificate of a peak, which is not judged: its start is the term, and the evidence for its only redex has the automaton.
//! Where caps are asked for, the account begins with the number of the first hole. In the cases of sets and relations the two texts
//! are lists of numbers, or of pairs. The other files say which two texts they have.
#![tactic(auto)]

mod choices;
mod foreign;
mod moves;
mod numbers;
mod of_caps;
mod runs;

use cert_model::{Automaton, Certificate, InfEvidence, NonJoin, Peak};
use cert_text::read_cert;
use cops_read::read_system;
use std::{env, fs, io};
use term_core::System;

fn automaton_of(peak: &Peak) -> Option<&Automaton> {
    let NonJoin::Normal(redexes) = &peak.apart else {
        return None;
    };
    let [redex] = redexes.as_slice() else {
        return None;
    };
    match &redex.evidence {
        InfEvidence::Auto { automaton, .. } => Some(automaton),
        InfEvidence::Tcap => None,
    }
}

fn print_peak(
    rt: &HostRuntime,
    file: &str,
    title: &str,
    sys: &System,
    cert: &Certificate,
) -> io::Result<()> {
    let Certificate::Peak(peak) = cert else {
        return println!(rt; "no peak");
    };
    match (file, automaton_of(peak)) {
        ("growth" | "limit", _) => runs::print_grown(rt, sys, &peak.start),
        ("caps", _) => of_caps::print_caps(rt, title, sys, &peak.start),
        (_, Some(automaton)) => runs::print_runs(rt, sys, automaton, &peak.start),
        (_, None) => println!(rt; "no automaton"),
    }
}

fn print_texts(
    rt: &HostRuntime,
    file: &str,
    title: &str,
    system: &str,
    certificate: &str,
) -> io::Result<()> {
    match read_system(rt.alloc(), system.as_bytes()) {
        Ok((sys, names)) => match read_cert(rt.alloc(), &names, certificate.as_bytes()) {
            Ok(cert) => print_peak(rt, file, title, &sys, &cert),
            Err(e) => println!(rt; "certificate: {e}"),
        },
        Err(e) => println!(rt; "system: {e}"),
    }
}

fn print_case(rt: &HostRuntime, file: &str, part: &str) -> io::Result<()> {
    let (title, texts) = part.split_once('\n').unwrap_or((part, ""));
    let (first, second) = texts.split_once("\n-\n").unwrap_or((texts, ""));
    println!(rt; "= {title}")?;
    match file {
        "sets" => numbers::print_sets(rt, first, second),
        "made" => numbers::print_made(rt, first),
        "relations" => numbers::print_relations(rt, first, second),
        "choices" => choices::print_choices(rt, first),
        "moves" => moves::print_moves(rt, first, second),
        "foreign" => foreign::print_foreign(rt, title, first, second),
        "constants" => foreign::print_constants(rt, first, second),
        _ => print_texts(rt, file, title, first, second),
    }
}

fn main(rt: HostRuntime) -> io::Result<()> {
    for file in env::args(&rt)?.skip(1) {
        let text = fs::read_to_string(&rt, &file)?;
        for part in text.split("\n= ").skip(1) {
            print_case(&rt, &file, part)?;
        }
    }
    Ok(())
}
