//! Automata by their transitions, where no text of a certificate spells them: with transitions that do not count, with too many
//! states or none.

use crate::runs::{print_rows, print_runs};
use automaton_runs::{AutomatonIndex, Choices, has_more_choices, occurrences, reached};
use cert_model::{Automaton, Transition};
use cops_read::read_system;
use std::alloc::Global;
use std::io;
use term_core::{NoMemory, Term, fits};

// Of a line with a symbol, or a word that is no number, the target and the states of the arguments.
fn transition_of(alloc: Global, line: &str) -> Result<Transition, NoMemory> {
    let mut words = line.split_whitespace();
    let symbol = words.next().and_then(|word| word.parse::<u32>().ok());
    let target = words.next().and_then(|word| word.parse::<u32>().ok());
    let mut args = Vec::new(alloc);
    for word in words {
        args.push(word.parse().unwrap_or(0))?;
    }
    Ok(Transition {
        symbol,
        args,
        target: target.unwrap_or(0),
    })
}

// Of a line with the number of states, and a line for each transition. States 1 and 7 accept.
fn automaton_of(alloc: Global, text: &str) -> Result<Automaton, NoMemory> {
    let (states, lines) = text.split_once('\n').unwrap_or((text, ""));
    let mut transitions = Vec::new(alloc);
    for line in lines.lines() {
        transitions.push(transition_of(alloc, line)?)?;
    }
    Ok(Automaton {
        states: states.parse().unwrap_or(0),
        accepting: Vec::from_array(alloc, [1, 7])?,
        transitions,
    })
}

/// What is said of the automaton of the second text with the last left side of the system.
pub fn print_moves(rt: &HostRuntime, system: &str, automaton: &str) -> io::Result<()> {
    let Ok((sys, _)) = read_system(rt.alloc(), system.as_bytes()) else {
        return println!(rt; "no system");
    };
    let Some(rule) = sys.rules().last() else {
        return println!(rt; "no term");
    };
    match automaton_of(rt.alloc(), automaton) {
        Ok(automaton) => {
            print_runs(rt, &sys, &automaton, &rule.left)?;
            print_indexed(rt, &automaton, &rule.left)
        }
        Err(_) => println!(rt; "no memory"),
    }
}

// Whether there is the transition, to each of the first two states.
fn print_known<'a>(
    rt: &HostRuntime,
    index: &AutomatonIndex<'a>,
    known: &'a Transition,
) -> io::Result<()> {
    let zero = index.has(known.symbol, &known.args, 0);
    let one = index.has(known.symbol, &known.args, 1);
    println!(rt;
        "{:?} {:?} to 0: {zero}, to 1: {one}",
        known.symbol, known.args
    )
}

// How many transitions have the number.
fn print_counts(rt: &HostRuntime, index: &AutomatonIndex<'_>, n: u32) -> io::Result<()> {
    let symbols = index.with_symbol(n).len();
    let firsts = index.with_first(n).len();
    let targets = index.with_target(n).len();
    println!(rt; "with {n}: {symbols} as symbol, {firsts} as first, {targets} as target")
}

// By the index which transitions there are, and what a term reaches where only its first variable has a name.
fn print_indexed(rt: &HostRuntime, a: &Automaton, t: &Term) -> io::Result<()> {
    let Ok(index) = AutomatonIndex::new(rt.alloc(), None, a) else {
        return println!(rt; "no memory");
    };
    for known in &a.transitions {
        print_known(rt, &index, known)?;
    }
    print_counts(rt, &index, 0)?;
    print_counts(rt, &index, 1)?;
    print_named(rt, &index, t)
}

// So often the first name.
fn first_names(alloc: Global, names: &[u32]) -> Result<Vec<u32>, NoMemory> {
    let mut firsts = Vec::new(alloc);
    for _ in names {
        firsts.push(names[0])?;
    }
    Ok(firsts)
}

fn print_named(rt: &HostRuntime, index: &AutomatonIndex<'_>, t: &Term) -> io::Result<()> {
    let alloc = rt.alloc();
    let Ok(names) = occurrences(alloc, t) else {
        return println!(rt; "no memory");
    };
    if !fits(t) || has_more_choices(index.states(), names.len(), 1_000_000) {
        return Ok(());
    }
    match (Choices::new(alloc, index, t), first_names(alloc, &names)) {
        (Ok(choices), Ok(firsts)) => print_firsts(rt, index, &choices, &firsts, t),
        _ => println!(rt; "no memory"),
    }
}

fn print_firsts(
    rt: &HostRuntime,
    index: &AutomatonIndex<'_>,
    choices: &Choices,
    firsts: &[u32],
    t: &Term,
) -> io::Result<()> {
    for front in choices.fronts() {
        match choices.batch(rt.alloc(), front) {
            Ok(batch) if firsts.len() == batch.occurrences() => {
                if let Ok(found) = reached(rt.alloc(), index, &batch, firsts, t) {
                    print_rows(rt, "by the first name", index.states(), &found)?;
                }
            }
            _ => println!(rt; "no batch")?,
        }
    }
    Ok(())
}
