//! Answers of calls on automata.

use automaton_grow::grow;
use automaton_runs::{
    AutomatonIndex, Choices, arrivals, has_more_choices, occurrences, reached,
    reached_by_occurrences,
};
use cert_model::Automaton;
use number_sets::NumberRelation;
use std::alloc::Global;
use std::io;
use term_core::{NoMemory, System, Term, fits};
use tree_automata::{Runs, excludes, is_closed};

/// What is said of the automaton, and of a term with it.
pub fn print_runs(rt: &HostRuntime, sys: &System, a: &Automaton, t: &Term) -> io::Result<()> {
    println!(rt; "closed: {:?}", is_closed(rt.alloc(), sys, a))?;
    if !fits(t) {
        return println!(rt; "the term does not fit");
    }
    println!(rt; "excludes: {:?}", excludes(rt.alloc(), a, t))?;
    if a.states < 5 {
        println!(rt; "accepts, marks: {:?}", marks(rt.alloc(), a, t))?;
    }
    match AutomatonIndex::new(rt.alloc(), None, a) {
        Ok(index) => print_arrivals(rt, &index, t),
        Err(_) => println!(rt; "no memory"),
    }
}

// Whether a term is accepted, and which of the states it reaches.
fn marks(alloc: Global, a: &Automaton, t: &Term) -> Result<(bool, Vec<bool>), NoMemory> {
    let mut marks = Vec::new(alloc);
    for _ in 0..a.states {
        marks.push(true)?;
    }
    if !fits(t) || a.states as usize != marks.len() {
        return Err(NoMemory);
    }
    let accepted = a.reaches(alloc, t, &mut marks)?;
    Ok((accepted, marks))
}

// The arrivals of a term, and the choices by which there may be some.
fn print_arrivals(rt: &HostRuntime, index: &AutomatonIndex<'_>, t: &Term) -> io::Result<()> {
    let alloc = rt.alloc();
    let Ok(names) = occurrences(alloc, t) else {
        return println!(rt; "no memory");
    };
    if !fits(t) || has_more_choices(index.states(), names.len(), 1_000_000) {
        return println!(rt; "many choices");
    }
    println!(rt; "arrivals: {:?}", arrivals(alloc, index, t))?;
    let Ok(choices) = Choices::new(alloc, index, t) else {
        return println!(rt; "no memory");
    };
    println!(rt; "{} fronts", choices.fronts().len())?;
    for front in choices.fronts().iter().take(3) {
        print_batch(rt, index, &choices, front, t)?;
    }
    Ok(())
}

// Some of the choices with a front, and the states that a term reaches by them, for its occurrences of variables and for its
// variables.
fn print_batch(
    rt: &HostRuntime,
    index: &AutomatonIndex<'_>,
    choices: &Choices,
    front: &[u32],
    t: &Term,
) -> io::Result<()> {
    let alloc = rt.alloc();
    let Ok(batch) = choices.batch(alloc, front) else {
        return println!(rt; "no memory");
    };
    let Ok(names) = occurrences(alloc, t) else {
        return println!(rt; "no memory");
    };
    println!(rt; "{} choices with {front:?}", batch.len())?;
    for k in 0..batch.len().min(2) {
        println!(rt; "{k}: {:?}", batch.choice(alloc, k))?;
    }
    if !fits(t) || batch.occurrences() != names.len() {
        return println!(rt; "other names");
    }
    if let Ok(found) = reached_by_occurrences(alloc, index, &batch, t) {
        print_rows(rt, "by occurrences", index.states(), &found)?;
    }
    if let Ok(found) = reached(alloc, index, &batch, &names, t) {
        print_rows(rt, "by names", index.states(), &found)?;
    }
    Ok(())
}

/// The numbers of each state that has some.
pub fn print_rows(
    rt: &HostRuntime,
    by: &str,
    states: u32,
    found: &NumberRelation,
) -> io::Result<()> {
    for state in 0..states {
        if let Some(row) = found.row(state) {
            println!(rt; "{by} at {state}: {:?}", row.numbers(rt.alloc()))?;
        }
    }
    Ok(())
}

/// The automaton that grows, or why none does. Its transitions are listed where they are few.
pub fn print_grown(rt: &HostRuntime, sys: &System, t: &Term) -> io::Result<()> {
    if !fits(t) {
        return println!(rt; "the term does not fit");
    }
    match grow(rt.alloc(), sys, t) {
        Ok(automaton) => {
            let transitions = automaton.transitions.len();
            println!(rt; "{} states, {transitions} transitions", automaton.states)?;
            if transitions < 20 {
                println!(rt; "{automaton:?}")?;
            }
            Ok(())
        }
        Err(e) => println!(rt; "{e:?}"),
    }
}
