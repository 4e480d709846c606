//! Answers of calls on terms.

use crate::of_numbers::numbers_of;
use matching::{Match, match_onto, match_owned, match_term};
use renumbering::Numbering;
use std::alloc::Global;
use std::io;
use term_core::{NoMemory, Subst, Term, TermError, equal, fits, replace, size, try_clone, vars};
use unification::{Unified, unify, unify_terms};

/// Whether each term fits, its variables, whether it equals the first one, and its copy.
pub fn print_terms(rt: &HostRuntime, terms: &[Term]) -> io::Result<()> {
    let alloc = rt.alloc();
    for t in terms {
        println!(rt;
            "{} {:?} {} {:?}",
            fits(t),
            vars(alloc, t),
            equal(t, &terms[0]),
            try_clone(alloc, t)
        )?;
    }
    Ok(())
}

/// The terms with their variables numbered anew, how many there are, and those with the first numbers.
pub fn print_numbered(rt: &HostRuntime, terms: &[Term]) -> io::Result<()> {
    let mut numbering = Numbering::new(rt.alloc());
    for t in terms {
        println!(rt; "{:?}", numbering.numbered(rt.alloc(), t))?;
    }
    println!(rt; "{}", numbering.len())?;
    for m in 0..3 {
        println!(rt; "{:?}", numbering.variable(m))?;
    }
    Ok(())
}

/// What is asked of two terms.
pub fn print_call(rt: &HostRuntime, call: &str, terms: &[Term]) -> io::Result<()> {
    let [t, u] = terms else {
        return println!(rt; "not two terms");
    };
    let (name, numbers) = call.split_once(' ').unwrap_or((call, ""));
    match name {
        "replace" => print_replaced(rt, numbers, t, u),
        "apply" => print_applied(rt, numbers, t, u),
        "moved" => print_moved(rt, numbers, t, u),
        "match" => println!(rt; "{:?}", match_term(rt.alloc(), t, u)),
        "onto" => print_matched(rt, numbers, t, u),
        "owned" => print_owned(rt, numbers, t, u),
        "unify" => println!(rt; "{:?}", unify_terms(rt.alloc(), t, u)),
        _ => print_unified(rt, numbers, t, u),
    }
}

fn print_replaced(rt: &HostRuntime, numbers: &str, t: &Term, u: &Term) -> io::Result<()> {
    let Ok(pos) = numbers_of(rt.alloc(), numbers) else {
        return println!(rt; "no memory");
    };
    if !fits(t) || !fits(u) {
        return println!(rt; "no fit");
    }
    println!(rt; "{:?}", replace(rt.alloc(), t, &pos, u))
}

// The first term under variable 0 bound to the variable and then to the second term.
fn applied(alloc: Global, variable: u32, t: &Term, u: &Term) -> Result<Term, TermError> {
    let mut values = Subst::new(alloc);
    values.bind(0, Term::Var(variable))?;
    values.bind(0, try_clone(alloc, u)?)?;
    let copy = values.try_clone(alloc)?;
    if !fits(t) {
        return Err(TermError::TooLarge);
    }
    copy.apply(alloc, t)
}

fn print_applied(rt: &HostRuntime, numbers: &str, t: &Term, u: &Term) -> io::Result<()> {
    let variable = numbers.parse().unwrap_or(0);
    println!(rt; "{:?}", applied(rt.alloc(), variable, t, u))
}

// The first term under variable 0 bound to the second term, and variable 1 to the variable.
fn moved(alloc: Global, variable: u32, t: &Term, u: &Term) -> Result<Term, TermError> {
    let mut values = Subst::new(alloc);
    values.bind(0, try_clone(alloc, u)?)?;
    values.bind(1, Term::Var(variable))?;
    if !fits(t) {
        return Err(TermError::TooLarge);
    }
    values.into_instance(alloc, t)
}

fn print_moved(rt: &HostRuntime, numbers: &str, t: &Term, u: &Term) -> io::Result<()> {
    let variable = numbers.parse().unwrap_or(0);
    println!(rt; "{:?}", moved(rt.alloc(), variable, t, u))
}

// Variable 0 is already bound to the variable.
fn matched(alloc: Global, variable: u32, t: &Term, u: &Term) -> Result<Match, NoMemory> {
    let mut start = Subst::new(alloc);
    start.bind(0, Term::Var(variable))?;
    match_onto(alloc, &start, t, u)
}

fn print_matched(rt: &HostRuntime, numbers: &str, t: &Term, u: &Term) -> io::Result<()> {
    let variable = numbers.parse().unwrap_or(0);
    println!(rt; "{:?}", matched(rt.alloc(), variable, t, u))
}

// The same, of values and a copy of the second term that are used up.
fn owned(alloc: Global, variable: u32, t: &Term, u: &Term) -> Result<Match, NoMemory> {
    let mut start = Subst::new(alloc);
    start.bind(0, Term::Var(variable))?;
    match_owned(start, t, try_clone(alloc, u)?)
}

fn print_owned(rt: &HostRuntime, numbers: &str, t: &Term, u: &Term) -> io::Result<()> {
    let variable = numbers.parse().unwrap_or(0);
    println!(rt; "{:?}", owned(rt.alloc(), variable, t, u))
}

// The arguments of two terms, unified one after the other.
fn unified(alloc: Global, t: &Term, u: &Term) -> Result<Unified, NoMemory> {
    match (t, u) {
        (Term::Fun(_, ts), Term::Fun(_, us)) if ts.len() == us.len() => unify(alloc, ts, us),
        _ => Ok(Unified::Clash),
    }
}

// The size of what a variable is bound to.
fn print_size(rt: &HostRuntime, value: Option<&Term>) -> io::Result<()> {
    match value {
        Some(t) if fits(t) => println!(rt; "size {}", size(t)),
        _ => println!(rt; "unbound"),
    }
}

fn print_unified(rt: &HostRuntime, numbers: &str, t: &Term, u: &Term) -> io::Result<()> {
    let variable = numbers.parse().unwrap_or(0);
    match unified(rt.alloc(), t, u) {
        Ok(Unified::Mgu(mgu)) => print_size(rt, mgu.get(variable)),
        other => println!(rt; "{other:?}"),
    }
}
