//! Caps of terms with symbols that the system lacks, whatever their numbers.

use crate::of_caps::print_caps;
use cops_read::read_system;
use rule_index::IndexedSystem;
use std::alloc::Global;
use std::io;
use tcap_infeasible::{ComparedCaps, compare_rigid_caps};
use term_core::{NoMemory, Term, fits};

/// The caps of the last left side of the second system by the rules of the first one.
pub fn print_foreign(rt: &HostRuntime, title: &str, rules: &str, term: &str) -> io::Result<()> {
    let Ok((sys, _)) = read_system(rt.alloc(), rules.as_bytes()) else {
        return println!(rt; "no system");
    };
    let Ok((terms, _)) = read_system(rt.alloc(), term.as_bytes()) else {
        return println!(rt; "no terms");
    };
    match terms.rules().last() {
        Some(rule) => print_caps(rt, title, &sys, &rule.left),
        None => println!(rt; "no term"),
    }
}

fn constant(alloc: Global, f: u32) -> Term {
    Term::Fun(f, Vec::new(alloc))
}

fn over(alloc: Global, t: Term) -> Result<Term, NoMemory> {
    Ok(Term::Fun(1, Vec::from_array(alloc, [t])?))
}

// How the rigid caps of symbol 1 over two terms compare.
fn compared(
    alloc: Global,
    sys: &IndexedSystem,
    t: Term,
    u: Term,
) -> Result<ComparedCaps, NoMemory> {
    let t = over(alloc, t)?;
    let u = over(alloc, u)?;
    if !fits(&t) || !fits(&u) {
        return Err(NoMemory);
    }
    compare_rigid_caps(alloc, sys, &t, &u)
}

fn print_constant(rt: &HostRuntime, sys: &IndexedSystem, x: u32, f: u32) -> io::Result<()> {
    let alloc = rt.alloc();
    let variable = compared(alloc, sys, Term::Var(x), constant(alloc, f));
    let same = compared(alloc, sys, constant(alloc, f), constant(alloc, f));
    let other = compared(alloc, sys, constant(alloc, f), constant(alloc, f ^ 1));
    println!(rt; "{x} and {f}: {variable:?}, {same:?}, {other:?}")
}

/// For each line with the numbers of a variable and a constant, how the rigid caps of symbol 1 over them compare, over the constant
/// twice, and over it and another one.
pub fn print_constants(rt: &HostRuntime, rules: &str, lines: &str) -> io::Result<()> {
    let Ok((sys, _)) = read_system(rt.alloc(), rules.as_bytes()) else {
        return println!(rt; "no system");
    };
    let Ok(sys) = IndexedSystem::new(rt.alloc(), &sys) else {
        return println!(rt; "no memory");
    };
    for line in lines.lines() {
        let (x, f) = line.split_once(' ').unwrap_or((line, ""));
        print_constant(rt, &sys, x.parse().unwrap_or(0), f.parse().unwrap_or(0))?;
    }
    Ok(())
}
