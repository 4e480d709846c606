//! Caps of a term, and how those of its two arguments compare, with the evidence by them that the first never reaches the second.

use cert_model::InfEvidence;
use infeasible::check_infeasible;
use refuter::Refuter;
use rule_index::IndexedSystem;
use std::alloc::Global;
use std::io;
use tcap_infeasible::{
    Cap, TcapEvidence, compare_caps, compare_rigid_caps, made_caps_clash, rigid_cap, rigid_cap_in,
    tcap,
};
use term_core::{Cond, System, Term, fits, has_variables_below, size, try_clone};

/// The caps of the term, the account of whose case begins with the number of the first hole, and how those of its arguments
/// compare, where they are two.
pub fn print_caps(rt: &HostRuntime, title: &str, sys: &System, t: &Term) -> io::Result<()> {
    let (number, _) = title.split_once(':').unwrap_or((title, ""));
    let fresh: u32 = number.parse().unwrap_or(0);
    if !fits(t) || u64::from(fresh) + u64::from(size(t)) > 4294967296 {
        return println!(rt; "no numbers for holes");
    }
    println!(rt; "cap: {:?}", tcap(rt.alloc(), sys, t, fresh))?;
    if has_variables_below(fresh, t) {
        println!(rt; "rigid cap: {:?}", rigid_cap(rt.alloc(), sys, t, fresh))?;
    }
    let Ok(indexed) = IndexedSystem::new(rt.alloc(), sys) else {
        return println!(rt; "no memory");
    };
    print_compared(rt, &indexed, t, fresh)
}

// The rigid cap of a term with holes from a number on, where it can have them.
fn made_cap(alloc: Global, sys: &IndexedSystem, t: &Term, fresh: u32) -> Option<Term> {
    if !fits(t) || u64::from(fresh) + u64::from(size(t)) > 4294967296 {
        return None;
    }
    if !has_variables_below(fresh, t) {
        return None;
    }
    match rigid_cap_in(alloc, sys, t, fresh) {
        Ok(Cap::Capped(cap)) => Some(cap),
        _ => None,
    }
}

// Whether the rigid caps of two terms clash that are made one after the other.
fn print_made(
    rt: &HostRuntime,
    sys: &IndexedSystem,
    u: &Term,
    v: &Term,
    fresh: u32,
) -> io::Result<()> {
    let Some(first) = made_cap(rt.alloc(), sys, u, fresh) else {
        return Ok(());
    };
    let Some(second) = made_cap(rt.alloc(), sys, v, fresh) else {
        return Ok(());
    };
    let clash = made_caps_clash(&first, &second, fresh);
    println!(rt; "made rigid caps of the arguments clash: {clash}")
}

// What the evidence by caps is judged to be with the system's index, with one of its own, and by its kind.
fn print_evidence(rt: &HostRuntime, sys: &IndexedSystem, u: &Term, v: &Term) -> io::Result<()> {
    let alloc = rt.alloc();
    let (Ok(left), Ok(right)) = (try_clone(alloc, u), try_clone(alloc, v)) else {
        return println!(rt; "no memory");
    };
    if !fits(&left) || !fits(&right) {
        return println!(rt; "the copies do not fit");
    }
    let conds = [Cond { left, right }];
    let indexed = TcapEvidence.refutes_in(alloc, sys, &conds);
    let alone = TcapEvidence.refutes(alloc, sys.system(), &conds);
    let by_kind = check_infeasible(alloc, sys.system(), &conds, &InfEvidence::Tcap);
    println!(rt;
        "evidence by caps: {indexed:?}, with an index of its own: {alone:?}, by its kind: {by_kind:?}"
    )
}

fn print_compared(rt: &HostRuntime, sys: &IndexedSystem, t: &Term, fresh: u32) -> io::Result<()> {
    let Term::Fun(_, args) = t else {
        return Ok(());
    };
    let [u, v] = args.as_slice() else {
        return Ok(());
    };
    if !fits(u) || !fits(v) {
        return println!(rt; "the arguments do not fit");
    }
    println!(rt;
        "caps of the arguments: {:?}",
        compare_caps(rt.alloc(), sys, u, v)
    )?;
    println!(rt;
        "rigid caps of the arguments: {:?}",
        compare_rigid_caps(rt.alloc(), sys, u, v)
    )?;
    print_made(rt, sys, u, v, fresh)?;
    print_evidence(rt, sys, u, v)
}
