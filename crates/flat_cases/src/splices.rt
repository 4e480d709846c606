//! Cases of splices: a subterm, or the whole term, gives way to another term, and what was cut is put back.
use crate::samples::{constant, go_to, nested};
use flatterm::{Cell, Flat, Work};
use std::alloc::Global;
use std::process::Abort;
use std::test::Fail;
use term_core::{NoMemory, Term, equal, fits, replace, subterm};

// h(first, b), where h is 0, b is 3.
fn over(alloc: Global, first: Term) -> Result<Term, NoMemory> {
    Ok(Term::Fun(0, vec![in alloc; first, constant(alloc, 3)]?))
}

// c for f(a) in h(f(a), b), where f is 1, a is 2, c is 4.
#[test]
fn the_subterm_gives_way(rt: HostRuntime) -> Result<(), Fail> {
    let alloc = rt.alloc();
    let t = over(alloc, Term::Fun(1, vec![in alloc; constant(alloc, 2)]?))?;
    let u = constant(alloc, 4);
    assert!(rt; fits(&t) && fits(&u));
    let mut flat = Flat::from_term(alloc, &t)?;
    let mut work = Work::new();
    go_to(&mut flat, 1);
    assert!(rt; flat.cell().is_some());
    let cut = flat.splice(Flat::from_term(alloc, &u)?, &mut work);
    assert!(rt; equal(&flat.to_term(alloc)?, &over(alloc, constant(alloc, 4))?));
    assert_eq!(rt; cut.cell(), Some(Cell::Fun(1, 1)));
    assert!(rt; flat.skip());
    assert_eq!(rt; flat.cell(), Some(Cell::Fun(3, 0)));
    assert_eq!(rt; work.splices(), 1);
    Ok(())
}

#[test]
fn the_whole_gives_way(rt: HostRuntime) -> Result<(), Fail> {
    let alloc = rt.alloc();
    let t = nested(alloc)?;
    let u = over(alloc, Term::Var(7))?;
    assert!(rt; fits(&t) && fits(&u));
    let mut flat = Flat::from_term(alloc, &t)?;
    let mut work = Work::new();
    assert!(rt; flat.cell().is_some());
    let cut = flat.splice(Flat::from_term(alloc, &u)?, &mut work);
    assert!(rt; equal(&flat.to_term(alloc)?, &u) && equal(&cut.to_term(alloc)?, &t));
    assert_eq!(rt; flat.cell(), Some(Cell::Fun(0, 2)));
    assert_eq!(rt; cut.cell(), Some(Cell::Fun(0, 3)));
    assert!(rt; flat.next());
    assert_eq!(rt; flat.cell(), Some(Cell::Var(7)));
    Ok(())
}

// The subterm at a place, which is at this position, gives way to `u` and comes back.
pub fn exchange_twice(
    rt: &impl Abort,
    alloc: Global,
    t: &Term,
    u: &Term,
    place: usize,
    pos: &[u32],
) -> Result<(), Fail> {
    assert!(rt; fits(t) && fits(u));
    let mut flat = Flat::from_term(alloc, t)?;
    let mut work = Work::new();
    go_to(&mut flat, place);
    assert!(rt; flat.cell().is_some());
    let cell = flat.cell();
    let cut = flat.splice(Flat::from_term(alloc, u)?, &mut work);
    assert_eq!(rt; cut.cell(), cell, "at {place}");
    assert!(rt; equal(&cut.to_term(alloc)?, subterm(t, pos).ok_or("no position")?));
    assert!(rt; equal(&flat.to_term(alloc)?, &replace(alloc, t, pos, u)?));
    assert!(rt; flat.cell().is_some());
    let back = flat.splice(cut, &mut work);
    assert!(rt; equal(&flat.to_term(alloc)?, t) && equal(&back.to_term(alloc)?, u));
    assert_eq!(rt; flat.cell(), cell, "back at {place}");
    assert_eq!(rt; work.splices(), 2);
    Ok(())
}

#[test]
fn each_subterm_gives_way_and_comes_back(rt: HostRuntime) -> Result<(), Fail> {
    let alloc = rt.alloc();
    let t = nested(alloc)?;
    let u = over(alloc, Term::Var(7))?;
    for (place, pos) in [
        (0, [].as_slice()),
        (1, [1].as_slice()),
        (2, [2].as_slice()),
        (3, [2, 1].as_slice()),
        (4, [2, 1, 1].as_slice()),
        (5, [2, 2].as_slice()),
        (6, [3].as_slice()),
    ] {
        exchange_twice(&rt, alloc, &t, &u, place, pos)?;
    }
    Ok(())
}
