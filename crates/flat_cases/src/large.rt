//! Terms at the limits of size: each is made, read back, spliced and dropped.
use crate::samples::{constant, nested};
use crate::splices::exchange_twice;
use std::alloc::Global;
use std::test::Fail;
use term_core::{MAX_DEPTH, MAX_NODES, NoMemory, Term, depth, fits, size};

// A symbol over as many constants as fit.
fn widest(alloc: Global) -> Result<Term, NoMemory> {
    let mut args = Vec::new(alloc);
    for i in 1..MAX_NODES {
        args.push(constant(alloc, i))?;
    }
    Ok(Term::Fun(0, args))
}

// A variable under as many symbols as fit.
fn deepest(alloc: Global) -> Result<Term, NoMemory> {
    let mut t = Term::Var(0);
    for i in 1..MAX_DEPTH {
        t = Term::Fun(i, vec![in alloc; t]?);
    }
    Ok(t)
}

#[test]
fn the_widest_term_is_spliced(rt: HostRuntime) -> Result<(), Fail> {
    let alloc = rt.alloc();
    let t = widest(alloc)?;
    assert!(rt; fits(&t));
    assert_eq!(rt; size(&t), MAX_NODES);
    let u = constant(alloc, 0);
    for place in [1, 5_000, 9_999] {
        exchange_twice(&rt, alloc, &t, &u, place as usize, &[place])?;
    }
    exchange_twice(&rt, alloc, &t, &nested(alloc)?, 0, &[])?;
    exchange_twice(&rt, alloc, &nested(alloc)?, &t, 0, &[])?;
    Ok(())
}

#[test]
fn the_deepest_term_is_spliced(rt: HostRuntime) -> Result<(), Fail> {
    let alloc = rt.alloc();
    let t = deepest(alloc)?;
    assert!(rt; fits(&t));
    assert_eq!(rt; depth(&t), MAX_DEPTH);
    let u = constant(alloc, 0);
    let mut pos = Vec::new(alloc);
    for place in 0..MAX_DEPTH {
        if place % 133 == 0 {
            exchange_twice(&rt, alloc, &t, &u, place as usize, &pos)?;
        }
        pos.push(1)?;
    }
    Ok(())
}
