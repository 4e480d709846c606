//! Ground terms of up to three symbols of the file.
use std::alloc::Global;
use term_core::{NoMemory, System, Term, try_clone};

// So many are made at most.
const MOST: usize = 400;

/// Ground terms, the smaller before the greater, and how many of them have one symbol, and at most two.
#[derive(Debug, Drop)]
pub(crate) struct Pool {
    pub(crate) terms: Vec<Term>,
    pub(crate) single: usize,
    pub(crate) double: usize,
}

// Whether a symbol has so many arguments.
fn has_arity(arities: &[u32], f: u32, count: u32) -> bool {
    match arities.get(f as usize) {
        Some(arity) => *arity == count,
        None => false,
    }
}

// Puts the constants last.
fn add_constants(
    alloc: Global,
    arities: &[u32],
    own: u32,
    terms: &mut Vec<Term>,
) -> Result<(), NoMemory> {
    'symbols: for f in 0..own {
        if has_arity(arities, f, 0) && terms.len() < MOST {
            terms.push(Term::Fun(f, Vec::new(alloc)))?;
        }
    }
    Ok(())
}

// Puts a symbol over each of some terms last.
fn add_over(
    alloc: Global,
    f: u32,
    from: usize,
    to: usize,
    terms: &mut Vec<Term>,
) -> Result<(), NoMemory> {
    'places: for place in from..to {
        if terms.len() >= MOST {
            return Ok(());
        }
        let Some(under) = terms.get(place) else {
            return Ok(());
        };
        let mut args = Vec::new(alloc);
        args.push(try_clone(alloc, under)?)?;
        terms.push(Term::Fun(f, args))?;
    }
    Ok(())
}

// Puts each symbol with one argument over each of some terms last.
fn add_unary(
    alloc: Global,
    arities: &[u32],
    own: u32,
    from: usize,
    to: usize,
    terms: &mut Vec<Term>,
) -> Result<(), NoMemory> {
    'symbols: for f in 0..own {
        if has_arity(arities, f, 1) {
            add_over(alloc, f, from, to, terms)?;
        }
    }
    Ok(())
}

// Puts a symbol over a first constant and each second one last.
fn add_pairs_with(
    alloc: Global,
    f: u32,
    first: usize,
    single: usize,
    terms: &mut Vec<Term>,
) -> Result<(), NoMemory> {
    'seconds: for second in 0..single {
        if terms.len() >= MOST {
            return Ok(());
        }
        let (Some(left), Some(right)) = (terms.get(first), terms.get(second)) else {
            return Ok(());
        };
        let mut args = Vec::new(alloc);
        args.push(try_clone(alloc, left)?)?;
        args.push(try_clone(alloc, right)?)?;
        terms.push(Term::Fun(f, args))?;
    }
    Ok(())
}

// Puts a symbol over each two constants last.
fn add_pairs(alloc: Global, f: u32, single: usize, terms: &mut Vec<Term>) -> Result<(), NoMemory> {
    'firsts: for first in 0..single {
        add_pairs_with(alloc, f, first, single, terms)?;
    }
    Ok(())
}

// Puts each symbol with two arguments over each two constants last.
fn add_binary(
    alloc: Global,
    arities: &[u32],
    own: u32,
    single: usize,
    terms: &mut Vec<Term>,
) -> Result<(), NoMemory> {
    'symbols: for f in 0..own {
        if has_arity(arities, f, 2) {
            add_pairs(alloc, f, single, terms)?;
        }
    }
    Ok(())
}

impl Pool {
    /// The ground terms of a system: `c`, `f(c)`, `f(g(c))` and `h(c,d)`, as many as are made at most.
    pub(crate) fn new(alloc: Global, sys: &System) -> Result<Pool, NoMemory> {
        let own = sys.own();
        let arities = sys.arities();
        let mut terms = Vec::new(alloc);
        add_constants(alloc, arities, own, &mut terms)?;
        let single = terms.len();
        add_unary(alloc, arities, own, 0, single, &mut terms)?;
        let double = terms.len();
        add_unary(alloc, arities, own, single, double, &mut terms)?;
        add_binary(alloc, arities, own, single, &mut terms)?;
        Ok(Pool {
            terms,
            single,
            double,
        })
    }
}
