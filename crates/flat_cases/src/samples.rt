//! Terms of the cases, and their cells.
use flatterm::{Cell, Flat};
use std::alloc::Global;
use term_core::{NoMemory, Term};

pub fn constant(alloc: Global, symbol: u32) -> Term {
    Term::Fun(symbol, Vec::new(alloc))
}

// h(x1, g(f(x2), c), x1), where h is 0, f is 1, c is 4, g is 5.
pub fn nested(alloc: Global) -> Result<Term, NoMemory> {
    let inner = Term::Fun(1, vec![in alloc; Term::Var(2)]?);
    let middle = Term::Fun(5, vec![in alloc; inner, constant(alloc, 4)]?);
    Ok(Term::Fun(0, vec![in alloc; Term::Var(1), middle, Term::Var(1)]?))
}

// The cells of that term.
pub fn nested_cells() -> [Cell; 7] {
    [
        Cell::Fun(0, 3),
        Cell::Var(1),
        Cell::Fun(5, 2),
        Cell::Fun(1, 1),
        Cell::Var(2),
        Cell::Fun(4, 0),
        Cell::Var(1),
    ]
}

pub fn go_to(flat: &mut Flat, place: usize) {
    flat.rewind();
    for _ in 0..place {
        flat.next();
    }
}
