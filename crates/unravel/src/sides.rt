//! The sides of the rules of an unraveled system, before their variables are numbered anew.
ghost use Rattle.std.specs.Prelude.{◌≡◌, ◌↔◌, ◌<◌, ◌^◌, ◌+◌, IsTrue, IfOk, OnOk, length};
ghost use Rattle.rewriting.specs.Terms as math;
ghost use Rattle.rewriting.specs.Prelude.{apply, apply_all, with_new, with_variables, with_variables_of, index_in, variable_terms};
ghost use Rattle.term_core.specs.View.{view, views};
ghost use Rattle.unravel.specs.SideView.{side_view, DoesPartFit, numbered};

use std::alloc::Global;
use term_core::{MAX_DEPTH, MAX_NODES, NoMemory, Term, depth, size};

/// A side: a term of a rule, or the auxiliary symbol that keeps a term of a condition with the known variables.
#[derive(Clone, Copy, Debug)]
pub enum Side<'a> {
    Plain(&'a Term),
    Kept {
        symbol: u32,
        term: &'a Term,
        known: &'a [u32],
    },
}

// The place of a variable in a list, or the list's length.
#[tactic(auto, using(crate::proofs::Kept::place_here))]
fn place(order: &[u32], x: u32) -> u32
    requires { length order.now < 2 ^ 32 }
    ensures { result ≡ index_in order.now x }
{
    let mut place = 0;
    for y in order {
        if *y == x {
            return place;
        }
        place += 1;
    }
    place
}

// Puts a variable last, where the list lacks it.
fn add(x: u32, order: &mut Vec<u32>) -> Result<(), NoMemory>
    ensures { OnOk result (order.new.items ≡ with_new order.old.items x) }
{
    if !order.contains(&x) {
        order.push(x)?;
    }
    Ok(())
}

/// Puts the variables of a term that the list lacks behind it, in order of first occurrence.
pub fn add_variables(t: &Term, order: &mut Vec<u32>) -> Result<(), NoMemory>
    ensures { OnOk result (order.new.items ≡ with_variables order.old.items (view t.now)) }
{
    match t {
        Term::Var(x) => add(*x, order),
        Term::Fun(_, args) => {
            for arg in args {
                add_variables(arg, order)?;
            }
            Ok(())
        }
    }
}

// Puts the variables of a kept term, and the known ones, that the list lacks behind it.
#[tactic(auto, using(crate::proofs::Kept::variables_here))]
fn add_kept(term: &Term, known: &[u32], order: &mut Vec<u32>) -> Result<(), NoMemory>
    ensures { OnOk result (order.new.items ≡ with_variables_of (with_variables order.old.items (view term.now)) (variable_terms known.now)) }
{
    add_variables(term, order)?;
    for x in known {
        add(*x, order)?;
    }
    Ok(())
}

// Whether an auxiliary symbol with a term and the known variables fits.
#[tactic(auto, using(crate::proofs::Kept::kept_fits, crate::proofs::Kept::fits_kept))]
fn kept_fits(term: &Term, known: &[u32]) -> bool
    requires { math.Fits (view term.now) }
    ensures { IsTrue result ↔ ((math.size (view term.now) + length known.now < MAX_NODES) × (math.depth (view term.now) < MAX_DEPTH)) }
{
    let most = MAX_NODES as usize;
    known.len() < most && size(term) as usize + known.len() < most && depth(term) < MAX_DEPTH
}

// The term with each variable as its place in the list.
fn numbered(alloc: Global, order: &[u32], t: &Term) -> Result<Term, NoMemory>
    requires { length order.now < 2 ^ 32 }
    ensures { IfOk result (λ u. view u ≡ apply (numbered order.now) (view t.now)) }
{
    match t {
        Term::Var(x) => Ok(Term::Var(place(order, *x))),
        Term::Fun(f, args) => {
            let mut out = Vec::with_capacity(alloc, args.len())?;
            for arg in args {
                out.push(numbered(alloc, order, arg)?)?;
            }
            Ok(Term::Fun(*f, out))
        }
    }
}

// The same for the arguments of an auxiliary symbol.
fn kept_numbered(
    alloc: Global,
    order: &[u32],
    term: &Term,
    known: &[u32],
) -> Result<Vec<Term>, NoMemory>
    requires { length order.now < 2 ^ 32 }
    ensures { IfOk result (λ v. views v.items ≡ apply_all (numbered order.now) (math.cons (view term.now) (variable_terms known.now))) }
{
    let mut args = Vec::new(alloc);
    args.push(numbered(alloc, order, term)?)?;
    for x in known {
        args.push(Term::Var(place(order, *x)))?;
    }
    Ok(args)
}

impl<'a> Side<'a> {
    /// Whether the side fits; its term does.
    pub fn fits(&self) -> bool
        requires { DoesPartFit self.now }
        ensures { IsTrue result ↔ math.Fits (side_view self.now) }
    {
        match self {
            Side::Plain(_) => true,
            Side::Kept { term, known, .. } => kept_fits(term, known),
        }
    }

    /// Puts the variables of the side that the list lacks behind it.
    pub fn add_variables(&self, order: &mut Vec<u32>) -> Result<(), NoMemory>
        ensures { OnOk result (order.new.items ≡ with_variables order.old.items (side_view self.now)) }
    {
        match self {
            Side::Plain(t) => add_variables(t, order),
            Side::Kept { term, known, .. } => add_kept(term, known, order),
        }
    }

    /// The side with each variable as its place in the list.
    pub fn numbered(&self, alloc: Global, order: &[u32]) -> Result<Term, NoMemory>
        requires { length order.now < 2 ^ 32 }
        ensures { IfOk result (λ u. view u ≡ apply (numbered order.now) (side_view self.now)) }
    {
        match self {
            Side::Plain(t) => numbered(alloc, order, t),
            Side::Kept {
                symbol,
                term,
                known,
            } => {
                let args = kept_numbered(alloc, order, term, known)?;
                Ok(Term::Fun(*symbol, args))
            }
        }
    }
}
