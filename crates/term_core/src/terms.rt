//! First-order terms: their size and depth with the limits of both, equality, and copies.
ghost use Rattle.std.specs.Prelude.{◌≡◌, ◌≤◌, ◌<◌, ◌+◌, ◌↔◌, ◌⊎◌, IsTrue, IfOk, IfSome, IfNone, map};
ghost use Rattle.rewriting.specs.Terms as math;
ghost use Rattle.term_core.specs.View.{view};

pub use rewriting::{MAX_CONDITIONS, MAX_DEPTH, MAX_NODES};
use std::alloc::{AllocError, AllocFailed, Global};

/// A term: a variable, or a symbol with its arguments, both by number.
#[derive(Debug, Drop)]
pub enum Term {
    Var(u32),
    Fun(u32, Vec<Term>),
}

/// Memory was refused.
#[derive(Clone, Copy, Debug, PartialEq, Eq)]
pub struct NoMemory;

/// Why a term is not made.
#[derive(Clone, Copy, Debug, PartialEq, Eq)]
pub enum TermError {
    /// The term has no such position.
    NoPosition,
    /// The term made would not fit.
    TooLarge,
    /// Memory was refused.
    NoMemory,
}

impl From<AllocError> for NoMemory {
    fn from(_e: AllocError) -> NoMemory {
        NoMemory
    }
}

impl<T: Drop> From<AllocFailed<T>> for NoMemory {
    fn from(_e: AllocFailed<T>) -> NoMemory {
        NoMemory
    }
}

impl From<NoMemory> for TermError {
    ghost use Rattle.term_core.specs.declared.terms.TermError.TheVariants.{NoMemory as no_memory};

    ghost from_gives = { λ _ e. e ≡ no_memory };

    fn from(_e: NoMemory) -> TermError {
        TermError::NoMemory
    }
}

impl From<AllocError> for TermError {
    ghost use Rattle.term_core.specs.declared.terms.TermError.TheVariants.{NoMemory as no_memory};

    ghost from_gives = { λ _ e. e ≡ no_memory };

    fn from(_e: AllocError) -> TermError {
        TermError::NoMemory
    }
}

impl<T: Drop> From<AllocFailed<T>> for TermError {
    ghost use Rattle.term_core.specs.declared.terms.TermError.TheVariants.{NoMemory as no_memory};

    ghost from_gives = { λ _ e. e ≡ no_memory };

    fn from(_e: AllocFailed<T>) -> TermError {
        TermError::NoMemory
    }
}

/// The room that a term leaves of a number of nodes, where it has no more nodes and levels than these.
pub fn room_after(t: &Term, room: u32, levels: u32) -> Option<u32>
    ensures nodes { IfSome result (λ left. left + math.size (view t.now) ≡ room) }
    ensures levels { IfSome result (λ _. math.depth (view t.now) ≤ levels) }
    ensures none { IfNone result ((room < math.size (view t.now)) ⊎ (levels < math.depth (view t.now))) }
{
    if room == 0 || levels == 0 {
        return None;
    }
    match t {
        Term::Var(_) => Some(room - 1),
        Term::Fun(_, args) => {
            let mut left = room - 1;
            for arg in args {
                left = room_after(arg, left, levels - 1)?;
            }
            Some(left)
        }
    }
}

/// Whether a term, of any size, has at most 10,000 nodes and a depth of at most 400.
pub fn fits(t: &Term) -> bool
    ensures { IsTrue result ↔ math.Fits (view t.now) }
{
    room_after(t, MAX_NODES, MAX_DEPTH).is_some()
}

// The nodes of a term that has few enough.
fn count(t: &Term) -> u32
    requires { math.size (view t.now) ≤ MAX_NODES }
    ensures { result ≡ math.size (view t.now) }
{
    match t {
        Term::Var(_) => 1,
        Term::Fun(_, args) => {
            let mut n = 1;
            for arg in args {
                n += count(arg);
            }
            n
        }
    }
}

/// The number of nodes.
pub fn size(t: &Term) -> u32
    requires { math.Fits (view t.now) }
    ensures { result ≡ math.size (view t.now) }
{
    count(t)
}

fn levels(t: &Term) -> u32
    requires { math.depth (view t.now) ≤ MAX_DEPTH }
    ensures { result ≡ math.depth (view t.now) }
{
    match t {
        Term::Var(_) => 1,
        Term::Fun(_, args) => {
            let mut deepest = 0;
            for arg in args {
                deepest = levels(arg).max(deepest);
            }
            deepest + 1
        }
    }
}

/// The depth; that of a variable or a constant is 1.
pub fn depth(t: &Term) -> u32
    requires { math.Fits (view t.now) }
    ensures { result ≡ math.depth (view t.now) }
{
    levels(t)
}

/// Whether both are the same term.
#[cycle(equal)]
pub fn equal(a: &Term, b: &Term) -> bool
    ensures { IsTrue result ↔ (view a.now ≡ view b.now) }
{
    match (a, b) {
        (Term::Var(x), Term::Var(y)) => *x == *y,
        (Term::Fun(f, xs), Term::Fun(g, ys)) => *f == *g && equal_all(xs, ys),
        _ => false,
    }
}

#[cycle(equal)]
fn equal_all(xs: &[Term], ys: &[Term]) -> bool
    ensures { IsTrue result ↔ (map view xs.now ≡ map view ys.now) }
{
    if xs.len() != ys.len() {
        return false;
    }
    for i in 0..xs.len() {
        if !equal(&xs[i], &ys[i]) {
            return false;
        }
    }
    true
}

/// A copy of a term.
pub fn try_clone(alloc: Global, t: &Term) -> Result<Term, NoMemory>
    ensures { IfOk result (λ u. view u ≡ view t.now) }
{
    match t {
        Term::Var(x) => Ok(Term::Var(*x)),
        Term::Fun(f, args) => {
            let mut copies = Vec::with_capacity(alloc, args.len())?;
            for arg in args {
                copies.push(try_clone(alloc, arg)?)?;
            }
            Ok(Term::Fun(*f, copies))
        }
    }
}
