//! Caps of which no two clash, laid one upon the other, so that one more is compared with all of them at once.
ghost use Rattle.std.specs.Prelude.{◌≡◌, ◌^◌, ℕ, IfOk, OnOk};
ghost use Rattle.rewriting.specs.Terms as math;
ghost use Rattle.term_core.specs.View.{view, views};
ghost use Rattle.noncon_search.specs.Laying.{laid, IsLaid};

use std::alloc::Global;
use std::mem;
use tcap_infeasible::{FIRST_HOLE, made_caps_clash};
use term_core::{NoMemory, Term, try_clone};

/// What each of the caps has at the holes of the others. It is closed where two of them clash, or one was not made.
#[derive(Drop)]
pub struct Overlay {
    whole: Term,
    is_open: bool,
}

// A cap laid upon a variable: a hole takes it, and a variable of the term stays.
fn laid_upon(alloc: Global, x: u32, cap: &Term) -> Result<Term, NoMemory>
    ensures { IfOk result (λ u. view u ≡ laid (2 ^ 31) (math.var x) (view cap.now)) }
{
    if x < FIRST_HOLE {
        Ok(Term::Var(x))
    } else {
        try_clone(alloc, cap)
    }
}

// Lays a cap upon others.
#[cycle(laying)]
fn lay(alloc: Global, cap: &Term, whole: &mut Term) -> Result<(), NoMemory>
    ensures { OnOk result (view whole.new ≡ laid (2 ^ 31) (view whole.old) (view cap.now)) }
{
    match mem::replace(whole, Term::Var(0)) {
        Term::Var(x) => {
            *whole = laid_upon(alloc, x, cap)?;
            Ok(())
        }
        Term::Fun(f, mut args) => {
            lay_inside(alloc, cap, &mut args)?;
            *whole = Term::Fun(f, args);
            Ok(())
        }
    }
}

// Lays the arguments of a cap upon those of a symbol.
#[cycle(laying)]
fn lay_inside(alloc: Global, cap: &Term, args: &mut [Term]) -> Result<(), NoMemory>
    ensures { OnOk result ((f : ℕ) → math.app f (views args.new) ≡ laid (2 ^ 31) (math.app f (views args.old)) (view cap.now)) }
{
    match cap {
        Term::Var(_) => Ok(()),
        Term::Fun(_, others) => {
            'parts: for i in 0..args.len().min(others.len()) {
                lay(alloc, &others[i], &mut args[i])?;
            }
            Ok(())
        }
    }
}

impl Overlay {
    /// No cap lies there.
    pub fn new() -> Overlay {
        Overlay {
            whole: Term::Var(FIRST_HOLE),
            is_open: true,
        }
    }

    /// Lays a cap upon the others. Whether it is known that it clashes with none of them.
    pub fn add(&mut self, alloc: Global, cap: &Option<Term>) -> Result<bool, NoMemory>
        ensures { IfOk result (IsLaid self.old self.new cap.now) }
    {
        if !self.is_open {
            return Ok(false);
        }
        let Some(cap) = cap else {
            self.is_open = false;
            return Ok(false);
        };
        if made_caps_clash(&self.whole, cap, FIRST_HOLE) {
            self.is_open = false;
            return Ok(false);
        }
        lay(alloc, cap, &mut self.whole)?;
        Ok(true)
    }
}
