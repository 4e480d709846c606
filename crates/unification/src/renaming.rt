//! Renaming terms: the variable `mul * k + add` for each variable k.
ghost use Rattle.std.specs.Prelude.{◌≡◌, ◌≤◌, ◌<◌, ◌+◌, ◌*◌, ◌^◌, ℕ, true, IfOk};
ghost use Rattle.rewriting.specs.Prelude.{apply, occurs};
ghost use Rattle.term_core.specs.View.{view};
ghost use Rattle.unification.specs.Answers.{renaming, RenameAnswers};

use std::alloc::Global;
use term_core::{NoMemory, Term, TermError};

/// The same, where want of memory is the only failure.
pub fn renamed(alloc: Global, t: &Term, mul: u32, add: u32) -> Result<Term, NoMemory>
    requires below { (k : ℕ) → occurs k (view t.now) ≡ true → mul * k + add < 2 ^ 32 }
    ensures { IfOk result (λ u. view u ≡ apply (renaming mul add) (view t.now)) }
{
    match t {
        Term::Var(k) => Ok(Term::Var(mul * *k + add)),
        Term::Fun(f, args) => {
            let mut out = Vec::with_capacity(alloc, args.len())?;
            for arg in args {
                out.push(renamed(alloc, arg, mul, add)?)?;
            }
            Ok(Term::Fun(*f, out))
        }
    }
}

/// The term with `mul * k + add` for each variable k.
pub fn rename(alloc: Global, t: &Term, mul: u32, add: u32) -> Result<Term, TermError>
    requires positive { 1 ≤ mul }
    requires below { (k : ℕ) → occurs k (view t.now) ≡ true → mul * k + add < 2 ^ 32 }
    ensures { RenameAnswers mul add (view t.now) result }
{
    Ok(renamed(alloc, t, mul, add)?)
}
