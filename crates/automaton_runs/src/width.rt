//! The variable occurrences of a term, and whether there are more choices of states for them than a limit.
ghost use Rattle.std.specs.Prelude.{◌≡◌, ◌↔◌, ◌<◌, ◌≤◌, ◌^◌, ◌++◌, IfOk, OnOk, IsTrue};
ghost use Rattle.rewriting.specs.Variables.{variable_occurrences};
ghost use Rattle.term_core.specs.View.{view};

use std::alloc::Global;
use term_core::{NoMemory, Term};

/// Whether so many states have more than `limit` choices for so many occurrences of variables.
pub fn has_more_choices(states: u32, occurrences: usize, limit: u32) -> bool
    requires { 1 ≤ limit }
    ensures { IsTrue result ↔ (limit < states ^ occurrences) }
{
    let mut choices: u64 = 1;
    'occurrences: for _ in 0..occurrences {
        choices *= u64::from(states);
        if choices > u64::from(limit) {
            return true;
        }
    }
    false
}

// Puts the variables of a term as they occur last.
fn put_occurrences(t: &Term, out: &mut Vec<u32>) -> Result<(), NoMemory>
    ensures { OnOk result (out.new.items ≡ out.old.items ++ variable_occurrences (view t.now)) }
{
    match t {
        Term::Var(x) => {
            out.push(*x)?;
            Ok(())
        }
        Term::Fun(_, args) => {
            for arg in args {
                put_occurrences(arg, out)?;
            }
            Ok(())
        }
    }
}

/// The variables of a term as they occur, from left to right.
pub fn occurrences(alloc: Global, t: &Term) -> Result<Vec<u32>, NoMemory>
    ensures { IfOk result (λ names. names.items ≡ variable_occurrences (view t.now)) }
{
    let mut out = Vec::new(alloc);
    put_occurrences(t, &mut out)?;
    Ok(out)
}
