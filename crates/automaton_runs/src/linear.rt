//! Terms made linear: their variable occurrences are numbered from 0, from left to right.
ghost use Rattle.std.specs.Prelude.{◌≡◌, ◌+◌, ◌<◌, ◌^◌, length, IfOk, OnOk};
ghost use Rattle.rewriting.specs.Terms as math;
ghost use Rattle.rewriting.specs.Variables.{variable_occurrences};
ghost use Rattle.number_sets.specs.Sets.{below};
ghost use Rattle.term_core.specs.View.{view};
ghost use Rattle.automaton_runs.specs.Linear.{linear};

use std::alloc::Global;
use term_core::{NoMemory, Term};

// The term with the numbers from `next` on for its variables as they occur.
fn put_numbers(alloc: Global, t: &Term, next: &mut u32) -> Result<Term, NoMemory>
    requires { next.old + length (variable_occurrences (view t.now)) < 2 ^ 32 }
    ensures next { OnOk result (next.new ≡ next.old + length (variable_occurrences (view t.now))) }
    ensures term { IfOk result (λ made. view made ≡ linear next.old (view t.now)) }
{
    match t {
        Term::Var(_) => {
            let number = *next;
            *next += 1;
            Ok(Term::Var(number))
        }
        Term::Fun(f, args) => {
            let mut made = Vec::with_capacity(alloc, args.len())?;
            for arg in args {
                made.push(put_numbers(alloc, arg, next)?)?;
            }
            Ok(Term::Fun(*f, made))
        }
    }
}

// The term with the numbers from 0 on for its variables as they occur.
pub(crate) fn linear(alloc: Global, t: &Term) -> Result<Term, NoMemory>
    requires { math.Fits (view t.now) }
    ensures { IfOk result (λ made. view made ≡ linear 0 (view t.now)) }
{
    let mut next = 0;
    put_numbers(alloc, t, &mut next)
}

// The numbers below a count.
pub(crate) fn numbers(alloc: Global, count: usize) -> Result<Vec<u32>, NoMemory>
    requires { count < 2 ^ 32 }
    ensures { IfOk result (λ numbers. numbers.items ≡ below count) }
{
    let mut numbers = Vec::with_capacity(alloc, count)?;
    for number in 0..count {
        numbers.push(number as u32)?;
    }
    Ok(numbers)
}
