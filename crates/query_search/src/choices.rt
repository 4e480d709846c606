//! Values for the open variables, told by numbers that turn like those of an odometer: no assignment but one is in memory.
ghost use Rattle.std.specs.Prelude.{◌≡◌, List, ℕ, IfOk, length};
ghost use Rattle.std.specs.FinMap.{empty};
ghost use Rattle.rewriting.specs.Terms as math;
ghost use Rattle.term_core.specs.View.{view};
ghost use Rattle.query_space.specs.Assignments.{constants};
ghost use Rattle.query_search.specs.Choices as choices;
ghost use Rattle.query_search.specs.Choices.{AreZeros, TurnAnswers};

use std::alloc::Global;
use term_core::{NoMemory, Subst, System, Term};

/// The constants of a system, by number.
pub(crate) fn constants_of(alloc: Global, sys: &System) -> Result<Vec<u32>, NoMemory>
    ensures { IfOk result (λ fs. choices.constants_of fs.items ≡ constants sys.now) }
{
    sys.rules_are_sound();
    let mut out = Vec::new(alloc);
    'symbols: for (f, arity) in sys.arities().iter().enumerate() {
        if *arity == 0 {
            out.push(f as u32)?;
        }
    }
    Ok(out)
}

// The choice with a number for a variable: itself, then each of the constants.
fn choice(alloc: Global, constants: &[u32], x: u32, number: usize) -> Term
    ensures { view result ≡ choices.choice (choices.constants_of constants.now) x number }
{
    if number == 0 {
        return Term::Var(x);
    }
    if number > constants.len() {
        return Term::Var(x);
    }
    Term::Fun(constants[number - 1], Vec::new(alloc))
}

/// Numbers of choices, each from 0 to the last. They turn like those of an odometer: the last of them fastest.
#[derive(Drop)]
pub(crate) struct Turns {
    numbers: Vec<usize>,
    last: usize,
}

impl Turns {
    /// So many numbers, each 0.
    pub(crate) fn new(alloc: Global, count: usize, last: usize) -> Result<Turns, NoMemory>
        ensures zeros { IfOk result (λ t. AreZeros t.numbers.items) }
        ensures count { IfOk result (λ t. length t.numbers.items ≡ count) }
        ensures last { IfOk result (λ t. t.last ≡ last) }
    {
        let mut numbers = Vec::with_capacity(alloc, count)?;
        'numbers: for _ in 0..count {
            numbers.push(0)?;
        }
        Ok(Turns { numbers, last })
    }

    /// Turns to the next choices; false where these were the last ones.
    pub(crate) fn turn(&mut self) -> bool
        ensures next { (ts : List math.Term) (xs : List ℕ) → length ts ≡ self.old.last → length xs ≡ length self.old.numbers.items → TurnAnswers ts xs self.old.numbers.items self.new.numbers.items result }
        ensures count { length self.new.numbers.items ≡ length self.old.numbers.items }
        ensures last { self.new.last ≡ self.old.last }
    {
        let mut place = self.numbers.len();
        'places: while place > 0 {
            place -= 1;
            let number = &mut self.numbers[place];
            if *number < self.last {
                *number += 1;
                return true;
            }
            *number = 0;
        }
        false
    }
}

/// The choices to which the numbers have turned.
pub(crate) fn chosen(
    alloc: Global,
    vars: &[u32],
    constants: &[u32],
    turns: &Turns,
) -> Result<Subst, NoMemory>
    requires { length turns.now.numbers.items ≡ length vars.now }
    ensures { IfOk result (λ s. s ≡ choices.chosen (choices.constants_of constants.now) empty vars.now turns.now.numbers.items) }
{
    let mut values = Subst::new(alloc);
    'vars: for (i, x) in vars.iter().enumerate() {
        values.bind(*x, choice(alloc, constants, *x, turns.numbers[i]))?;
    }
    Ok(values)
}
