//! Numbering variables by first occurrence, so that terms that differ in the names of variables alone become one.
//!
//! f(x7, g(x3, x7)) becomes f(x0, g(x1, x0)), and the row 7, 3 tells what the numbers stand for.
#![tactic(auto)]

ghost use Rattle.std.specs.Prelude.{◌≡◌, ◌<◌, ℕ, true, [], Some, IfOk, OnOk, length, slice_get};
ghost use Rattle.rewriting.specs.Prelude.{occurs, with_new, with_variables, apply, odd, IsFront, AreDistinct};
ghost use Rattle.term_core.specs.View.{view};
ghost use Rattle.renumbering.specs.Spread.{spreading};
ghost use Rattle.renumbering.specs.Rows.{IsRow, naming, IsNumbered};

use indexmap::IndexSet;
use std::alloc::Global;
use std::marker::Model;
use term_core::{NoMemory, Term};

/// Numbers variables from 0 by their first occurrence in the terms that it is handed.
#[derive(Drop)]
pub struct Numbering {
    row: IndexSet<u32>,
}

impl Model for Numbering {
    ghost use Rattle.std.specs.Prelude.{List, ℕ};

    ghost Value = { List ℕ };

    ghost use Rattle.renumbering.specs.NumberingView.{row_of};
    ghost use Rattle.renumbering.specs.Rows.{IsRow};

    ghost view = { row_of };

    ghost invariant = { λ n. IsRow n.row.keys };
}

impl Numbering {
    /// No variable has a number yet.
    pub fn new(alloc: Global) -> Numbering
        ensures { result ≡ [] }
    {
        Numbering {
            row: IndexSet::new(alloc),
        }
    }

    /// How many variables have numbers.
    pub fn len(&self) -> usize
        ensures len { result ≡ length self.now }
        ensures distinct { AreDistinct self.now }
    {
        self.row.len()
    }

    /// The variable with a number.
    pub fn variable(&self, m: u32) -> Option<u32>
        ensures { result ≡ slice_get self.now m }
    {
        self.row.get_index(m as usize).copied()
    }

    /// The number of a variable, which is put last where it has none yet.
    pub fn number(&mut self, x: u32) -> Result<u32, NoMemory>
        ensures row { OnOk result (self.new ≡ with_new self.old x) }
        ensures front { IsFront self.old self.new }
        ensures distinct { AreDistinct self.new }
        ensures place { IfOk result (λ m. slice_get self.new m ≡ Some x) }
    {
        number(&mut self.row, x)
    }

    /// The term with numbers in place of its variables; those without one get the next numbers, by first
    /// occurrence. After want of memory some of them may have got theirs.
    pub fn numbered(&mut self, alloc: Global, t: &Term) -> Result<Term, NoMemory>
        ensures row { OnOk result (self.new ≡ with_variables self.old (view t.now)) }
        ensures front { IsFront self.old self.new }
        ensures distinct { AreDistinct self.new }
        ensures odd { IfOk result (λ u. apply odd (view t.now) ≡ apply (spreading self.new) (view u)) }
        ensures names { IfOk result (λ u. view t.now ≡ apply (naming self.new) (view u)) }
        ensures below { IfOk result (λ u. (m : ℕ) → occurs m (view u) ≡ true → m < length self.new) }
    {
        numbered_by(&mut self.row, alloc, t)
    }
}

// The place of a variable in the row, where it is put last if the row lacks it.
fn number(row: &mut IndexSet<u32>, x: u32) -> Result<u32, NoMemory>
    requires { IsRow row.old.keys }
    ensures row { OnOk result (row.new.keys ≡ with_new row.old.keys x) }
    ensures front { IsFront row.old.keys row.new.keys }
    ensures kept { IsRow row.new.keys }
    ensures place { IfOk result (λ m. slice_get row.new.keys m ≡ Some x) }
{
    let (place, _) = row.insert_full(x)?;
    // No variable is there twice, so there are no more places than variables.
    Ok(place as u32)
}

// The term with places of the row in place of its variables, which are put last where the row lacks them.
fn numbered_by(row: &mut IndexSet<u32>, alloc: Global, t: &Term) -> Result<Term, NoMemory>
    requires { IsRow row.old.keys }
    ensures row { OnOk result (row.new.keys ≡ with_variables row.old.keys (view t.now)) }
    ensures front { IsFront row.old.keys row.new.keys }
    ensures kept { IsRow row.new.keys }
    ensures numbered { IfOk result (λ u. IsNumbered row.new.keys (view t.now) (view u)) }
{
    match t {
        Term::Var(x) => Ok(Term::Var(number(row, *x)?)),
        Term::Fun(f, args) => {
            let mut numbered = Vec::with_capacity(alloc, args.len())?;
            'arguments: for arg in args {
                numbered.push(numbered_by(row, alloc, arg)?)?;
            }
            Ok(Term::Fun(*f, numbered))
        }
    }
}
