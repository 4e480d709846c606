//! Terms with small numbers for their variables and for the symbols that a system lacks, so that constants in 32 bits are none
//! of these symbols.
ghost use Rattle.std.specs.Prelude.{◌≤◌, ◌<◌, ◌+◌, ◌^◌, IfOk, OnOk, length};
ghost use Rattle.rewriting.specs.Terms as math;
ghost use Rattle.rewriting.specs.Lists.{IsFront, AreDistinct};
ghost use Rattle.term_core.specs.View.{view};
ghost use Rattle.tcap_infeasible.specs.Keys.{IsKey, IsKeyed};

use renumbering::Numbering;
use std::alloc::Global;
use term_core::{NoMemory, Term};

// The symbol itself among the first ones, else past them by its number in the row of the others.
fn keyed_symbol(symbols: u32, foreign: &mut Numbering, f: u32) -> Result<u32, NoMemory>
    requires symbols { symbols < 2 ^ 31 }
    requires room { length foreign.old < 2 ^ 31 }
    ensures front { OnOk result (IsFront foreign.old foreign.new) }
    ensures distinct { OnOk result (AreDistinct foreign.old → AreDistinct foreign.new) }
    ensures grown { OnOk result (length foreign.new ≤ length foreign.old + 1) }
    ensures key { IfOk result (IsKey symbols foreign.new f) }
{
    if f < symbols {
        return Ok(f);
    }
    Ok(symbols + foreign.number(f - symbols)?)
}

/// The term with small numbers for its variables, and for its foreign symbols those from `symbols` on.
pub fn keyed(
    alloc: Global,
    symbols: u32,
    foreign: &mut Numbering,
    variables: &mut Numbering,
    t: &Term,
) -> Result<Term, NoMemory>
    requires symbols { symbols < 2 ^ 31 }
    requires room { length foreign.old + math.size (view t.now) ≤ 2 ^ 31 }
    ensures foreign_front { OnOk result (IsFront foreign.old foreign.new) }
    ensures front { OnOk result (IsFront variables.old variables.new) }
    ensures foreign_distinct { OnOk result (AreDistinct foreign.old → AreDistinct foreign.new) }
    ensures distinct { OnOk result (AreDistinct variables.old → AreDistinct variables.new) }
    ensures foreign_grown { OnOk result (length foreign.new ≤ length foreign.old + math.size (view t.now)) }
    ensures grown { OnOk result (length variables.new ≤ length variables.old + math.size (view t.now)) }
    ensures keys { IfOk result (λ u. IsKeyed symbols foreign.new variables.new (view t.now) (view u)) }
{
    match t {
        Term::Var(x) => Ok(Term::Var(variables.number(*x)?)),
        Term::Fun(f, args) => {
            let symbol = keyed_symbol(symbols, foreign, *f)?;
            let mut places = Vec::with_capacity(alloc, args.len())?;
            for arg in args {
                places.push(keyed(alloc, symbols, foreign, variables, arg)?)?;
            }
            Ok(Term::Fun(symbol, places))
        }
    }
}
