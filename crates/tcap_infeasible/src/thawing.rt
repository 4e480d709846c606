//! Caps and rigid caps of terms, with holes counted from a number of the caller's.
ghost use Rattle.std.specs.Prelude.{◌≡◌, ◌≤◌, ◌<◌, ◌+◌, ◌^◌, ℕ, true, IfOk};
ghost use Rattle.rewriting.specs.Terms as math;
ghost use Rattle.rewriting.specs.Prelude.{var, occurs, IsSystem};
ghost use Rattle.caps.specs.Caps.{any, kept};
ghost use Rattle.term_core.specs.View.{view};
ghost use Rattle.tcap_infeasible.specs.Answers.{CapAnswers};
ghost use Rattle.tcap_infeasible.specs.Thawing as math_caps;
ghost use Rattle.tcap_infeasible.specs.Thawing.{LiesOn};
ghost use Rattle.tcap_infeasible.specs.Keys.{HavePlacesFor};
ghost use Rattle.tcap_infeasible.specs.Reducts.{KeepsReducts, KeepsOwnReducts};

use crate::Cap;
use crate::capping::{FIRST_HOLE, Leaf, frozen_cap};
use crate::comparing::symbol_count;
use crate::keys::keyed;
use renumbering::Numbering;
use rule_index::IndexedSystem;
use std::alloc::Global;
use term_core::{NoMemory, System, Term};

// A frozen cap of a term, in the variables and symbols of the term, with holes from `fresh` on.
fn thawed(alloc: Global, t: &Term, cap: &Term, fresh: u32) -> Result<Term, NoMemory>
    requires { LiesOn fresh (view t.now) (view cap.now) }
    ensures { IfOk result (λ u. view u ≡ math_caps.thawed fresh (view t.now) (view cap.now)) }
{
    match (t, cap) {
        (_, Term::Var(hole)) => Ok(Term::Var(fresh + (*hole - FIRST_HOLE))),
        (Term::Var(x), Term::Fun(_, _)) => Ok(Term::Var(*x)),
        (Term::Fun(f, args), Term::Fun(_, caps)) => {
            let mut out = Vec::with_capacity(alloc, args.len())?;
            for i in 0..args.len() {
                out.push(thawed(alloc, &args[i], &caps[i], fresh)?)?;
            }
            Ok(Term::Fun(*f, out))
        }
    }
}

/// The cap of a term: each variable is a hole, and so is each symbol that, over capped arguments, unifies with a left side
/// (after Giesl, Thiemann and Schneider-Kamp 2005). The holes are the variables from `fresh` on, in preorder.
pub fn tcap_in(alloc: Global, sys: &IndexedSystem, t: &Term, fresh: u32) -> Result<Cap, NoMemory>
    requires fit { math.Fits (view t.now) }
    requires room { fresh + math.size (view t.now) ≤ 2 ^ 32 }
    ensures answer { CapAnswers sys.now any var (view t.now) fresh result }
    ensures reducts { KeepsReducts sys.now (view t.now) result }
{
    let mut next = FIRST_HOLE;
    match frozen_cap(alloc, sys, t, Leaf::Hole, &mut next)? {
        Cap::Capped(u) => Ok(Cap::Capped(thawed(alloc, t, &u, fresh)?)),
        Cap::TooLarge => Ok(Cap::TooLarge),
    }
}

/// The cap of a term, as [`tcap_in`] gives it, with an index of the rules made for this one question.
pub fn tcap(alloc: Global, sys: &System, t: &Term, fresh: u32) -> Result<Cap, NoMemory>
    requires fit { math.Fits (view t.now) }
    requires room { fresh + math.size (view t.now) ≤ 2 ^ 32 }
    ensures answer { CapAnswers sys.now any var (view t.now) fresh result }
    ensures reducts { KeepsReducts sys.now (view t.now) result }
{
    let indexed = IndexedSystem::new(alloc, sys)?;
    tcap_in(alloc, &indexed, t, fresh)
}

// The rigid cap of the term with places of rows, which has constants from the base on.
fn thawed_rigid(
    alloc: Global,
    sys: &IndexedSystem,
    t: &Term,
    places: &Term,
    base: u32,
    fresh: u32,
) -> Result<Cap, NoMemory>
    requires fit { math.Fits (view t.now) }
    requires room { fresh + math.size (view t.now) ≤ 2 ^ 32 }
    requires sound { IsSystem sys.now }
    requires places { HavePlacesFor sys.now base (view t.now) (view places.now) }
    ensures { CapAnswers sys.now kept var (view t.now) fresh result }
{
    let mut next = FIRST_HOLE;
    match frozen_cap(alloc, sys, places, Leaf::Kept(base), &mut next)? {
        Cap::Capped(u) => Ok(Cap::Capped(thawed(alloc, t, &u, fresh)?)),
        Cap::TooLarge => Ok(Cap::TooLarge),
    }
}

/// The same, but that the variables of the term stay.
pub fn rigid_cap_in(
    alloc: Global,
    sys: &IndexedSystem,
    t: &Term,
    fresh: u32,
) -> Result<Cap, NoMemory>
    requires fit { math.Fits (view t.now) }
    requires room { fresh + math.size (view t.now) ≤ 2 ^ 32 }
    requires below { (x : ℕ) → occurs x (view t.now) ≡ true → x < fresh }
    ensures answer { CapAnswers sys.now kept var (view t.now) fresh result }
    ensures reducts { KeepsOwnReducts sys.now (view t.now) fresh result }
{
    let symbols = symbol_count(sys);
    let mut foreign = Numbering::new(alloc);
    let mut variables = Numbering::new(alloc);
    let places = keyed(alloc, symbols, &mut foreign, &mut variables, t)?;
    let base = symbols + foreign.len() as u32;
    thawed_rigid(alloc, sys, t, &places, base, fresh)
}

/// The rigid cap of a term, as [`rigid_cap_in`] gives it, with an index of the rules made for this one question.
pub fn rigid_cap(alloc: Global, sys: &System, t: &Term, fresh: u32) -> Result<Cap, NoMemory>
    requires fit { math.Fits (view t.now) }
    requires room { fresh + math.size (view t.now) ≤ 2 ^ 32 }
    requires below { (x : ℕ) → occurs x (view t.now) ≡ true → x < fresh }
    ensures answer { CapAnswers sys.now kept var (view t.now) fresh result }
    ensures reducts { KeepsOwnReducts sys.now (view t.now) fresh result }
{
    let indexed = IndexedSystem::new(alloc, sys)?;
    rigid_cap_in(alloc, &indexed, t, fresh)
}
