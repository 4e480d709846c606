//! Two terms compared by their caps: where these clash, the terms have no common reduct.
ghost use Rattle.std.specs.Prelude.{◌≡◌, length};
ghost use Rattle.rewriting.specs.Terms as math;
ghost use Rattle.rewriting.specs.Prelude.{System, IsSystem};
ghost use Rattle.caps.specs.Caps.{any, kept};
ghost use Rattle.term_core.specs.View.{view};
ghost use Rattle.tcap_infeasible.specs.Clashes.{do_clash};
ghost use Rattle.tcap_infeasible.specs.Frozen.{HasConstants};
ghost use Rattle.tcap_infeasible.specs.Compared.{PairAnswers, KeepsInstancesApart, GivesApart, FrozenPairAnswers};
ghost use Rattle.tcap_infeasible.specs.Made.{IsMadeCap, MadeAnswers};

use crate::Cap;
use crate::capping::{FIRST_HOLE, Leaf, clashes, frozen_cap};
use crate::keys::keyed;
use renumbering::Numbering;
use rule_index::IndexedSystem;
use std::alloc::Global;
use term_core::{NoMemory, Term};

/// What comparing the caps of two terms tells.
#[derive(Clone, Copy, Debug, PartialEq, Eq)]
pub enum ComparedCaps {
    /// They do not unify, so the terms have no common reduct; where the caps are not rigid, no instances of theirs have.
    Clash,
    Unify,
    /// A term has no cap, or the run for both passes the size.
    TooLarge,
}

// The same for terms whose variables that stay have constants.
fn compare_frozen(
    alloc: Global,
    sys: &IndexedSystem,
    u: &Term,
    v: &Term,
    leaf: Leaf,
) -> Result<ComparedCaps, NoMemory>
    requires first { math.Fits (view u.now) }
    requires second { math.Fits (view v.now) }
    requires first_constants { HasConstants sys.now leaf (view u.now) }
    requires second_constants { HasConstants sys.now leaf (view v.now) }
    ensures { FrozenPairAnswers sys.now leaf (view u.now) (view v.now) result }
{
    let mut next = FIRST_HOLE;
    let Cap::Capped(first) = frozen_cap(alloc, sys, u, leaf, &mut next)? else {
        return Ok(ComparedCaps::TooLarge);
    };
    let Cap::Capped(second) = frozen_cap(alloc, sys, v, leaf, &mut next)? else {
        return Ok(ComparedCaps::TooLarge);
    };
    if clashes(&first, &second, 0) {
        Ok(ComparedCaps::Clash)
    } else {
        Ok(ComparedCaps::Unify)
    }
}

/// How many symbols a system has.
pub fn symbol_count(sys: &IndexedSystem) -> u32
    ensures count { result ≡ length sys.now.arities }
    ensures sound { IsSystem sys.now }
{
    // The law tells that symbols are few.
    sys.rules_are_sound();
    sys.system().arities().len() as u32
}

/// Compares the caps of two terms, in which each variable is a hole: no hole of the one is a hole of the other.
pub fn compare_caps(
    alloc: Global,
    sys: &IndexedSystem,
    u: &Term,
    v: &Term,
) -> Result<ComparedCaps, NoMemory>
    requires first { math.Fits (view u.now) }
    requires second { math.Fits (view v.now) }
    ensures answer { PairAnswers sys.now any (view u.now) (view v.now) result }
    ensures apart { KeepsInstancesApart sys.now (view u.now) (view v.now) result }
{
    compare_frozen(alloc, sys, u, v, Leaf::Hole)
}

/// Compares the rigid caps of two terms: their variables are the same constants in both, and no hole of the one is a hole
/// of the other.
pub fn compare_rigid_caps(
    alloc: Global,
    sys: &IndexedSystem,
    u: &Term,
    v: &Term,
) -> Result<ComparedCaps, NoMemory>
    requires first { math.Fits (view u.now) }
    requires second { math.Fits (view v.now) }
    ensures answer { PairAnswers sys.now kept (view u.now) (view v.now) result }
    ensures apart { GivesApart sys.now (view u.now) (view v.now) result }
{
    let symbols = symbol_count(sys);
    let mut foreign = Numbering::new(alloc);
    let mut variables = Numbering::new(alloc);
    let first = keyed(alloc, symbols, &mut foreign, &mut variables, u)?;
    let second = keyed(alloc, symbols, &mut foreign, &mut variables, v)?;
    let base = symbols + foreign.len() as u32;
    compare_frozen(alloc, sys, &first, &second, Leaf::Kept(base))
}

/// Whether the rigid caps of two terms clash that were made before, both with holes from `fresh` on. No memory is asked for.
pub fn made_caps_clash(first: &Term, second: &Term, fresh: u32) -> bool
    ensures walk { result ≡ do_clash fresh (view first.now) (view second.now) }
    ensures answer { (sys : System) (u v : math.Term) → IsMadeCap sys fresh u (view first.now) → IsMadeCap sys fresh v (view second.now) → MadeAnswers sys u v result }
{
    clashes(first, second, fresh)
}
