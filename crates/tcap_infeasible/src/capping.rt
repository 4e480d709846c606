//! Caps with holes that are no variables of rules, so that left sides need no renaming.
ghost use Rattle.std.specs.Prelude.{◌≡◌, ◌≤◌, ◌<◌, ◌+◌, ◌^◌, ℕ, IsTrue};
ghost use Rattle.rewriting.specs.Terms as math;
ghost use Rattle.rewriting.specs.Prelude.{Substitution, IsLinear, IsDisjoint};
ghost use Rattle.caps.specs.Caps.{Cap as MathCap, holes, filled, frozen};
ghost use Rattle.term_core.specs.View.{view, views};
ghost use Rattle.tcap_infeasible.specs.Clashes.{do_clash};
ghost use Rattle.tcap_infeasible.specs.Frozen.{leaf_of, standing, HasConstant, HasConstants, IsHeld, IsACap, LeftAnswers, RootAnswers, TopAnswers, FrozenAnswers};

use crate::Cap;
use rule_index::IndexedSystem;
use std::alloc::Global;
use term_core::{NoMemory, Term};
use unification::{Unified, unify_fitting};

/// The number of the first hole: the variables of rules and listed terms are below, unless a rule has a thousand million of them.
pub const FIRST_HOLE: u32 = 1 << 31;

/// What becomes of a variable.
#[derive(Clone, Copy)]
pub enum Leaf {
    Hole,
    /// It stays, as one of the constants from this symbol on.
    Kept(u32),
}

// What becomes of a symbol over capped arguments: it stays, or it is a hole, or a run passes the size.
#[derive(Clone, Copy)]
pub enum Top {
    Stays,
    Opens,
    Passes,
}

/// Whether two terms clash: at a position of both there are other symbols, or other numbers of arguments. The variables below
/// `constants` are constants. It ends at the first clash.
pub fn clashes(first: &Term, second: &Term, constants: u32) -> bool
    ensures { result ≡ do_clash constants (view first.now) (view second.now) }
{
    match (first, second) {
        (Term::Var(x), Term::Var(y)) => *x < constants && *y < constants && *x != *y,
        (Term::Var(x), Term::Fun(_, _)) => *x < constants,
        (Term::Fun(_, _), Term::Var(y)) => *y < constants,
        (Term::Fun(f, xs), Term::Fun(g, ys)) => {
            if *f != *g || xs.len() != ys.len() {
                return true;
            }
            for i in 0..xs.len() {
                if clashes(&xs[i], &ys[i], constants) {
                    return true;
                }
            }
            false
        }
    }
}

// A left side tried on a term. Where the left side is linear too, the run clashes exactly where the terms do, and it need
// not be made.
fn judge_left(alloc: Global, left: &Term, is_linear: bool, part: &Term) -> Result<Top, NoMemory>
    requires left_fits { math.Fits (view left.now) }
    requires fits { math.Fits (view part.now) }
    requires left_linear { IsTrue is_linear → IsLinear (view left.now) }
    requires linear { IsLinear (view part.now) }
    requires apart { IsDisjoint (view left.now) (math.cons (view part.now) math.nil) }
    ensures { LeftAnswers (view left.now) (view part.now) result }
{
    if is_linear {
        return Ok(if clashes(left, part, 0) {
            Top::Stays
        } else {
            Top::Opens
        });
    }
    match unify_fitting(alloc, left, part)? {
        Unified::Clash => Ok(Top::Stays),
        Unified::Mgu(_) => Ok(Top::Opens),
        Unified::TooLarge => Ok(Top::Passes),
    }
}

// The rules with the root symbol in order, tried on the whole term; the runs of all others clash at once.
fn judge_root(alloc: Global, sys: &IndexedSystem, f: u32, part: &Term) -> Result<Top, NoMemory>
    requires { IsACap sys.now f (view part.now) }
    ensures { (n : ℕ) (c : MathCap) → IsHeld sys.now f (view part.now) n c → RootAnswers sys.now (frozen sys.now c) result }
{
    let rules = sys.rules();
    for number in sys.with_root(f) {
        let left = &rules[*number as usize - 1].left;
        match judge_left(alloc, left, sys.is_left_linear(*number), part)? {
            Top::Stays => {}
            Top::Opens => return Ok(Top::Opens),
            Top::Passes => return Ok(Top::Passes),
        }
    }
    Ok(Top::Stays)
}

// The cap of a symbol over capped arguments, whose holes are numbered from `first` on.
fn topped(
    alloc: Global,
    sys: &IndexedSystem,
    f: u32,
    args: Vec<Term>,
    first: u32,
    next: &mut u32,
) -> Result<Cap, NoMemory>
    requires room { first + 1 < 2 ^ 32 }
    requires held { IsACap sys.now f (math.app f (views args.items)) }
    ensures { (s : Substitution) (c : MathCap) → IsHeld sys.now f (math.app f (views args.items)) first c → math.app f (views args.items) ≡ filled s first c → next.old ≡ first + holes c → TopAnswers sys.now s c first next.new result }
{
    let whole = Term::Fun(f, args);
    match judge_root(alloc, sys, f, &whole)? {
        Top::Stays => Ok(Cap::Capped(whole)),
        Top::Opens => {
            *next = first + 1;
            Ok(Cap::Capped(Term::Var(first)))
        }
        Top::Passes => Ok(Cap::TooLarge),
    }
}

// The cap of a variable.
fn frozen_leaf(alloc: Global, x: u32, leaf: Leaf, next: &mut u32) -> Term
    requires constant { HasConstant leaf x }
    requires room { next.old + 1 < 2 ^ 32 }
    ensures cap { view result ≡ filled (standing leaf) next.old (leaf_of leaf x) }
    ensures counted { next.new ≡ next.old + holes (leaf_of leaf x) }
{
    match leaf {
        Leaf::Hole => {
            let hole = *next;
            *next = hole + 1;
            Term::Var(hole)
        }
        Leaf::Kept(base) => Term::Fun(base + x, Vec::new(alloc)),
    }
}

/// The cap of a term, in which holes are variables from `next` on, and variables that stay are constants; `next` is then
/// the number after its last hole.
pub fn frozen_cap(
    alloc: Global,
    sys: &IndexedSystem,
    t: &Term,
    leaf: Leaf,
    next: &mut u32,
) -> Result<Cap, NoMemory>
    requires fit { math.Fits (view t.now) }
    requires low { 2 ^ 31 ≤ next.old }
    requires room { next.old + math.size (view t.now) < 2 ^ 32 }
    requires constants { HasConstants sys.now leaf (view t.now) }
    ensures { FrozenAnswers sys.now leaf (view t.now) next.old next.new result }
{
    match t {
        Term::Var(x) => Ok(Cap::Capped(frozen_leaf(alloc, *x, leaf, next))),
        Term::Fun(f, args) => {
            let first = *next;
            let mut capped = Vec::with_capacity(alloc, args.len())?;
            for arg in args {
                match frozen_cap(alloc, sys, arg, leaf, next)? {
                    Cap::Capped(u) => capped.push(u)?,
                    Cap::TooLarge => return Ok(Cap::TooLarge),
                }
            }
            topped(alloc, sys, *f, capped, first, next)
        }
    }
}
