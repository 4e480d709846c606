//! Triangular substitutions: bound variables, and terms under them. A bound term is not copied: it stands in one of the sides of the
//! run, with variables that may be bound themselves.
ghost use Rattle.std.specs.Prelude.{◌≡◌, ◌≤◌, ◌<◌, ◌+◌, ◌↔◌, ◌⊎◌, IsTrue, IfOk, IfSome, IfNone, length, map, take};
ghost use Rattle.rewriting.specs.Terms as math;
ghost use Rattle.rewriting.specs.Prelude.{apply, occurs as occurs_in_term};
ghost use Rattle.unifier_run.specs.Run.{value, DoAllFit};
ghost use Rattle.unifier_run.specs.Laws.{as_map};
ghost use Rattle.term_core.specs.View.{view};
ghost use Rattle.unification.specs.Solving.{shared, bindings, AreInTurn, IsHead, IsNewTo};

use std::alloc::Global;
use term_core::{MAX_DEPTH, MAX_NODES, NoMemory, Subst, Term, occurs};

/// A variable with the term that it was bound to, which stands in a side of an equation. The variable stands for the instance of
/// that term under all bindings.
#[derive(Drop)]
pub struct Bound<'a> {
    pub variable: u32,
    pub term: &'a Term,
}

// What a variable, which t is, comes to. One pass is enough, since no variable is bound to one that was bound before.
fn followed<'a>(found: &[Bound<'a>], x: u32, t: &'a Term) -> &'a Term
    requires turns { AreInTurn found.now }
    requires variable { view t.now ≡ math.var x }
    ensures head { IsHead (bindings found.now) (view result.now) }
    ensures same { apply (value (bindings found.now)) (view result.now) ≡ apply (value (bindings found.now)) (view t.now) }
{
    let mut head = t;
    let mut variable = x;
    for bound in found {
        if bound.variable == variable {
            head = bound.term;
            match head {
                Term::Var(y) => variable = *y,
                Term::Fun(_, _) => return head,
            }
        }
    }
    head
}

/// What a term comes to where it is a bound variable.
pub fn head<'a>(found: &[Bound<'a>], t: &'a Term) -> &'a Term
    requires { AreInTurn found.now }
    ensures head { IsHead (bindings found.now) (view result.now) }
    ensures same { apply (value (bindings found.now)) (view result.now) ≡ apply (value (bindings found.now)) (view t.now) }
{
    match t {
        Term::Var(x) => followed(found, *x, t),
        Term::Fun(_, _) => t,
    }
}

// The room that the instance of t, which is not built, leaves of a number of nodes, where it has no more nodes and levels
// than these.
#[tactic(auto, using(rewriting::proofs::Lengths::size_positive, crate::proofs::Sizes::depth_positive))]
fn room_under<'a>(found: &[Bound<'a>], t: &'a Term, room: u32, levels: u32) -> Option<u32>
    requires { AreInTurn found.now }
    ensures nodes { IfSome result (λ left. left + math.size (apply (value (bindings found.now)) (view t.now)) ≡ room) }
    ensures levels { IfSome result (λ _. math.depth (apply (value (bindings found.now)) (view t.now)) ≤ levels) }
    ensures none { IfNone result ((room < math.size (apply (value (bindings found.now)) (view t.now))) ⊎ (levels < math.depth (apply (value (bindings found.now)) (view t.now)))) }
{
    if room == 0 || levels == 0 {
        return None;
    }
    match head(found, t) {
        Term::Var(_) => Some(room - 1),
        Term::Fun(_, args) => {
            let mut left = room - 1;
            for arg in args {
                left = room_under(found, arg, left, levels - 1)?;
            }
            Some(left)
        }
    }
}

/// Whether the instance of a term fits.
pub fn fits_under<'a>(found: &[Bound<'a>], t: &'a Term) -> bool
    requires { AreInTurn found.now }
    ensures { IsTrue result ↔ math.Fits (apply (value (bindings found.now)) (view t.now)) }
{
    room_under(found, t, MAX_NODES, MAX_DEPTH).is_some()
}

/// Whether what the first variables stand for fits; it is measured where that is not known.
pub fn do_fit_under(found: &[Bound<'_>], count: usize, known: bool) -> bool
    requires turns { AreInTurn found.now }
    requires count { count ≤ length found.now }
    requires known { IsTrue known → DoAllFit (take count (bindings found.now)) }
    ensures { IsTrue result ↔ DoAllFit (take count (bindings found.now)) }
{
    if known {
        return true;
    }
    for i in 0..count {
        let bound = &found[i];
        if !fits_under(found, bound.term) {
            return false;
        }
    }
    true
}

/// The instance of a term, of any size.
fn instance<'a>(alloc: Global, found: &[Bound<'a>], t: &'a Term) -> Result<Term, NoMemory>
    requires { AreInTurn found.now }
    ensures { IfOk result (λ u. view u ≡ apply (value (bindings found.now)) (view t.now)) }
{
    match head(found, t) {
        Term::Var(x) => Ok(Term::Var(*x)),
        Term::Fun(f, args) => {
            let mut out = Vec::with_capacity(alloc, args.len())?;
            for arg in args {
                out.push(instance(alloc, found, arg)?)?;
            }
            Ok(Term::Fun(*f, out))
        }
    }
}

// Whether a term is a variable or a constant.
fn is_leaf(t: &Term) -> bool
    ensures { IsTrue result → math.size (view t.now) ≡ 1 }
{
    match t {
        Term::Var(_) => true,
        Term::Fun(_, args) => args.is_empty(),
    }
}

// Whether a variable occurs in no bound term, as these stand.
fn is_new(found: &[Bound<'_>], x: u32) -> bool
    ensures { IsTrue result → IsNewTo x (map shared found.now) }
{
    for bound in found {
        if occurs(x, bound.term) {
            return false;
        }
    }
    true
}

/// Whether it is plain that what variables stand for keeps its size where x is bound to t.
pub fn keeps_sizes(found: &[Bound<'_>], x: u32, t: &Term) -> bool
    ensures { IsTrue result → (math.size (view t.now) ≡ 1) ⊎ IsNewTo x (map shared found.now) }
{
    is_leaf(t) || is_new(found, x)
}

/// Whether a variable occurs in the instance of a term.
pub fn occurs_under<'a>(found: &[Bound<'a>], x: u32, t: &'a Term) -> bool
    requires { AreInTurn found.now }
    ensures { result ≡ occurs_in_term x (apply (value (bindings found.now)) (view t.now)) }
{
    match head(found, t) {
        Term::Var(y) => x == *y,
        Term::Fun(_, args) => {
            for arg in args {
                if occurs_under(found, x, arg) {
                    return true;
                }
            }
            false
        }
    }
}

/// The substitution that bound variables make.
pub fn subst_of(alloc: Global, found: &[Bound<'_>]) -> Result<Subst, NoMemory>
    requires { AreInTurn found.now }
    ensures { IfOk result (λ s. s ≡ as_map (bindings found.now)) }
{
    let mut subst = Subst::new(alloc);
    for i in 0..found.len() {
        let bound = &found[found.len() - 1 - i];
        subst.bind(bound.variable, instance(alloc, found, bound.term)?)?;
    }
    Ok(subst)
}
