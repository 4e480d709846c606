//! The variables of a term: whether one occurs, all in order of first occurrence, those that are repeated, and whether the term is linear.
ghost use Rattle.std.specs.Prelude.{◌≡◌, ◌≤◌, ◌<◌, ◌+◌, ◌↔◌, ℕ, IfOk, OnOk, IfSome, IsTrue, true, false, map};
ghost use Rattle.rewriting.specs.Prelude.{with_new, with_variables, variables, occurrences, IsLinear, var, right_sides};
ghost use Rattle.rewriting.specs.Variables as math;
ghost use Rattle.term_core.specs.View.{view, views};
ghost use Rattle.term_core.specs.RuleView.{condition_view};
ghost use Rattle.term_core.specs.Counting.{bit, with_counts, HasTwo, IsBelow};
ghost use Rattle.term_core.specs.Noting.{Has, AreNoted};

use crate::systems::Cond;
use crate::terms::{NoMemory, Term};
use std::alloc::Global;
use std::collections::BTreeSet;

/// Whether a variable occurs in a term.
#[cycle(occurs)]
#[tactic(auto, using(rewriting::proofs::Lengths::size_positive))]
pub fn occurs(x: u32, t: &Term) -> bool
    ensures { result ≡ math.occurs x (view t.now) }
{
    match t {
        Term::Var(y) => x == *y,
        Term::Fun(_, args) => occurs_any(x, args),
    }
}

// Whether it occurs in one of some terms.
#[cycle(occurs)]
#[tactic(auto, using(rewriting::proofs::Lengths::size_positive))]
fn occurs_any(x: u32, args: &[Term]) -> bool
    ensures { result ≡ math.occurs_in x (views args.now) }
{
    match args {
        [] => false,
        [first, rest @ ..] => occurs(x, first) || occurs_any(x, rest),
    }
}

/// Whether each variable of a term, of any size, has a number below `bound`.
#[cycle(below)]
#[tactic(auto, using(rewriting::proofs::Lengths::size_positive))]
pub fn has_variables_below(bound: u32, t: &Term) -> bool
    ensures yes { IsTrue result → (x : ℕ) → math.occurs x (view t.now) ≡ true → x < bound }
    ensures no { result ≡ false → (x : ℕ) × (math.occurs x (view t.now) ≡ true) × (bound ≤ x) }
{
    match t {
        Term::Var(x) => *x < bound,
        Term::Fun(_, args) => have_variables_below(bound, args),
    }
}

// The same of some terms.
#[cycle(below)]
#[tactic(auto, using(rewriting::proofs::Lengths::size_positive))]
fn have_variables_below(bound: u32, args: &[Term]) -> bool
    ensures yes { IsTrue result → (x : ℕ) → math.occurs_in x (views args.now) ≡ true → x < bound }
    ensures no { result ≡ false → (x : ℕ) × (math.occurs_in x (views args.now) ≡ true) × (bound ≤ x) }
{
    match args {
        [] => true,
        [first, rest @ ..] => has_variables_below(bound, first)
            && have_variables_below(bound, rest),
    }
}

/// Whether a variable occurs in a right side of some conditions.
pub fn occurs_in_right_sides(x: u32, conds: &[Cond]) -> bool
    ensures { result ≡ math.occurs_in x (right_sides (map condition_view conds.now)) }
{
    for cond in conds {
        if occurs(x, &cond.right) {
            return true;
        }
    }
    false
}

// Puts a variable last, where the list lacks it.
fn add(x: u32, out: &mut Vec<u32>) -> Result<(), NoMemory>
    ensures { OnOk result (out.new.items ≡ with_new out.old.items x) }
{
    if !out.contains(&x) {
        out.push(x)?;
    }
    Ok(())
}

fn collect(t: &Term, out: &mut Vec<u32>) -> Result<(), NoMemory>
    ensures { OnOk result (out.new.items ≡ with_variables out.old.items (view t.now)) }
{
    match t {
        Term::Var(x) => add(*x, out),
        Term::Fun(_, args) => {
            for arg in args {
                collect(arg, out)?;
            }
            Ok(())
        }
    }
}

/// The variables of a term, each once, in order of first occurrence.
pub fn vars(alloc: Global, t: &Term) -> Result<Vec<u32>, NoMemory>
    ensures { IfOk result (λ xs. xs.items ≡ variables (view t.now)) }
{
    let mut out = Vec::new(alloc);
    collect(t, &mut out)?;
    Ok(out)
}

// Notes a variable, and as a repeated one where it is noted already.
fn note(x: u32, seen: &mut BTreeSet<u32>, repeated: &mut BTreeSet<u32>) -> Result<(), NoMemory>
    ensures { OnOk result (AreNoted (λ y. occurrences y (var x)) seen.old seen.new repeated.old repeated.new) }
{
    if !seen.insert(x)? {
        repeated.insert(x)?;
    }
    Ok(())
}

// The same for each variable as it occurs in a term.
fn note_all(
    t: &Term,
    seen: &mut BTreeSet<u32>,
    repeated: &mut BTreeSet<u32>,
) -> Result<(), NoMemory>
    ensures { OnOk result (AreNoted (λ x. occurrences x (view t.now)) seen.old seen.new repeated.old repeated.new) }
{
    match t {
        Term::Var(x) => note(*x, seen, repeated),
        Term::Fun(_, args) => {
            for arg in args {
                note_all(arg, seen, repeated)?;
            }
            Ok(())
        }
    }
}

// Variables of a term, and among them all that occur twice or more often.
pub(crate) fn repeated(alloc: Global, t: &Term) -> Result<BTreeSet<u32>, NoMemory>
    ensures { IfOk result (λ xs. (x : ℕ) → 2 ≤ occurrences x (view t.now) → Has xs x) }
{
    let mut seen = BTreeSet::new(alloc);
    let mut repeated = BTreeSet::new(alloc);
    note_all(t, &mut seen, &mut repeated)?;
    Ok(repeated)
}

// The variables that one pass of `is_linear` counts: so many numbers in a row.
const WINDOW: usize = 1024;

// Marks a variable that is among those from `from` on, one for each place; false where it is marked.
fn mark(x: u32, from: u32, seen: &mut [bool]) -> bool
    ensures yes { IsTrue result → map bit seen.new ≡ with_counts (λ y. occurrences y (var x)) from (map bit seen.old) }
    ensures no { result ≡ false → HasTwo (with_counts (λ y. occurrences y (var x)) from (map bit seen.old)) }
{
    if x < from {
        return true;
    }
    let at = (x - from) as usize;
    if at >= seen.len() {
        return true;
    }
    if seen[at] {
        return false;
    }
    seen[at] = true;
    true
}

// The same for each variable as it occurs in a term.
fn mark_all(t: &Term, from: u32, seen: &mut [bool]) -> bool
    ensures yes { IsTrue result → map bit seen.new ≡ with_counts (λ x. occurrences x (view t.now)) from (map bit seen.old) }
    ensures no { result ≡ false → HasTwo (with_counts (λ x. occurrences x (view t.now)) from (map bit seen.old)) }
{
    match t {
        Term::Var(x) => mark(*x, from, seen),
        Term::Fun(_, args) => {
            for arg in args {
                if !mark_all(arg, from, seen) {
                    return false;
                }
            }
            true
        }
    }
}

// Whether no variable of a window occurs twice.
fn is_linear_from(t: &Term, from: u32) -> bool
    ensures yes { IsTrue result → (x : ℕ) → from ≤ x → x < from + WINDOW → occurrences x (view t.now) ≤ 1 }
    ensures no { result ≡ false → (x : ℕ) × (2 ≤ occurrences x (view t.now)) }
{
    let mut seen = [false; WINDOW];
    mark_all(t, from, &mut seen)
}

// The lesser of two numbers, where there are two.
fn lesser(a: Option<u32>, b: Option<u32>) -> Option<u32>
    ensures left { (x : ℕ) → IsBelow x result → IsBelow x a }
    ensures right { (x : ℕ) → IsBelow x result → IsBelow x b }
    ensures one { (bound : ℕ) → IfSome a (λ y. bound ≤ y) → IfSome b (λ y. bound ≤ y) → IfSome result (λ y. bound ≤ y) }
{
    match (a, b) {
        (Some(x), Some(y)) => Some(x.min(y)),
        (Some(x), None) => Some(x),
        (None, y) => y,
    }
}

// The least variable of a term from a number on.
fn least_from(t: &Term, bound: u64) -> Option<u32>
    ensures bound { IfSome result (λ y. bound ≤ y) }
    ensures none_before { (x : ℕ) → bound ≤ x → IsBelow x result → occurrences x (view t.now) ≡ 0 }
{
    match t {
        Term::Var(x) => {
            if u64::from(*x) >= bound {
                Some(*x)
            } else {
                None
            }
        }
        Term::Fun(_, args) => {
            let mut least = None;
            for arg in args {
                least = lesser(least, least_from(arg, bound));
            }
            least
        }
    }
}

/// Whether no variable occurs twice.
pub fn is_linear(t: &Term) -> bool
    ensures { IsTrue result ↔ IsLinear (view t.now) }
{
    let mut from = 0;
    'windows: loop {
        if !is_linear_from(t, from) {
            return false;
        }
        match least_from(t, from as u64 + WINDOW as u64) {
            Some(next) => from = next,
            None => return true,
        }
    }
}
