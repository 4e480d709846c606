//! Terms are compared by the lexicographic path order.
// Each pair of a part of the one and a part of the other is compared once at most, so there are no more comparisons than the
// product of the sizes; where each argument is tried anew they are exponentially many. Tests of equality come on top, for
// each pair within the size of its first part.
ghost use Rattle.std.specs.Prelude.{◌≡◌, ◌+◌, ◌≤◌, ◌&&◌, nat_eq, length};
ghost use Rattle.rewriting.specs.Terms.{app, size, size_all};
ghost use Rattle.term_core.specs.View.{view, views};
ghost use Rattle.path_orders.specs.Comparing.{compared, exceeds, exceeds_each, exceeds_from, is_greater, reaches};
ghost use Rattle.lpo.specs.Leaves.{IsKnown};
ghost use Rattle.lpo.specs.Places.{before_by};

use crate::leaves::{is_above_constant, is_in_any};
use crate::places::is_before;
use term_core::{Term, equal};

fn is_same_symbol(f: u32, args: &[Term], g: u32, others: &[Term]) -> bool
    ensures { result ≡ (nat_eq f g && nat_eq (length args.now) (length others.now)) }
{
    f == g && args.len() == others.len()
}

// The root of a term and its arguments.
#[derive(Clone, Copy)]
struct Root<'a> {
    symbol: u32,
    args: &'a [Term],
}

/// Whether one term is greater than another.
#[cycle(compare)]
pub fn is_above(places: &[u32], s: &Term, t: &Term) -> bool
    ensures { result ≡ is_greater (before_by places.now) (view s.now) (view t.now) }
{
    match s {
        Term::Var(_) => false,
        Term::Fun(f, args) => {
            let mut known = None;
            is_above_from(places, &Root { symbol: *f, args }, t, &mut known)
        }
    }
}

// The same for a term with this root, whose arguments reach the constant that is known.
#[cycle(compare)]
fn is_above_from(places: &[u32], root: &Root<'_>, t: &Term, known: &mut Option<u32>) -> bool
    requires { IsKnown (before_by places.now) (views root.now.args.now) known.old }
    ensures above { result ≡ exceeds (before_by places.now) root.now.symbol (compared (before_by places.now) (views root.now.args.now)) (view t.now) }
    ensures known { IsKnown (before_by places.now) (views root.now.args.now) known.new }
{
    match t {
        Term::Var(x) => is_in_any(*x, root.args),
        Term::Fun(g, others) => {
            if others.len() == 0 {
                is_above_constant(places, root.symbol, root.args, *g, known)
            } else if is_before(places, root.symbol, *g) {
                is_above_each(places, root, others, known)
            } else if is_same_symbol(root.symbol, root.args, *g, others) {
                is_above_behind(places, root, root.args, t, others, known)
            } else {
                is_reached(places, root.args, t)
            }
        }
    }
}

// Whether the term is greater than each of some.
#[cycle(compare)]
fn is_above_each(places: &[u32], root: &Root<'_>, ts: &[Term], known: &mut Option<u32>) -> bool
    requires { IsKnown (before_by places.now) (views root.now.args.now) known.old }
    ensures above { result ≡ exceeds_each (before_by places.now) root.now.symbol (compared (before_by places.now) (views root.now.args.now)) (views ts.now) }
    ensures known { IsKnown (before_by places.now) (views root.now.args.now) known.new }
{
    match ts {
        [] => true,
        [first, rest @ ..] => {
            if !is_above_from(places, root, first, known) {
                return false;
            }
            is_above_each(places, root, rest, known)
        }
    }
}

// The same symbol stands at both roots, and the arguments before `rest` and `ts` are the same.
#[cycle(compare)]
fn is_above_behind(
    places: &[u32],
    root: &Root<'_>,
    rest: &[Term],
    t: &Term,
    ts: &[Term],
    known: &mut Option<u32>,
) -> bool
    requires behind { size_all (views root.now.args.now) + size_all (views ts.now) + 1 ≡ size_all (views rest.now) + size (view t.now) }
    requires within { size_all (views rest.now) ≤ size_all (views root.now.args.now) }
    requires known { IsKnown (before_by places.now) (views root.now.args.now) known.old }
    ensures above { result ≡ exceeds_from (before_by places.now) root.now.symbol (compared (before_by places.now) (views root.now.args.now)) (compared (before_by places.now) (views rest.now)) (view t.now) (views ts.now) }
    ensures known { IsKnown (before_by places.now) (views root.now.args.now) known.new }
{
    match rest {
        [] => false,
        [left, behind @ ..] => match ts {
            [] => false,
            [right, others @ ..] => {
                if equal(left, right) {
                    is_above_behind(places, root, behind, t, others, known)
                } else if is_above(places, left, right) {
                    is_above_each(places, root, others, known)
                } else {
                    is_reached(places, behind, t)
                }
            }
        },
    }
}

// Whether one of the terms equals another term or is greater.
#[cycle(compare)]
fn is_reached(places: &[u32], ss: &[Term], t: &Term) -> bool
    ensures { result ≡ reaches (compared (before_by places.now) (views ss.now)) (view t.now) }
{
    match ss {
        [] => false,
        [first, rest @ ..] => {
            if equal(first, t) {
                true
            } else if is_above(places, first, t) {
                true
            } else {
                is_reached(places, rest, t)
            }
        }
    }
}
