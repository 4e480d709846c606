//! Terms are compared with variables and constants by one walk over their nodes.
// A term is compared with many leaves of another. Of the constants that its arguments reach the last found is kept: it and all
// behind it in the precedence need no further walk.
ghost use Rattle.std.specs.Prelude.{◌≡◌, ◌&&◌, ◌||◌, nat_eq, length};
ghost use Rattle.rewriting.specs.Variables.{occurs, occurs_in};
ghost use Rattle.term_core.specs.View.{view, views};
ghost use Rattle.lpo.specs.Leaves.{IsKnown, covers, do_meet, meets};
ghost use Rattle.lpo.specs.Places.{before_by};

use crate::places::is_before;
use term_core::Term;

// Whether a variable occurs in a term.
#[cycle(occurs)]
fn is_in(x: u32, s: &Term) -> bool
    ensures { result ≡ occurs x (view s.now) }
{
    match s {
        Term::Var(y) => x == *y,
        Term::Fun(_, args) => is_in_any(x, args),
    }
}

/// Whether a variable occurs in one of the terms.
#[cycle(occurs)]
pub fn is_in_any(x: u32, ss: &[Term]) -> bool
    ensures { result ≡ occurs_in x (views ss.now) }
{
    match ss {
        [] => false,
        [first, rest @ ..] => is_in(x, first) || is_in_any(x, rest),
    }
}

fn is_constant(h: u32, args: &[Term], g: u32) -> bool
    ensures { result ≡ (nat_eq h g && nat_eq (length args.now) 0) }
{
    h == g && args.len() == 0
}

// Whether a symbol before g, or g without arguments, stands in a term.
#[cycle(met)]
fn is_met(places: &[u32], s: &Term, g: u32) -> bool
    ensures { result ≡ meets (before_by places.now) g (view s.now) }
{
    match s {
        Term::Var(_) => false,
        Term::Fun(h, args) => {
            if is_before(places, *h, g) {
                true
            } else if is_constant(*h, args, g) {
                true
            } else {
                is_met_in(places, args, g)
            }
        }
    }
}

#[cycle(met)]
fn is_met_in(places: &[u32], ss: &[Term], g: u32) -> bool
    ensures { result ≡ do_meet (before_by places.now) g (views ss.now) }
{
    match ss {
        [] => false,
        [first, rest @ ..] => is_met(places, first, g) || is_met_in(places, rest, g),
    }
}

// Whether a known constant is g or before g.
fn is_covered(places: &[u32], known: Option<u32>, g: u32) -> bool
    ensures { result ≡ covers (before_by places.now) known g }
{
    match known {
        Some(c) => c == g || is_before(places, c, g),
        None => false,
    }
}

/// Whether a term with symbol f and these arguments is greater than constant g. The arguments reach the constant that is
/// known, if there is one.
pub fn is_above_constant(
    places: &[u32],
    f: u32,
    args: &[Term],
    g: u32,
    known: &mut Option<u32>,
) -> bool
    requires { IsKnown (before_by places.now) (views args.now) known.old }
    ensures above { result ≡ (before_by places.now f g || do_meet (before_by places.now) g (views args.now)) }
    ensures known { IsKnown (before_by places.now) (views args.now) known.new }
{
    if is_before(places, f, g) {
        return true;
    }
    if is_covered(places, *known, g) {
        return true;
    }
    if !is_met_in(places, args, g) {
        return false;
    }
    *known = Some(g);
    true
}
