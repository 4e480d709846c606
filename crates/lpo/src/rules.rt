//! Whether rules are ordered.
ghost use Rattle.std.specs.Prelude.{◌≡◌, ◌&&◌, map};
ghost use Rattle.term_core.specs.Prelude.{view, views, rule_view};
ghost use Rattle.lpo.specs.Places.{are_placed, is_placed};
ghost use Rattle.lpo.specs.Rules.{DeadAnswers, UnorderedAnswers, is_dead_at, is_ordered_by};

use crate::compare::is_above;
use crate::places::place;
use term_core::{Rule, Term};

fn is_ordered(places: &[u32], rule: &Rule) -> bool
    ensures { result ≡ is_ordered_by places.now (rule_view rule.now) }
{
    is_above(places, &rule.left, &rule.right)
}

/// The first rule, from 0, whose left side is not greater than its right side.
pub fn first_unordered(places: &[u32], rules: &[Rule]) -> Option<usize>
    ensures { UnorderedAnswers places.now (map rule_view rules.now) result }
{
    for (i, rule) in rules.iter().enumerate() {
        if !is_ordered(places, rule) {
            return Some(i);
        }
    }
    None
}

// Whether every symbol of a term has a place.
#[cycle(placed)]
fn has_places(places: &[u32], t: &Term) -> bool
    ensures { result ≡ is_placed places.now (view t.now) }
{
    match t {
        Term::Var(_) => true,
        Term::Fun(f, args) => place(places, *f) > 0 && have_places(places, args),
    }
}

#[cycle(placed)]
fn have_places(places: &[u32], ts: &[Term]) -> bool
    ensures { result ≡ are_placed places.now (views ts.now) }
{
    match ts {
        [] => true,
        [first, rest @ ..] => has_places(places, first) && have_places(places, rest),
    }
}

/// Whether a rule, all of whose symbols have places, is not ordered.
pub(crate) fn is_dead(places: &[u32], rule: &Rule) -> bool
    ensures { result ≡ is_dead_at places.now (rule_view rule.now) }
{
    has_places(places, &rule.left) && has_places(places, &rule.right) && !is_ordered(places, rule)
}

/// Whether some rule, all of whose symbols have places, is not ordered.
pub fn is_one_dead(places: &[u32], rules: &[Rule]) -> bool
    ensures { DeadAnswers places.now (map rule_view rules.now) result }
{
    for rule in rules {
        if is_dead(places, rule) {
            return true;
        }
    }
    false
}
