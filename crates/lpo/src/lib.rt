//! Lexicographic path orders of the unraveled system as a measure.
#![tactic(auto)]

mod compare;
mod leaves;
mod listed;
mod places;
mod reasons;
mod rules;
mod symbols;

ghost use Rattle.std.specs.Prelude.{◌≡◌, ◌<◌, ◌^◌, MatchBool, map, length};
ghost use Rattle.rewriting.specs.Lists.{IsSorted};
ghost use Rattle.rewriting.specs.Rules as math;
ghost use Rattle.rewriting.specs.Unraveling as unraveling;
ghost use Rattle.path_orders.specs.Judged.{IsPrecedenceJudged};
ghost use Rattle.path_orders.specs.Dead.{IsDead, IsPrefix};
ghost use Rattle.term_core.specs.Prelude.{head_view, rule_view};
ghost use Rattle.measure.specs.Answers.{ShowsAnswers};
ghost use Rattle.unravel.specs.Answers.{IsUnraveled};
ghost use Rattle.lpo.specs.Answers.{HasPrefix, IsOf, PrefixAnswers};
ghost use Rattle.lpo.specs.Places.{ArePlaces};
ghost use Rattle.lpo.specs.Symbols.{IsHeadBefore};

pub use crate::listed::{is_listed_dead, rules_by_symbol};
pub use crate::places::no_places;
use crate::places::place_all;
use crate::reasons::{first_reason, shape_reason};
pub use crate::rules::is_one_dead;
pub use crate::symbols::symbol_of;
use measure::{Measure, MeasureError, Partial};
use std::alloc::Global;
use term_core::{Head, NoMemory, Rule, System};
use unravel::{UnravelError, Unraveled, unraveled_heads};

// Judges a precedence by the symbols of the unraveled system, while none has a place.
fn judge(
    alloc: Global,
    sys: &System,
    heads: &[Head],
    order: &[Head],
    places: &mut [u32],
) -> Result<(), MeasureError>
    requires heads { map head_view heads.now ≡ unraveling.heads sys.now }
    requires few_heads { length heads.now < 2 ^ 31 }
    requires so_far { ArePlaces (map head_view heads.now) (map head_view order.now) 0 places.old }
    ensures { ShowsAnswers (IsPrecedenceJudged sys.now (map head_view order.now)) result }
{
    let shape = shape_reason(heads, order, places);
    match first_reason(alloc, sys, places, shape) {
        Ok(None) => Ok(()),
        Ok(Some(reason)) => Err(MeasureError::Reason(reason)),
        Err(UnravelError::TooLarge { rule }) => Err(MeasureError::Unraveling { rule }),
        Err(UnravelError::NoMemory) => Err(MeasureError::NoMemory),
    }
}

/// Judges a precedence, the greatest symbol first, for the unraveling of a system by the lexicographic path order (Baader
/// and Nipkow, Term Rewriting and All That, chapter 5): good, or the first reason why it is not, or the first rule of which
/// a side of the unraveled system does not fit.
pub fn check_lpo(alloc: Global, sys: &System, order: &[Head]) -> Result<(), MeasureError>
    ensures { ShowsAnswers (IsPrecedenceJudged sys.now (map head_view order.now)) result }
{
    let heads = unraveled_heads(alloc, sys)?;
    let mut places = no_places(alloc, &heads, order)?;
    judge(alloc, sys, &heads, order, &mut places)
}

// Whether some rule, all of whose symbols are among the first ones of a precedence, is not ordered, while no symbol has a place.
fn is_dead(heads: &[Head], rules: &[Rule], prefix: &[Head], places: &mut [u32]) -> bool
    requires sorted { IsSorted IsHeadBefore (map head_view heads.now) }
    requires few_heads { length heads.now < 2 ^ 31 }
    requires so_far { ArePlaces (map head_view heads.now) (map head_view prefix.now) 0 places.old }
    ensures { (sys : math.System) → IsOf sys (map head_view heads.now) (map rule_view rules.now) → IsPrefix sys (map head_view prefix.now) → MatchBool result (IsDead sys (map head_view prefix.now)) (IsDead sys (map head_view prefix.now) → ⊥) }
{
    // Distinct symbols all have places.
    match place_all(heads, prefix, places) {
        Some(_) => false,
        None => is_one_dead(places, rules),
    }
}

/// Whether the first symbols of a precedence are dead: whether some rule of the unraveled system, all of whose symbols are
/// among them, is not ordered.
pub fn lpo_prefix(
    alloc: Global,
    unraveled: &Unraveled,
    prefix: &[Head],
) -> Result<Partial, NoMemory>
    requires { HasPrefix unraveled.now (map head_view prefix.now) }
    ensures { (sys : math.System) → IsUnraveled sys unraveled.now → PrefixAnswers sys (map head_view prefix.now) result }
{
    let rules = unraveled.system.rules();
    let heads: &[Head] = &unraveled.heads;
    let mut places = no_places(alloc, heads, prefix)?;
    if is_dead(heads, rules, prefix, &mut places) {
        Ok(Partial::Dead)
    } else {
        Ok(Partial::Unknown)
    }
}

/// A precedence as a measure, the greatest symbol first.
#[derive(Clone, Copy, Debug)]
pub struct Lpo<'a> {
    pub order: &'a [Head],
}

impl<'a> Measure for Lpo<'a> {
    ghost use Rattle.path_orders.specs.Judged.{IsPrecedenceJudged};
    ghost use Rattle.path_orders.proofs.Bound.{good_bounds};
    ghost use Rattle.path_orders.proofs.Decided.{precedence_total};
    ghost use Rattle.path_orders.proofs.OneJudgement.{judgement_once};
    ghost use Rattle.term_core.specs.HeadView.{head_view};
    ghost use Rattle.std.specs.Prelude.{map};

    ghost judged = { λ m s j. IsPrecedenceJudged s (map head_view m.order.now) j };

    fn shows(&self, alloc: Global, sys: &System) -> Result<(), MeasureError> {
        check_lpo(alloc, sys, self.order)
    }

    ghost some_judgement = { λ m s. precedence_total s (map head_view m.order.now) };

    ghost one_judgement = { λ m s j k h q. judgement_once s (map head_view m.order.now) j k h q };

    ghost bounds = { λ m s well h. good_bounds s (map head_view m.order.now) well h.1 };
}
