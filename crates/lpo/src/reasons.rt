//! The first reason why a precedence is not good: its shape, and then the rules that come from one rule after the other, so
//! that the unraveled system never stands as a whole.
ghost use Rattle.std.specs.Prelude.{Option, List, ◌≡◌, ◌<◌, ◌+◌, ◌^◌, ◌++◌, map, length};
ghost use Rattle.rewriting.specs.Prelude.{IsSorted, condition_count};
ghost use Rattle.rewriting.specs.Rules as math;
ghost use Rattle.rewriting.specs.Unraveling as unraveling;
ghost use Rattle.cert_model.specs.declared.reasons.MeasureReason as spec;
ghost use Rattle.term_core.specs.Prelude.{head_view, rule_view};
ghost use Rattle.unravel.specs.RuleAnswers.{DoTermsFit};
ghost use Rattle.lpo.specs.Places.{ArePlaces};
ghost use Rattle.lpo.specs.Reasons.{ShapeAnswers, ReasonAnswers, RulesReasonAnswers, FirstReasonAnswers};
ghost use Rattle.lpo.specs.Symbols.{IsHeadBefore};

use crate::places::{is_one_missing, place_all};
use crate::rules::first_unordered;
use cert_model::MeasureReason;
use std::alloc::Global;
use term_core::{Head, Rule, System};
use unravel::{RuleError, UnravelError, rules_of_one};

// The sum of a number and a count, which 32 bits hold.
fn raised(number: u32, by: usize) -> u32
    requires { number + by < 2 ^ 32 }
    ensures { result ≡ number + by }
{
    number + by as u32
}

/// The reason that the entries give, while no symbol has a place.
pub fn shape_reason(heads: &[Head], order: &[Head], places: &mut [u32]) -> Option<MeasureReason>
    requires sorted { IsSorted IsHeadBefore (map head_view heads.now) }
    requires few_heads { length heads.now < 2 ^ 31 }
    requires so_far { ArePlaces (map head_view heads.now) (map head_view order.now) 0 places.old }
    ensures { (sys : math.System) → map head_view heads.now ≡ unraveling.heads sys → ShapeAnswers sys (map head_view order.now) places.new result }
{
    if let Some(k) = place_all(heads, order, places) {
        return Some(MeasureReason::Shape {
            entry: raised(1, k),
        });
    }
    if is_one_missing(places) {
        return Some(MeasureReason::Shape {
            entry: raised(1, order.len()),
        });
    }
    None
}

// The reason so far, or the first of these rules that is not ordered; so many rules stand before them.
fn reason_with(
    reason: Option<MeasureReason>,
    places: &[u32],
    before: u32,
    rules: &[Rule],
) -> Option<MeasureReason>
    requires { before + length rules.now < 2 ^ 31 }
    ensures { (shape : Option spec.MeasureReason) (front : List math.Rule) → length front ≡ before → ReasonAnswers shape places.now front reason → ReasonAnswers shape places.now (front ++ map rule_view rules.now) result }
{
    if let Some(known) = reason {
        return Some(known);
    }
    let i = first_unordered(places, rules)?;
    Some(MeasureReason::Order {
        rule: before + i as u32 + 1,
    })
}

// The reason of the shape, or the first unordered rule of those that come from some rules, whose first auxiliary symbol has
// this number. All rules are unraveled, since a side that does not fit comes before every reason.
fn reason_of(
    alloc: Global,
    first: u32,
    rules: &[Rule],
    places: &[u32],
    shape: Option<MeasureReason>,
) -> Result<Option<MeasureReason>, UnravelError>
    requires fits { DoTermsFit (map rule_view rules.now) }
    requires symbols { first + condition_count (map rule_view rules.now) < 2 ^ 31 }
    requires few { length rules.now + condition_count (map rule_view rules.now) < 2 ^ 31 }
    ensures { RulesReasonAnswers first (map rule_view rules.now) shape places.now result }
{
    let mut symbol = first;
    let mut before = 0;
    let mut reason = shape;
    for (i, rule) in rules.iter().enumerate() {
        let unraveled = match rules_of_one(alloc, symbol, rule) {
            Ok(unraveled) => unraveled,
            Err(RuleError::TooLarge) => return Err(UnravelError::TooLarge { rule: i as u32 + 1 }),
            Err(RuleError::NoMemory) => return Err(UnravelError::NoMemory),
        };
        reason = reason_with(reason, places, before, &unraveled);
        before = raised(before, unraveled.len());
        symbol = raised(symbol, rule.conds.len());
    }
    Ok(reason)
}

/// The reason of the shape, or the first rule of the unraveled system that is not ordered.
pub fn first_reason(
    alloc: Global,
    sys: &System,
    places: &[u32],
    shape: Option<MeasureReason>,
) -> Result<Option<MeasureReason>, UnravelError>
    ensures { FirstReasonAnswers sys.now shape places.now result }
{
    let rules = sys.rules();
    reason_of(alloc, sys.arities().len() as u32, rules, places, shape)
}
