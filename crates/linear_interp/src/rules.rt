//! Whether the value falls from the left side to the right at each rule of the unraveled system.
ghost use Rattle.std.specs.Prelude.{◌≡◌, ◌<◌, ◌+◌, ◌^◌, ◌↔◌, IsTrue, IfOk, length, map};
ghost use Rattle.rewriting.specs.Rules as math;
ghost use Rattle.interpretations.specs.Linear.{Falls};
ghost use Rattle.term_core.specs.RuleView.{rule_view};
ghost use Rattle.cert_model.specs.CertificateView.{linear_entry_view};
ghost use Rattle.linear_interp.specs.Falling.{SmallerAnswers, SumsDecide, AreRulesReady, RuleAnswers, RulesAnswers, IsRuleReady};

use crate::sums::sums_of;
use cert_model::{LinearEntry, MeasureReason};
use measure::MeasureError;
use std::alloc::Global;
use term_core::{NoMemory, Rule};

// The least variable whose coefficient is smaller on the left; the coefficient of x stands behind x others and the
// constant.
#[tactic(auto, using(crate::proofs::Judging::smaller_here))]
fn first_smaller(left: &[u128], right: &[u128]) -> Option<u32>
    requires same { length left.now ≡ length right.now }
    requires few { length left.now < 2 ^ 32 }
    ensures { SmallerAnswers left.now right.now result }
{
    for x in 1..left.len() {
        if left[x] < right[x] {
            return Some(x as u32 - 1);
        }
    }
    None
}

// Compares the constants and coefficients of both sides.
fn compare(left: &[u128], right: &[u128], rule: u32) -> Result<(), MeasureError>
    requires same { length left.now ≡ length right.now }
    requires few { length left.now < 2 ^ 32 }
    requires some { 0 < length left.now }
    ensures { SumsDecide left.now right.now rule result }
{
    if let Some(variable) = first_smaller(left, right) {
        return Err(MeasureError::Reason(MeasureReason::Variable { rule, variable }));
    }
    if left[0] <= right[0] {
        return Err(MeasureError::Reason(MeasureReason::Constant { rule }));
    }
    Ok(())
}

// Judges the rule with a number.
#[tactic(auto, using(crate::proofs::Judging::overflows_left, crate::proofs::Judging::overflows_right, crate::proofs::Judging::decided))]
fn judge_rule(
    alloc: Global,
    entries: &[LinearEntry],
    rule: &Rule,
    number: u32,
) -> Result<(), MeasureError>
    requires { IsRuleReady (map linear_entry_view entries.now) rule.now }
    ensures { RuleAnswers (map linear_entry_view entries.now) (rule_view rule.now) number result }
{
    let left = match sums_of(alloc, entries, rule.vars, &rule.left)? {
        Some(sums) => sums,
        None => return Err(MeasureError::Reason(MeasureReason::Overflow { rule: number })),
    };
    let right = match sums_of(alloc, entries, rule.vars, &rule.right)? {
        Some(sums) => sums,
        None => return Err(MeasureError::Reason(MeasureReason::Overflow { rule: number })),
    };
    compare(&left, &right, number)
}

/// Whether the value falls at a rule.
pub fn does_fall(alloc: Global, entries: &[LinearEntry], rule: &Rule) -> Result<bool, NoMemory>
    requires { IsRuleReady (map linear_entry_view entries.now) rule.now }
    ensures { IfOk result (λ b. IsTrue b ↔ Falls (map linear_entry_view entries.now) (rule_view rule.now)) }
{
    // The number is for the reason alone, which is not told here.
    match judge_rule(alloc, entries, rule, 0) {
        Ok(()) => Ok(true),
        Err(MeasureError::NoMemory) => Err(NoMemory),
        Err(_) => Ok(false),
    }
}

/// Judges the rules of an unraveled system.
#[tactic(auto, using(crate::proofs::Judging::ready_rule, crate::proofs::Judging::failed))]
pub fn judge_rules(
    alloc: Global,
    entries: &[LinearEntry],
    rules: &[Rule],
) -> Result<(), MeasureError>
    requires ready { AreRulesReady (map linear_entry_view entries.now) rules.now }
    requires few { length rules.now < 2 ^ 31 }
    ensures { RulesAnswers (map linear_entry_view entries.now) (map rule_view rules.now) result }
{
    for (i, rule) in rules.iter().enumerate() {
        judge_rule(alloc, entries, rule, i as u32 + 1)?;
    }
    Ok(())
}
