//! The conditions that the classes of conditional systems put on a single rule, with what is at fault in a rule that breaks them.
ghost use Rattle.std.specs.Prelude.{◌≤◌, ◌<◌, ◌↔◌, IsTrue, length};
ghost use Rattle.rewriting.specs.Prelude.{IsRule, IsConstructorTerm, IsStable, IsNormalForm, IsGround, IsLinear};
ghost use Rattle.certificates.specs.Reasons as reasons;
ghost use Rattle.term_core.specs.Prelude.{view, condition_view, rule_view};
ghost use Rattle.ctrs_classes.specs.Faults.{FaultAnswers, UnstableAnswers, UndeterminedAnswers, IsKnownPrefix};

use crate::constructors::is_constructor;
use crate::regions::{Region, first_repeated, first_variable, has_variable, shares_unknown};
use matching::matches_nowhere;
use term_core::{Cond, Rule, System, Term, is_linear};

/// What is at fault in a rule: a condition from 1, or 0 where it is none, and a variable.
#[derive(Clone, Copy)]
pub struct Fault {
    pub cond: u32,
    pub variable: Option<u32>,
}

pub(crate) fn left_linear_fault(rule: &Rule, sys: &System) -> Option<Fault>
    requires { IsRule sys.now.arities (rule_view rule.now) }
    ensures { FaultAnswers sys.now reasons.left_linear (rule_view rule.now) result }
{
    match first_repeated(&rule.left, 0) {
        Ok(_) => None,
        Err(x) => Some(Fault {
            cond: 0,
            variable: Some(x),
        }),
    }
}

pub(crate) fn type3_fault(rule: &Rule, sys: &System) -> Option<Fault>
    ensures { FaultAnswers sys.now reasons.type3 (rule_view rule.now) result }
{
    let everywhere = Region {
        left: &rule.left,
        asked: &rule.conds,
        known: &rule.conds,
    };
    let x = first_variable(&rule.right, &everywhere, false)?;
    Some(Fault {
        cond: 0,
        variable: Some(x),
    })
}

// How many of the first conditions have left sides whose variables are all known before.
fn known_prefix(rule: &Rule) -> usize
    ensures { IsKnownPrefix (rule_view rule.now) result }
{
    for (i, cond) in rule.conds.iter().enumerate() {
        if let Some(_) = undetermined(rule, i, cond) {
            return i;
        }
    }
    rule.conds.len()
}

pub(crate) fn oriented_fault(rule: &Rule, sys: &System) -> Option<Fault>
    ensures { FaultAnswers sys.now reasons.extended_oriented (rule_view rule.now) result }
{
    let m = known_prefix(rule);
    let (before, behind) = rule.conds.split_at(m);
    let known = Region {
        left: &rule.left,
        asked: &[],
        known: before,
    };
    if shares_unknown(&rule.right, &known, behind) {
        return Some(Fault {
            cond: 0,
            variable: None,
        });
    }
    None
}

// The first variable of the condition's left side that is not known before it.
fn undetermined(rule: &Rule, i: usize, cond: &Cond) -> Option<u32>
    requires { i ≤ length rule.now.conds.items }
    ensures { UndeterminedAnswers (rule_view rule.now) i (condition_view cond.now) result }
{
    let (before, _) = rule.conds.split_at(i);
    let known = Region {
        left: &rule.left,
        asked: &[],
        known: before,
    };
    first_variable(&cond.left, &known, false)
}

pub(crate) fn deterministic_fault(rule: &Rule, sys: &System) -> Option<Fault>
    requires { IsRule sys.now.arities (rule_view rule.now) }
    ensures { FaultAnswers sys.now reasons.deterministic (rule_view rule.now) result }
{
    if let Some(fault) = type3_fault(rule, sys) {
        return Some(fault);
    }
    for (i, cond) in rule.conds.iter().enumerate() {
        if let Some(x) = undetermined(rule, i, cond) {
            return Some(Fault {
                cond: i as u32 + 1,
                variable: Some(x),
            });
        }
    }
    None
}

fn is_linear_constructor(sys: &System, t: &Term) -> bool
    ensures { IsTrue result ↔ IsLinear (view t.now) × IsConstructorTerm sys.now (view t.now) }
{
    is_linear(t) && is_constructor(sys, t)
}

#[tactic(auto, using(crate::proofs::Ground::closed_ground, crate::proofs::Ground::ground_closed))]
fn is_ground_normal_form(sys: &System, t: &Term) -> bool
    ensures { IsTrue result ↔ IsGround (view t.now) × IsNormalForm sys.now (view t.now) }
{
    !has_variable(t) && matches_nowhere(sys, t)
}

// A linear constructor term, or a ground normal form of the rules without their conditions.
fn is_stable(sys: &System, t: &Term) -> bool
    ensures { IsTrue result ↔ IsStable sys.now (view t.now) }
{
    is_linear_constructor(sys, t) || is_ground_normal_form(sys, t)
}

// Why the right side of a condition is not fresh and stable: its first variable that is not fresh, if any.
fn unstable(sys: &System, rule: &Rule, i: usize, cond: &Cond) -> Option<Option<u32>>
    requires { i < length rule.now.conds.items }
    ensures { UnstableAnswers sys.now (rule_view rule.now) i (condition_view cond.now) result }
{
    let (before, _) = rule.conds.split_at(i);
    let (asked, _) = rule.conds.split_at(i + 1);
    let old = Region {
        left: &rule.left,
        asked,
        known: before,
    };
    if let Some(x) = first_variable(&cond.right, &old, true) {
        return Some(Some(x));
    }
    if is_stable(sys, &cond.right) {
        return None;
    }
    Some(None)
}

pub(crate) fn right_stable_fault(rule: &Rule, sys: &System) -> Option<Fault>
    requires { IsRule sys.now.arities (rule_view rule.now) }
    ensures { FaultAnswers sys.now reasons.right_stable (rule_view rule.now) result }
{
    for (i, cond) in rule.conds.iter().enumerate() {
        if let Some(variable) = unstable(sys, rule, i, cond) {
            return Some(Fault {
                cond: i as u32 + 1,
                variable,
            });
        }
    }
    None
}
