//! Whether two systems are the same.
ghost use Rattle.std.specs.Prelude.{◌≡◌, IsTrue, map};
ghost use Rattle.term_core.specs.RuleView.{condition_view, rule_view};

use term_core::{Cond, Rule, System, equal};

fn is_same_condition(a: &Cond, b: &Cond) -> bool
    ensures { IsTrue result → condition_view a.now ≡ condition_view b.now }
{
    equal(&a.left, &b.left) && equal(&a.right, &b.right)
}

fn are_same_conditions(first: &[Cond], second: &[Cond]) -> bool
    ensures { IsTrue result → map condition_view first.now ≡ map condition_view second.now }
{
    match (first, second) {
        ([], []) => true,
        ([a, others @ ..], [b, rest @ ..]) => {
            is_same_condition(a, b) && are_same_conditions(others, rest)
        }
        _ => false,
    }
}

fn is_same_rule(a: &Rule, b: &Rule) -> bool
    ensures { IsTrue result → rule_view a.now ≡ rule_view b.now }
{
    equal(&a.left, &b.left) && equal(&a.right, &b.right) && are_same_conditions(&a.conds, &b.conds)
}

fn are_same_rules(first: &[Rule], second: &[Rule]) -> bool
    ensures { IsTrue result → map rule_view first.now ≡ map rule_view second.now }
{
    match (first, second) {
        ([], []) => true,
        ([a, others @ ..], [b, rest @ ..]) => { is_same_rule(a, b) && are_same_rules(others, rest) }
        _ => false,
    }
}

/// Whether both have the same symbols, and the same rules in order.
pub(crate) fn is_same(a: &System, b: &System) -> bool
    ensures { IsTrue result → a.now ≡ b.now }
{
    a.own() == b.own() && a.arities() == b.arities() && are_same_rules(a.rules(), b.rules())
}
