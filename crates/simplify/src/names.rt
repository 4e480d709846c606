//! Conditions that only name a term.
ghost use Rattle.std.specs.Prelude.{◌≡◌, ◌<◌, IfSome, IfNone, ℕ, length, slice_get, Some};
ghost use Rattle.term_core.specs.RuleView.{rule_view};
ghost use Rattle.simplifications.specs.Inlining.{Names};

use crate::occurring::occurs_in_sides;
use term_core::{Rule, Term, occurs, occurs_in_right_sides};

/// The variable that the condition behind the first `place` names, where it only names its left side.
pub fn name(rule: &Rule, place: usize) -> Option<u32>
    requires { place < length rule.now.conds.items }
    ensures some { IfSome result (λ x. (c : _) → slice_get (rule_view rule.now).conditions place ≡ Some c → Names (rule_view rule.now) place c x) }
    ensures none { IfNone result ((c : _) (x : ℕ) → slice_get (rule_view rule.now).conditions place ≡ Some c → Names (rule_view rule.now) place c x → ⊥) }
{
    let cond = &rule.conds[place];
    let Term::Var(x) = &cond.right else {
        return None;
    };
    if occurs(*x, &rule.left)
        || occurs(*x, &cond.left)
        || occurs_in_sides(*x, &rule.conds[..place])
        || occurs_in_right_sides(*x, &rule.conds[place + 1..])
    {
        return None;
    }
    Some(*x)
}
