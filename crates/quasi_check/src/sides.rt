//! Right sides of conditions that are not absolutely irreducible.
ghost use Rattle.std.specs.Prelude.{◌≤◌, ◌↔◌, IfOk, IsTrue, length, map};
ghost use Rattle.term_core.specs.RuleView.{condition_view};
ghost use Rattle.valid_certificates.specs.Confluence.{AreRightSidesIrreducible};
ghost use Rattle.quasi_check.specs.Sides.{ConditionAnswers, SideAnswers};

use irreducible::do_all_clash;
use prepared_system::PreparedSystem;
use std::alloc::Global;
use term_core::{Cond, MAX_CONDITIONS, NoMemory};

/// A condition of a rule; both are numbered from 1.
#[derive(Clone, Copy)]
pub(crate) struct SidePlace {
    pub(crate) rule: u32,
    pub(crate) cond: u32,
}

// The first condition, from 1, whose right side is not absolutely irreducible.
fn first_condition(
    alloc: Global,
    sys: &PreparedSystem<'_>,
    conds: &[Cond],
) -> Result<Option<u32>, NoMemory>
    requires { length conds.now ≤ MAX_CONDITIONS }
    ensures { IfOk result (λ first. ConditionAnswers sys.now (map condition_view conds.now) first) }
{
    for (k, cond) in conds.iter().enumerate() {
        if !do_all_clash(alloc, sys, &cond.right)? {
            return Ok(Some(k as u32 + 1));
        }
    }
    Ok(None)
}

// The first such condition of the first rule that has one.
pub(crate) fn first_reducible(
    alloc: Global,
    sys: &PreparedSystem<'_>,
) -> Result<Option<SidePlace>, NoMemory>
    ensures { IfOk result (λ first. SideAnswers sys.now first) }
{
    for (i, rule) in sys.rules().iter().enumerate() {
        if let Some(cond) = first_condition(alloc, sys, &rule.conds)? {
            return Ok(Some(SidePlace {
                rule: i as u32 + 1,
                cond,
            }));
        }
    }
    Ok(None)
}

/// Whether the right side of each condition is absolutely irreducible.
pub fn are_right_sides_irreducible(
    alloc: Global,
    sys: &PreparedSystem<'_>,
) -> Result<bool, NoMemory>
    ensures { IfOk result (λ b. IsTrue b ↔ AreRightSidesIrreducible sys.now) }
{
    Ok(first_reducible(alloc, sys)?.is_none())
}
