//! The conditions of a rule at a redex, where each variable without a value has a number of its own.
ghost use Rattle.std.specs.Prelude.{◌≡◌, ◌<◌, ◌≤◌, ◌+◌, ◌^◌, ℕ, Some, OnOk, map};
ghost use Rattle.std.specs.FinMap.{get};
ghost use Rattle.rewriting.specs.Terms as math;
ghost use Rattle.rewriting.specs.Prelude.{values_of, condition_under, conditions_under};
ghost use Rattle.certificates.specs.Sizes.{DoConditionsFit};
ghost use Rattle.term_core.specs.Prelude.{view, condition_view};
ghost use Rattle.redex_conditions.specs.Judged.{value_or_new, match_or_new, IsOfSystem, InstanceAnswers, InstancesAnswer, ConditionsAnswer};

use std::alloc::Global;
use term_core::{Cond, MAX_NODES, NoMemory, Rule, Subst, Term, TermError};

// Gives a variable that has no value the number `own + k`.
fn complete_one(values: &mut Subst, own: u32, k: u32) -> Result<(), NoMemory>
    requires { own + k < 2 ^ 32 }
    ensures here { OnOk result (get values.new k ≡ Some (value_or_new own k (get values.old k))) }
    ensures others { OnOk result ((x : ℕ) → (x ≡ k → ⊥) → get values.new x ≡ get values.old x) }
{
    match values.get(k) {
        Some(_) => Ok(()),
        None => values.bind(k, Term::Var(own + k)),
    }
}

// Gives each variable of a rule that has no value a number of its own, from `own` on.
fn complete(values: &mut Subst, own: u32, vars: u32) -> Result<(), NoMemory>
    requires { own + vars ≤ 2 ^ 32 }
    ensures { OnOk result ((k : ℕ) → k < vars → get values.new k ≡ Some (value_or_new own k (get values.old k))) }
{
    for k in 0..vars {
        complete_one(values, own, k)?;
    }
    Ok(())
}

fn instance(alloc: Global, values: &Subst, cond: &Cond) -> Result<Cond, TermError>
    requires left { math.Fits (view cond.now.left) }
    requires right { math.Fits (view cond.now.right) }
    ensures { InstanceAnswers (condition_under (values_of values.now) (condition_view cond.now)) result }
{
    Ok(Cond {
        left: values.apply(alloc, &cond.left)?,
        right: values.apply(alloc, &cond.right)?,
    })
}

fn instances(alloc: Global, values: &Subst, conds: &[Cond]) -> Result<Vec<Cond>, TermError>
    requires { DoConditionsFit (map condition_view conds.now) }
    ensures { InstancesAnswer (conditions_under (values_of values.now) (map condition_view conds.now)) result }
{
    let mut out = Vec::with_capacity(alloc, conds.len())?;
    for cond in conds {
        out.push(instance(alloc, values, cond)?)?;
    }
    Ok(out)
}

/// The conditions of a rule under the values of a match, where each variable of the rule without value has a number of
/// its own, from `own` on; none where a side of one does not fit.
pub fn conditions_at(
    alloc: Global,
    rule: &Rule,
    mut values: Subst,
    own: u32,
) -> Result<Option<Vec<Cond>>, NoMemory>
    requires sound { IsOfSystem rule.now }
    requires own { own ≤ MAX_NODES }
    ensures { ConditionsAnswer (conditions_under (match_or_new own values) (map condition_view rule.now.conds.items)) result }
{
    complete(&mut values, own, rule.vars)?;
    match instances(alloc, &values, &rule.conds) {
        Ok(conds) => Ok(Some(conds)),
        Err(TermError::TooLarge) => Ok(None),
        Err(TermError::NoMemory) => Err(NoMemory),
        Err(TermError::NoPosition) => unreachable!(),
    }
}
