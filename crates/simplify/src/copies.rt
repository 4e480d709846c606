//! Copies of systems.
ghost use Rattle.std.specs.Prelude.{◌≡◌, ◌++◌, IfOk, OnOk, map};
ghost use Rattle.rewriting.specs.Systems.{IsSystem};
ghost use Rattle.term_core.specs.RuleView.{condition_view, rule_view};
ghost use Rattle.simplify.specs.Rules.{counts};

use infeasible::copied_condition;
use std::alloc::Global;
use term_core::{Cond, NoMemory, Rule, System, try_clone};

// Appends copies of some conditions.
fn copy_conds(alloc: Global, conds: &[Cond], out: &mut Vec<Cond>) -> Result<(), NoMemory>
    ensures { OnOk result (map condition_view out.new.items ≡ map condition_view out.old.items ++ map condition_view conds.now) }
{
    for cond in conds {
        out.push(copied_condition(alloc, cond)?)?;
    }
    Ok(())
}

fn copy_rule(alloc: Global, rule: &Rule) -> Result<Rule, NoMemory>
    ensures rule { IfOk result (λ r. rule_view r ≡ rule_view rule.now) }
    ensures count { IfOk result (λ r. r.vars ≡ rule.now.vars) }
{
    let mut conds = Vec::with_capacity(alloc, rule.conds.len())?;
    copy_conds(alloc, &rule.conds, &mut conds)?;
    Ok(Rule {
        left: try_clone(alloc, &rule.left)?,
        right: try_clone(alloc, &rule.right)?,
        conds,
        vars: rule.vars,
    })
}

// Appends copies of some rules.
fn copy_rules(alloc: Global, rules: &[Rule], out: &mut Vec<Rule>) -> Result<(), NoMemory>
    ensures rules { OnOk result (map rule_view out.new.items ≡ map rule_view out.old.items ++ map rule_view rules.now) }
    ensures counts { OnOk result (counts out.new.items ≡ counts out.old.items ++ counts rules.now) }
{
    for rule in rules {
        out.push(copy_rule(alloc, rule)?)?;
    }
    Ok(())
}

/// A copy of the system.
pub fn copied(alloc: Global, sys: &System) -> Result<System, NoMemory>
    ensures copy { IfOk result (λ s. s ≡ sys.now) }
    ensures sound { IsSystem sys.now }
{
    let rules = sys.rules();
    let mut out = Vec::with_capacity(alloc, rules.len())?;
    copy_rules(alloc, rules, &mut out)?;
    let arities = sys.arities().to_vec(alloc)?;
    Ok(System::of_parts(arities, out, sys.own()))
}
