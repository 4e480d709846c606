//! Rules with other variables.
ghost use Rattle.std.specs.Prelude.{◌≡◌, ◌≤◌, IfOk, map};
ghost use Rattle.rewriting.specs.Prelude.{sides, terms_of_rule, AreRules, conditions_under};
ghost use Rattle.term_core.specs.RuleView.{condition_view, rule_view};
ghost use Rattle.unification.specs.Answers.{renaming as by};
ghost use Rattle.prepared_system.specs.Renamed.{rule_under, HasRoom};

use std::alloc::Global;
use term_core::{Cond, NoMemory, Rule};
use unification::renamed;

fn rename_conds(alloc: Global, conds: &[Cond], add: u32) -> Result<Vec<Cond>, NoMemory>
    requires { HasRoom add (sides (map condition_view conds.now)) }
    ensures { IfOk result (λ cs. map condition_view cs.items ≡ conditions_under (by 2 add) (map condition_view conds.now)) }
{
    let mut out = Vec::with_capacity(alloc, conds.len())?;
    for cond in conds {
        let left = renamed(alloc, &cond.left, 2, add)?;
        let right = renamed(alloc, &cond.right, 2, add)?;
        out.push(Cond { left, right })?;
    }
    Ok(out)
}

fn rename_rule(alloc: Global, rule: &Rule, add: u32) -> Result<Rule, NoMemory>
    requires { HasRoom add (terms_of_rule (rule_view rule.now)) }
    ensures { IfOk result (λ r. rule_view r ≡ rule_under (by 2 add) (rule_view rule.now)) }
{
    let left = renamed(alloc, &rule.left, 2, add)?;
    let right = renamed(alloc, &rule.right, 2, add)?;
    let conds = rename_conds(alloc, &rule.conds, add)?;
    Ok(Rule {
        left,
        right,
        conds,
        vars: rule.vars,
    })
}

/// The rules with variable 2k + `add` for each variable k.
pub fn rename_rules(
    alloc: Global,
    arities: &[u32],
    rules: &[Rule],
    add: u32,
) -> Result<Vec<Rule>, NoMemory>
    requires small { add ≤ 1 }
    requires rules { AreRules arities.now (map rule_view rules.now) }
    ensures { IfOk result (λ rs. map rule_view rs.items ≡ map (rule_under (by 2 add)) (map rule_view rules.now)) }
{
    let mut out = Vec::with_capacity(alloc, rules.len())?;
    for rule in rules {
        out.push(rename_rule(alloc, rule, add)?)?;
    }
    Ok(out)
}
