//! The symbols of an unraveled system: their arities, and of which rule and condition each auxiliary one is.
ghost use Rattle.std.specs.Prelude.{◌≡◌, ◌<◌, ◌≤◌, ◌+◌, ◌*◌, ◌^◌, ◌++◌, IfOk, OnOk, map, length};
ghost use Rattle.rewriting.specs.Terms as math;
ghost use Rattle.rewriting.specs.Prelude.{sides, Each, terms_of_rule, variables, keeper_arities, all_keeper_arities, auxiliary_heads, heads, unraveled};
ghost use Rattle.term_core.specs.Prelude.{view, head_view, condition_view, rule_view};
ghost use Rattle.unravel.specs.RuleAnswers.{AreRulesSmall, first_heads, rule_heads};

use crate::rules::grown;
use std::alloc::Global;
use term_core::{Cond, Head, MAX_CONDITIONS, MAX_NODES, NoMemory, Rule, System};

// Adds the arities of the symbols for the conditions that are left; the known variables are those before the next.
fn push_from(
    alloc: Global,
    known: &[u32],
    conds: &[Cond],
    out: &mut Vec<u32>,
) -> Result<(), NoMemory>
    requires conds { Each math.Fits (sides (map condition_view conds.now)) }
    requires few { length known.now + MAX_NODES * length conds.now < 2 ^ 31 }
    ensures { OnOk result (out.new.items ≡ out.old.items ++ keeper_arities known.now (map condition_view conds.now)) }
{
    match conds {
        [] => Ok(()),
        [cond, rest @ ..] => {
            out.push(known.len() as u32 + 1)?;
            let grown = grown(alloc, known, &cond.right)?;
            push_from(alloc, &grown, rest, out)
        }
    }
}

// Adds the arities of the symbols for a rule's conditions.
fn push_arities(alloc: Global, rule: &Rule, out: &mut Vec<u32>) -> Result<(), NoMemory>
    requires fits { Each math.Fits (terms_of_rule (rule_view rule.now)) }
    requires few { length rule.now.conds.items ≤ MAX_CONDITIONS }
    ensures { OnOk result (out.new.items ≡ out.old.items ++ keeper_arities (variables (view rule.now.left)) (map condition_view rule.now.conds.items)) }
{
    let known = grown(alloc, &[], &rule.left)?;
    push_from(alloc, &known, &rule.conds, out)
}

// Adds the arities of the symbols for the conditions of all rules.
#[tactic(auto, using(crate::proofs::SymbolLists::fits_at, crate::proofs::SymbolLists::few_at, crate::proofs::SymbolLists::arities_here))]
fn push_all_arities(alloc: Global, rules: &[Rule], out: &mut Vec<u32>) -> Result<(), NoMemory>
    requires { AreRulesSmall (map rule_view rules.now) }
    ensures { OnOk result (out.new.items ≡ out.old.items ++ all_keeper_arities (map rule_view rules.now)) }
{
    for rule in rules {
        push_arities(alloc, rule, out)?;
    }
    Ok(())
}

/// The arities of the unraveled system.
#[tactic(auto, using(crate::proofs::SymbolLists::small_rules))]
pub fn unraveled_arities(alloc: Global, sys: &System) -> Result<Vec<u32>, NoMemory>
    ensures { IfOk result (λ v. v.items ≡ (unraveled sys.now).arities) }
{
    let rules = sys.rules();
    let mut out = sys.arities().to_vec(alloc)?;
    push_all_arities(alloc, rules, &mut out)?;
    Ok(out)
}

// Adds the symbols of the conditional system.
#[tactic(auto, using(crate::proofs::SymbolLists::first_more))]
fn push_file_heads(count: u32, out: &mut Vec<Head>) -> Result<(), NoMemory>
    ensures { OnOk result (map head_view out.new.items ≡ map head_view out.old.items ++ first_heads count) }
{
    for f in 0..count {
        out.push(Head::File(f))?;
    }
    Ok(())
}

// Adds the symbols for a rule's conditions.
#[tactic(auto, using(crate::proofs::SymbolLists::rule_more))]
fn push_heads(rule: u32, count: u32, out: &mut Vec<Head>) -> Result<(), NoMemory>
    requires { count < 2 ^ 31 }
    ensures { OnOk result (map head_view out.new.items ≡ map head_view out.old.items ++ rule_heads rule count) }
{
    for k in 0..count {
        out.push(Head::Aux { rule, cond: k + 1 })?;
    }
    Ok(())
}

// Adds the symbols for the conditions of all rules.
#[tactic(auto, using(crate::proofs::SymbolLists::few_at, crate::proofs::SymbolLists::heads_here))]
fn push_all_heads(rules: &[Rule], out: &mut Vec<Head>) -> Result<(), NoMemory>
    requires few { length rules.now < 2 ^ 31 }
    requires conditions { AreRulesSmall (map rule_view rules.now) }
    ensures { OnOk result (map head_view out.new.items ≡ map head_view out.old.items ++ auxiliary_heads 1 (map rule_view rules.now)) }
{
    for (i, rule) in rules.iter().enumerate() {
        push_heads(i as u32 + 1, rule.conds.len() as u32, out)?;
    }
    Ok(())
}

/// What each symbol of the unraveled system is, in order of their numbers.
#[tactic(auto, using(crate::proofs::SymbolLists::small_rules, crate::proofs::SymbolLists::first_all, crate::proofs::Sound::few_heads))]
pub fn unraveled_heads(alloc: Global, sys: &System) -> Result<Vec<Head>, NoMemory>
    ensures heads { IfOk result (λ v. map head_view v.items ≡ heads sys.now) }
    ensures few { IfOk result (λ v. length v.items < 2 ^ 31) }
{
    let rules = sys.rules();
    let mut out = Vec::new(alloc);
    push_file_heads(sys.arities().len() as u32, &mut out)?;
    push_all_heads(rules, &mut out)?;
    Ok(out)
}
