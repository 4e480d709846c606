//! Peaks over rules that lead to a symbol which is not the file's. No file has such rules.
ghost use Rattle.std.specs.Prelude.{◌≡◌, [], IfOk, map, length};
ghost use Rattle.rewriting.specs.Systems.{condition_count};
ghost use Rattle.term_core.specs.RuleView.{rule_view};

use std::alloc::Global;
use term_core::{JoinError, NoMemory, Rule, System, Term};

fn constant(alloc: Global, symbol: u32) -> Term {
    Term::Fun(symbol, Vec::new(alloc))
}

// One constant leads to another.
fn step(alloc: Global, from: u32, to: u32) -> Rule
    ensures { (rule_view result).conditions ≡ [] }
{
    Rule {
        left: constant(alloc, from),
        right: constant(alloc, to),
        conds: Vec::new(alloc),
        vars: 0,
    }
}

// The first symbol leads to the second, and to another.
fn two_steps(alloc: Global, other: u32) -> Result<Vec<Rule>, NoMemory>
    ensures few { IfOk result (λ rules. length rules.items ≡ 2) }
    ensures plain { IfOk result (λ rules. condition_count (map rule_view rules.items) ≡ 0) }
{
    let mut rules = Vec::new(alloc);
    rules.push(step(alloc, 0, 1))?;
    rules.push(step(alloc, 0, other))?;
    Ok(rules)
}

/// The symbols of the system, with rules by which its first symbol leads to its second and to its last.
pub fn with_foreign_rules(alloc: Global, sys: &System) -> Result<System, JoinError>
    ensures { IfOk result (λ s. s.arities ≡ sys.now.arities) }
{
    // The law tells how many symbols a system may have.
    sys.rules_are_sound();
    let last = sys.arities().len().saturating_sub(1) as u32;
    let rules = two_steps(alloc, last)?;
    sys.with_rules(alloc, rules)
}
