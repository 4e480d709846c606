//! The rules of a generated system.
ghost use Rattle.std.specs.Prelude.{◌≡◌, ◌<◌, ◌≤◌, IfOk, OnOk, map};
ghost use Rattle.rewriting.specs.Terms as math;
ghost use Rattle.term_core.specs.Prelude.{view, rule_view, AreCounted};
ghost use Rattle.generated_systems.specs.Generated.{generated, next_of, p_symbol, f_symbol};
ghost use Rattle.generator.specs.RuleParts.{IsRuleAt, AreAdded, guarded};

use generated_systems::MOST_GENERATED;
use std::alloc::Global;
use term_core::{Cond, NoMemory, Rule, Term};

// The symbols that all systems have.
const Z: u32 = 1;

const TRUE: u32 = 2;

const S: u32 = 3;

const FALSE: u32 = 4;

// The variable of a rule.
const X: u32 = 0;

// The symbols pk and fk, where k counts from 0.
fn p_symbol(k: u32) -> u32
    requires { k < MOST_GENERATED }
    ensures { result ≡ p_symbol k }
{
    if k == 0 { 0 } else { 4 + 2 * k }
}

fn f_symbol(k: u32) -> u32
    requires { k < MOST_GENERATED }
    ensures { result ≡ f_symbol k }
{
    5 + 2 * k
}

fn constant(alloc: Global, symbol: u32) -> Term
    ensures { view result ≡ math.app symbol math.nil }
{
    Term::Fun(symbol, Vec::new(alloc))
}

fn applied(alloc: Global, symbol: u32, argument: Term) -> Result<Term, NoMemory>
    ensures { IfOk result (λ t. view t ≡ math.app symbol (math.cons (view argument) math.nil)) }
{
    let mut arguments = Vec::new(alloc);
    arguments.push(argument)?;
    Ok(Term::Fun(symbol, arguments))
}

// pk(z) -> true
fn rule_at_z(alloc: Global, k: u32) -> Result<Rule, NoMemory>
    requires { k < MOST_GENERATED }
    ensures { IfOk result (IsRuleAt k 0) }
{
    let left = applied(alloc, p_symbol(k), constant(alloc, Z))?;
    Ok(Rule {
        left,
        right: constant(alloc, TRUE),
        conds: Vec::new(alloc),
        vars: 0,
    })
}

// pk(s(x)) -> false
fn rule_at_s(alloc: Global, k: u32) -> Result<Rule, NoMemory>
    requires { k < MOST_GENERATED }
    ensures { IfOk result (IsRuleAt k 1) }
{
    let argument = applied(alloc, S, Term::Var(X))?;
    let left = applied(alloc, p_symbol(k), argument)?;
    Ok(Rule {
        left,
        right: constant(alloc, FALSE),
        conds: Vec::new(alloc),
        vars: 1,
    })
}

// fk(x) -> right | pk(x) == value
fn guarded(alloc: Global, k: u32, right: Term, value: u32) -> Result<Rule, NoMemory>
    requires { k < MOST_GENERATED }
    ensures rule { IfOk result (λ r. rule_view r ≡ guarded k (view right) value) }
    ensures vars { IfOk result (λ r. r.vars ≡ 1) }
{
    let mut conds = Vec::new(alloc);
    conds.push(Cond {
        left: applied(alloc, p_symbol(k), Term::Var(X))?,
        right: constant(alloc, value),
    })?;
    let left = applied(alloc, f_symbol(k), Term::Var(X))?;
    Ok(Rule {
        left,
        right,
        conds,
        vars: 1,
    })
}

// fk(x) -> x | pk(x) == true
fn rule_of_true(alloc: Global, k: u32) -> Result<Rule, NoMemory>
    requires { k < MOST_GENERATED }
    ensures { IfOk result (IsRuleAt k 2) }
{
    guarded(alloc, k, Term::Var(X), TRUE)
}

// What fk goes on with.
fn next_of(alloc: Global, k: u32) -> Result<Term, NoMemory>
    requires { k < MOST_GENERATED }
    ensures { IfOk result (λ t. view t ≡ next_of k) }
{
    let symbol = if k == 0 { S } else { f_symbol(k - 1) };
    applied(alloc, symbol, Term::Var(X))
}

// fk(x) -> fj(x) | pk(x) == false, and for the first k with s(x) on the right
fn rule_of_false(alloc: Global, k: u32) -> Result<Rule, NoMemory>
    requires { k < MOST_GENERATED }
    ensures { IfOk result (IsRuleAt k 3) }
{
    guarded(alloc, k, next_of(alloc, k)?, FALSE)
}

// Adds the rules for k.
fn push_rules(alloc: Global, k: u32, out: &mut Vec<Rule>) -> Result<(), NoMemory>
    requires { k < MOST_GENERATED }
    ensures { OnOk result (AreAdded k out.old.items out.new.items) }
{
    out.push(rule_at_z(alloc, k)?)?;
    out.push(rule_at_s(alloc, k)?)?;
    out.push(rule_of_true(alloc, k)?)?;
    out.push(rule_of_false(alloc, k)?)?;
    Ok(())
}

/// The rules of the generated system with a number.
pub(crate) fn rules_of(alloc: Global, n: u32) -> Result<Vec<Rule>, NoMemory>
    requires { n ≤ MOST_GENERATED }
    ensures rules { IfOk result (λ v. map rule_view v.items ≡ (generated n).rules) }
    ensures counted { IfOk result (λ v. AreCounted v.items) }
{
    let mut rules = Vec::new(alloc);
    'rules: for k in 0..n {
        push_rules(alloc, k, &mut rules)?;
    }
    Ok(rules)
}
