//! Systems of join rules: the oriented system that stands for them.
ghost use Rattle.std.specs.Prelude.{◌≡◌, ◌<◌, ◌+◌, ◌-◌, ◌^◌, ◌↔◌, IfOk, OnOk, IsTrue, map, length};
ghost use Rattle.rewriting.specs.Systems.{condition_count};
ghost use Rattle.join_systems.specs.Joined.{DoAllJoinsFit, joined, joined_condition, joined_rule, last_rule};
ghost use Rattle.term_core.specs.RuleView.{condition_view, rule_view, vars_of};
ghost use Rattle.term_core.specs.JoinAnswers.{DoesJoinFit, DoJoinsFit, FirstLargeAnswers, JoinAnswers};
ghost use Rattle.term_core.specs.SystemView.{AreSound};

use crate::soundness::first_fault;
use crate::systems::{Cond, Rule, System, SystemFault};
use crate::terms::{MAX_DEPTH, MAX_NODES, NoMemory, Term, room_after};
use std::alloc::{AllocError, Global};

/// Why rules make no system, or memory was refused.
#[derive(Clone, Copy, Debug, PartialEq, Eq)]
pub enum JoinError {
    Fault(SystemFault),
    NoMemory,
}

impl From<SystemFault> for JoinError {
    ghost use Rattle.term_core.specs.declared.joins.JoinError.TheVariants.{Fault as fault};

    ghost from_gives = { λ e d. d ≡ fault e };

    fn from(e: SystemFault) -> JoinError {
        JoinError::Fault(e)
    }
}

impl From<AllocError> for JoinError {
    ghost use Rattle.term_core.specs.declared.joins.JoinError.TheVariants.{NoMemory as no_memory};

    ghost from_gives = { λ _ e. e ≡ no_memory };

    fn from(_e: AllocError) -> JoinError {
        JoinError::NoMemory
    }
}

impl From<NoMemory> for JoinError {
    ghost use Rattle.term_core.specs.declared.joins.JoinError.TheVariants.{NoMemory as no_memory};

    ghost from_gives = { λ _ e. e ≡ no_memory };

    fn from(_e: NoMemory) -> JoinError {
        JoinError::NoMemory
    }
}

// Whether both sides fit below one symbol.
#[tactic(auto, using(crate::proofs::JoinRules::joint_fits, crate::proofs::JoinRules::left_large, crate::proofs::JoinRules::right_large))]
fn does_join_fit(cond: &Cond) -> bool
    ensures { IsTrue result ↔ DoesJoinFit (condition_view cond.now) }
{
    let Some(room) = room_after(&cond.left, MAX_NODES - 1, MAX_DEPTH - 1) else {
        return false;
    };
    room_after(&cond.right, room, MAX_DEPTH - 1).is_some()
}

fn do_joins_fit(conds: &[Cond]) -> bool
    ensures { IsTrue result ↔ DoJoinsFit (map condition_view conds.now) }
{
    for cond in conds {
        if !does_join_fit(cond) {
            return false;
        }
    }
    true
}

// The first rule with a condition that does not fit below `join`, from 1.
#[tactic(auto, using(crate::proofs::JoinRules::fit_more, crate::proofs::JoinRules::all_fit, crate::proofs::JoinRules::first_at))]
fn first_large(rules: &[Rule]) -> Result<(), SystemFault>
    requires { length rules.now < 2 ^ 31 }
    ensures { FirstLargeAnswers (map rule_view rules.now) result }
{
    for (i, rule) in rules.iter().enumerate() {
        if !do_joins_fit(&rule.conds) {
            return Err(SystemFault::TooLarge { rule: i as u32 + 1 });
        }
    }
    Ok(())
}

fn joined_cond(alloc: Global, own: u32, cond: Cond) -> Result<Cond, NoMemory>
    requires { own + 1 < 2 ^ 32 }
    ensures { IfOk result (λ c. condition_view c ≡ joined_condition own (condition_view cond)) }
{
    let mut sides = Vec::with_capacity(alloc, 2)?;
    sides.push(cond.left)?;
    sides.push(cond.right)?;
    Ok(Cond {
        left: Term::Fun(own, sides),
        right: Term::Fun(own + 1, Vec::new(alloc)),
    })
}

fn joined_conds(alloc: Global, own: u32, conds: Vec<Cond>) -> Result<Vec<Cond>, NoMemory>
    requires { own + 1 < 2 ^ 32 }
    ensures { IfOk result (λ cs. map condition_view cs.items ≡ map (joined_condition own) (map condition_view conds.items)) }
{
    let mut out = Vec::with_capacity(alloc, conds.len())?;
    for cond in conds {
        out.push(joined_cond(alloc, own, cond)?)?;
    }
    Ok(out)
}

fn joined_rule_of(alloc: Global, own: u32, rule: Rule) -> Result<Rule, NoMemory>
    requires { own + 1 < 2 ^ 32 }
    ensures rule { IfOk result (λ r. rule_view r ≡ joined_rule own (rule_view rule)) }
    ensures vars { IfOk result (λ r. r.vars ≡ rule.vars) }
{
    Ok(Rule {
        left: rule.left,
        right: rule.right,
        conds: joined_conds(alloc, own, rule.conds)?,
        vars: rule.vars,
    })
}

fn joined_rules(alloc: Global, own: u32, rules: Vec<Rule>) -> Result<Vec<Rule>, NoMemory>
    requires { own + 1 < 2 ^ 32 }
    ensures rules { IfOk result (λ rs. map rule_view rs.items ≡ map (joined_rule own) (map rule_view rules.items)) }
    ensures counted { IfOk result (λ rs. map vars_of rs.items ≡ map vars_of rules.items) }
{
    let mut out = Vec::with_capacity(alloc, rules.len() + 1)?;
    for rule in rules {
        out.push(joined_rule_of(alloc, own, rule)?)?;
    }
    Ok(out)
}

fn last_rule_of(alloc: Global, own: u32) -> Result<Rule, NoMemory>
    requires { own + 1 < 2 ^ 32 }
    ensures rule { IfOk result (λ r. rule_view r ≡ last_rule own) }
    ensures vars { IfOk result (λ r. r.vars ≡ 1) }
{
    let mut both = Vec::with_capacity(alloc, 2)?;
    both.push(Term::Var(0))?;
    both.push(Term::Var(0))?;
    Ok(Rule {
        left: Term::Fun(own, both),
        right: Term::Fun(own + 1, Vec::new(alloc)),
        conds: Vec::new(alloc),
        vars: 1,
    })
}

/// The oriented system of the rules of `list` as join rules, which are known to be sound and to have conditions that fit
/// below `join`, so that nothing is tested.
pub fn join_sound(alloc: Global, list: System) -> Result<System, NoMemory>
    requires fit { DoAllJoinsFit list.rules }
    requires few_symbols { length list.arities + condition_count list.rules < 2 ^ 31 - 2 }
    requires few_rules { length list.rules + condition_count list.rules < 2 ^ 31 - 2 }
    ensures { IfOk result (λ s. s ≡ joined list) }
{
    let (arities, rules, _own) = list.into_parts();
    let own = arities.len() as u32;
    let mut arities = arities;
    arities.push(2)?;
    arities.push(0)?;
    let mut rules = joined_rules(alloc, own, rules)?;
    rules.push(last_rule_of(alloc, own)?)?;
    Ok(System::of_parts(arities, rules, own))
}

/// The oriented system of join rules, whose conditions ask for common reducts: with two symbols more, `join(s, t) == true`
/// for each condition `s == t`, and last the rule `join(x, x) -> true`. The fault is that of `System::make`, or behind it
/// that a new condition does not fit.
pub fn join_system(alloc: Global, arities: Vec<u32>, rules: Vec<Rule>) -> Result<System, JoinError>
    requires few_symbols { length arities.items + condition_count (map rule_view rules.items) < 2 ^ 31 - 2 }
    requires few_rules { length rules.items + condition_count (map rule_view rules.items) < 2 ^ 31 - 2 }
    ensures answer { JoinAnswers arities.items rules.items result }
    ensures sound { OnOk result (AreSound arities.items rules.items) }
    ensures fit { OnOk result (DoAllJoinsFit (map rule_view rules.items)) }
{
    first_fault(&arities, &rules)?;
    first_large(&rules)?;
    Ok(join_sound(alloc, System::of_sound(arities, rules))?)
}
