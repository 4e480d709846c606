//! Conditions, rules and conditional rewrite systems, and why rules make no system.
ghost use Rattle.std.specs.Prelude.{◌≡◌, ◌<◌, ◌+◌, ◌^◌, ◌↔◌, IsTrue, OnOk, map, length};
ghost use Rattle.rewriting.specs.Prelude.{system_of, condition_count, IsSystem};
ghost use Rattle.term_core.specs.HeadView.{head_view};
ghost use Rattle.term_core.specs.RuleView.{rule_view, AreCounted};

use crate::joins::JoinError;
use crate::soundness::first_fault;
use crate::terms::Term;
use std::alloc::Global;
use std::marker::Model;

/// A condition `left == right` of a rule.
#[derive(Debug, Drop)]
pub struct Cond {
    pub left: Term,
    pub right: Term,
}

/// A conditional rewrite rule, with the number of its variables.
#[derive(Debug, Drop)]
pub struct Rule {
    pub left: Term,
    pub right: Term,
    pub conds: Vec<Cond>,
    pub vars: u32,
}

/// Why rules make no system: the number of a rule, from 1, and what it breaks.
#[derive(Clone, Copy, Debug, PartialEq, Eq)]
pub enum SystemFault {
    /// A symbol has no arity.
    BadSymbol { rule: u32 },
    /// A symbol has another number of arguments than its arity.
    BadArity { rule: u32 },
    /// The left side is a variable.
    LeftVariable { rule: u32 },
    /// The variables are not 0, 1, .. by first occurrence, or `vars` is not their number, or not below 2^31.
    BadVariables { rule: u32 },
    /// There are more than `MAX_CONDITIONS`, or a term does not fit.
    TooLarge { rule: u32 },
}

/// A symbol of an unraveled system: one of the file's, or an auxiliary one of a rule and a condition.
#[derive(Clone, Copy, Debug, PartialEq, Eq)]
pub enum Head {
    File(u32),
    Aux { rule: u32, cond: u32 },
}

/// Whether two symbols of an unraveled system are the same.
pub fn is_same_head(a: Head, b: Head) -> bool
    ensures { IsTrue result ↔ (head_view a ≡ head_view b) }
{
    match (a, b) {
        (Head::File(f), Head::File(g)) => f == g,
        (Head::Aux { rule: i, cond: k }, Head::Aux { rule: j, cond: l }) => i == j && k == l,
        _ => false,
    }
}

/// A conditional rewrite system: the arities of its symbols, its rules, and how many of the symbols are its file's.
#[derive(Debug, Drop)]
pub struct System {
    arities: Vec<u32>,
    rules: Vec<Rule>,
    own: u32,
}

impl Model for System {
    ghost use Rattle.rewriting.specs.Codes.{coded_system};
    ghost use Rattle.rewriting.specs.Rules as math;
    ghost use Rattle.term_core.specs.SystemView.{system_view, IsHeld};

    ghost Value = { math.System };

    ghost coded = { coded_system };

    ghost view = { system_view };

    ghost invariant = { IsHeld };
}

impl System {
    ghost use Rattle.term_core.specs.SystemView.{MakeAnswers, AreSound};
    ghost use Rattle.term_core.specs.JoinAnswers.{WithRulesAnswers};

    /// The system of these symbols and rules, where each rule is sound as it is handed in, its `vars` included;
    /// or the first fault of the first rule that has one.
    pub fn make(arities: Vec<u32>, rules: Vec<Rule>) -> Result<System, SystemFault>
        requires few_symbols { length arities.items + condition_count (map rule_view rules.items) < 2 ^ 31 }
        requires few_rules { length rules.items + condition_count (map rule_view rules.items) < 2 ^ 31 }
        ensures answer { MakeAnswers arities.items rules.items result }
        ensures sound { OnOk result (AreSound arities.items rules.items) }
    {
        first_fault(&arities, &rules)?;
        let own = arities.len() as u32;
        Ok(System {
            arities,
            rules,
            own,
        })
    }

    /// The system of symbols and rules that are known to be sound, so that nothing is tested.
    pub fn of_sound(arities: Vec<u32>, rules: Vec<Rule>) -> System
        requires sound { IsSystem (system_of arities.items (map rule_view rules.items)) }
        requires counted { AreCounted rules.items }
        ensures { result ≡ system_of arities.items (map rule_view rules.items) }
    {
        let count = arities.len() as u32;
        System {
            arities,
            rules,
            own: count,
        }
    }

    /// The system of these arities, rules and number of the file's symbols, where the rules are known to be sound, so that
    /// nothing is tested. With `into_parts` a system gets other rules without a copy.
    pub fn of_parts(arities: Vec<u32>, rules: Vec<Rule>, own: u32) -> System
        requires sound { IsSystem (record { arities = arities.items; rules = map rule_view rules.items; own = own }) }
        requires counted { AreCounted rules.items }
        ensures { result ≡ record { arities = arities.items; rules = map rule_view rules.items; own = own } }
    {
        System {
            arities,
            rules,
            own,
        }
    }

    /// The system with other rules, each sound over its symbols, or the first fault of the first rule that has one. The
    /// symbols and how many of them are the file's stay.
    pub fn with_rules(&self, alloc: Global, rules: Vec<Rule>) -> Result<System, JoinError>
        requires few_symbols { length self.now.arities + condition_count (map rule_view rules.items) < 2 ^ 31 }
        requires few_rules { length rules.items + condition_count (map rule_view rules.items) < 2 ^ 31 }
        ensures answer { WithRulesAnswers self.now rules.items result }
        ensures sound { OnOk result (AreSound self.now.arities rules.items) }
    {
        first_fault(&self.arities, &rules)?;
        let mut arities = Vec::with_capacity(alloc, self.arities.len())?;
        arities.extend_from_slice(&self.arities)?;
        Ok(System {
            arities,
            rules,
            own: self.own,
        })
    }

    /// The arities, the rules, and how many symbols are the file's: the parts of which `of_parts` makes the system again.
    pub fn into_parts(self) -> (Vec<u32>, Vec<Rule>, u32)
        ensures arities { result.0.items ≡ self.arities }
        ensures rules { map rule_view result.1.items ≡ self.rules }
        ensures own { result.2 ≡ self.own }
        ensures counted { AreCounted result.1.items }
        ensures sound { IsSystem self }
    {
        (self.arities, self.rules, self.own)
    }

    /// How many symbols are the file's: the first ones.
    pub fn own(&self) -> u32
        ensures { result ≡ self.now.own }
    {
        self.own
    }

    /// The arity of each symbol.
    pub fn arities(&self) -> &[u32]
        ensures { result.now ≡ self.now.arities }
    {
        &self.arities
    }

    /// The rules in order.
    pub fn rules(&self) -> &[Rule]
        ensures rules { map rule_view result.now ≡ self.now.rules }
        ensures counted { AreCounted result.now }
        ensures sound { IsSystem self.now }
    {
        &self.rules
    }

    /// The law of each system, for code that asks for nothing else of it; it does nothing.
    pub fn rules_are_sound(&self)
        ensures { IsSystem self.now }
    {
        let _ = &self.rules;
    }
}
