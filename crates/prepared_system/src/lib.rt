//! A system that is prepared once, to be asked often: the index of its rules, and its rules with their variables renamed apart.
//!
//! The variable x, number 0, of `f(x) -> x` is number 0 in the rule as an inner one, and number 1 in the rule as an outer one. So
//! a left side may be unified with a part of another, or with a term whose variables are odd numbers, and nothing is renamed for it.
#![tactic(auto)]

ghost use Rattle.std.specs.Prelude.{◌≡◌, IfOk, map};
ghost use Rattle.rewriting.specs.Systems.{IsSystem};
ghost use Rattle.term_core.specs.RuleView.{rule_view, AreCounted};
ghost use Rattle.prepared_system.specs.Renamed.{inner_rules, outer_rules};

mod renaming;

use crate::renaming::rename_rules;
use rule_index::IndexedSystem;
use std::alloc::Global;
use std::marker::Model;
use term_core::{NoMemory, Rule, System};

/// A system with the index of its rules, and its rules as inner and as outer ones: prepared once, lent to all that ask. In
/// contracts it is the system.
#[derive(Debug, Drop)]
pub struct PreparedSystem<'a> {
    indexed: IndexedSystem<'a>,
    inners: Vec<Rule>,
    outers: Vec<Rule>,
}

impl<'a> Model for PreparedSystem<'a> {
    ghost use Rattle.rewriting.specs.Codes.{coded_system};
    ghost use Rattle.rewriting.specs.Rules as rules;
    ghost use Rattle.prepared_system.specs.PreparedView.{prepared_view, IsPrepared};

    ghost Value = { rules.System };

    ghost coded = { coded_system };

    ghost view = { prepared_view };

    ghost invariant = { IsPrepared };
}

impl<'a> PreparedSystem<'a> {
    /// Renames the rules, in time linear in their sizes.
    pub fn new(alloc: Global, indexed: IndexedSystem<'a>) -> Result<PreparedSystem<'a>, NoMemory>
        ensures { IfOk result (λ sys. sys ≡ indexed.entry) }
    {
        let arities = indexed.system().arities();
        let inners = rename_rules(alloc, arities, indexed.rules(), 0)?;
        let outers = rename_rules(alloc, arities, indexed.rules(), 1)?;
        Ok(PreparedSystem {
            indexed,
            inners,
            outers,
        })
    }

    /// The system with its index.
    pub fn indexed(&self) -> &IndexedSystem<'a>
        ensures { result.now ≡ self.now }
    {
        &self.indexed
    }

    /// The system itself.
    pub fn system(&self) -> &System
        ensures { result.now ≡ self.now }
    {
        self.indexed.system()
    }

    /// The rules in order.
    pub fn rules(&self) -> &[Rule]
        ensures rules { map rule_view result.now ≡ self.now.rules }
        ensures counted { AreCounted result.now }
        ensures sound { IsSystem self.now }
    {
        self.indexed.rules()
    }

    /// The law of each system, for code that asks for nothing else of it; it does nothing.
    pub fn rules_are_sound(&self)
        ensures { IsSystem self.now }
    {
        self.indexed.rules_are_sound();
    }

    /// The rules in order as inner ones, with variable 2k for each variable k.
    pub fn inner_rules(&self) -> &[Rule]
        ensures rules { map rule_view result.now ≡ inner_rules self.now }
        ensures sound { IsSystem self.now }
    {
        &self.inners
    }

    /// The rules in order as outer ones, with variable 2k + 1 for each variable k.
    pub fn outer_rules(&self) -> &[Rule]
        ensures rules { map rule_view result.now ≡ outer_rules self.now }
        ensures sound { IsSystem self.now }
    {
        &self.outers
    }
}
