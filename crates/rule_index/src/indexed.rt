//! A system and the index of its rules in one value, so that no question about the system makes an index of its own.
ghost use Rattle.std.specs.Prelude.{◌≡◌, ◌↔◌, IfOk, IsTrue, IsSome, Some, map};
ghost use Rattle.rewriting.specs.Prelude.{IsLinear, rule_at, IsSystem};
ghost use Rattle.rewriting.specs.Rules as math;
ghost use Rattle.rule_index.specs.Roots.{rules_with_root, rules_at};
ghost use Rattle.rule_index.specs.Linear.{TellLinear};
ghost use Rattle.term_core.specs.Prelude.{view, rule_view, AreCounted};

use crate::RuleIndex;
use std::alloc::Global;
use std::marker::Model;
use term_core::{NoMemory, Rule, System, Term, is_linear};

/// A system with the index of its rules: prepared once, asked often. In contracts it is the system.
#[derive(Debug, Drop)]
pub struct IndexedSystem<'a> {
    system: &'a System,
    index: RuleIndex,
    linear: Vec<bool>,
}

impl<'a> Model for IndexedSystem<'a> {
    ghost use Rattle.rewriting.specs.Codes.{coded_system};
    ghost use Rattle.rewriting.specs.Rules as math;
    ghost use Rattle.rule_index.specs.IndexedView.{indexed_view, IsIndexed};

    ghost Value = { math.System };

    ghost coded = { coded_system };

    ghost view = { indexed_view };

    ghost invariant = { IsIndexed };
}

// Whether each left side is linear, in order.
fn linear_lefts(alloc: Global, rules: &[Rule]) -> Result<Vec<bool>, NoMemory>
    ensures { IfOk result (λ linear. TellLinear (map rule_view rules.now) linear.items) }
{
    let mut linear = Vec::with_capacity(alloc, rules.len())?;
    for rule in rules {
        linear.push(is_linear(&rule.left))?;
    }
    Ok(linear)
}

impl<'a> IndexedSystem<'a> {
    /// The system with its index, in time linear in the sizes of its left sides and the number of its symbols.
    pub fn new(alloc: Global, system: &'a System) -> Result<IndexedSystem<'a>, NoMemory>
        ensures { IfOk result (λ s. s ≡ system.now) }
    {
        let index = RuleIndex::new(alloc, system)?;
        let linear = linear_lefts(alloc, system.rules())?;
        Ok(IndexedSystem {
            system,
            index,
            linear,
        })
    }

    /// The system itself.
    pub fn system(&self) -> &System
        ensures { result.now ≡ self.now }
    {
        self.system
    }

    /// The rules in order.
    pub fn rules(&self) -> &[Rule]
        ensures rules { map rule_view result.now ≡ self.now.rules }
        ensures counted { AreCounted result.now }
        ensures sound { IsSystem self.now }
    {
        self.system.rules()
    }

    /// The law of each system, for code that asks for nothing else of it; it does nothing.
    pub fn rules_are_sound(&self)
        ensures { IsSystem self.now }
    {
        self.system.rules_are_sound();
    }

    /// The numbers, from 1, of the rules whose left sides have this root symbol, in order; for a number
    /// that is no symbol of the system there are none.
    pub fn with_root(&self, f: u32) -> &[u32]
        ensures { result.now ≡ rules_with_root self.now f }
    {
        self.index.with_root(f)
    }

    /// The numbers, from 1, of the rules whose left sides have the root of this term, in order; for a variable there are none.
    pub fn rules_at(&self, part: &Term) -> &[u32]
        ensures { result.now ≡ rules_at self.now (view part.now) }
    {
        self.index.rules_at(part)
    }

    /// Whether the left side of the rule with this number, from 1, is linear.
    pub fn is_left_linear(&self, number: u32) -> bool
        requires { IsSome (rule_at self.now number) }
        ensures { (r : math.Rule) → rule_at self.now number ≡ Some r → (IsTrue result ↔ IsLinear r.left) }
    {
        self.linear[number as usize - 1]
    }
}
