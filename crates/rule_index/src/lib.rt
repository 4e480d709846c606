//! The rules of a system by the root symbols of their left sides, a system with that index, and walks over the parts of a term.
#![tactic(auto)]

mod indexed;
mod parts;

ghost use Rattle.std.specs.Prelude.{◌≡◌, ◌<◌, ◌^◌, ◌++◌, ◌∷◌, ℕ, [], IfOk, OnOk, if◌then◌else◌, map, length};
ghost use Rattle.rule_index.specs.Roots.{has_root, numbers_with_root};
ghost use Rattle.rule_index.specs.Index.{listed, listed_at, IsIndexOf, IsRootBelow, AreRootsBelow};
ghost use Rattle.term_core.specs.Prelude.{view, rule_view};

pub use indexed::IndexedSystem;
pub use parts::PartWalk;
use std::alloc::Global;
use std::marker::Model;
use term_core::{NoMemory, Rule, System, Term};

/// The rules of a system by the root symbols of their left sides: a list of numbers for each symbol.
#[derive(Debug, Drop)]
pub struct RuleIndex {
    buckets: Vec<Vec<u32>>,
}

impl Model for RuleIndex {
    ghost use Rattle.std.specs.Prelude.{List, ℕ};

    ghost Value = { List (List ℕ) };

    ghost use Rattle.rule_index.specs.IndexView.{index_view};

    ghost view = { index_view };
}

impl RuleIndex {
    /// The index of a system, in time linear in the numbers of its rules and symbols.
    pub fn new(alloc: Global, sys: &System) -> Result<RuleIndex, NoMemory>
        ensures { IfOk result (IsIndexOf sys.now) }
    {
        let mut buckets = empty_buckets(alloc, sys.arities().len())?;
        add_rules(sys.rules(), &mut buckets)?;
        Ok(RuleIndex { buckets })
    }

    /// The numbers, from 1, of the rules whose left sides have this root symbol, in order; for a number
    /// that is no symbol of the system there are none.
    pub fn with_root(&self, f: u32) -> &[u32]
        ensures { result.now ≡ listed self.now f }
    {
        match self.buckets.get(f as usize) {
            Some(bucket) => bucket,
            None => &[],
        }
    }

    /// The numbers, from 1, of the rules whose left sides have the root of this term, in order; for a variable there are none.
    pub fn rules_at(&self, part: &Term) -> &[u32]
        ensures { result.now ≡ listed_at self.now (view part.now) }
    {
        match part {
            Term::Var(_) => &[],
            Term::Fun(f, _) => self.with_root(*f),
        }
    }
}

// So many buckets without a number.
fn empty_buckets(alloc: Global, count: usize) -> Result<Vec<Vec<u32>>, NoMemory>
    ensures empty { IfOk result (λ buckets. (f : ℕ) → listed (map (λ v. v.items) buckets.items) f ≡ []) }
    ensures count { IfOk result (λ buckets. length buckets.items ≡ count) }
{
    let mut buckets = Vec::with_capacity(alloc, count)?;
    for _ in 0..count {
        buckets.push(Vec::new(alloc))?;
    }
    Ok(buckets)
}

// Puts the number of a rule with this left side last in the bucket of its root.
fn add_number(left: &Term, number: u32, buckets: &mut [Vec<u32>]) -> Result<(), NoMemory>
    requires { IsRootBelow (length buckets.old) (view left.now) }
    ensures listed { OnOk result ((f : ℕ) → listed (map (λ v. v.items) buckets.new) f ≡ (if has_root f (view left.now) then (listed (map (λ v. v.items) buckets.old) f ++ number ∷ []) else listed (map (λ v. v.items) buckets.old) f)) }
    ensures count { length buckets.new ≡ length buckets.old }
{
    match left {
        Term::Var(_) => Ok(()),
        Term::Fun(f, _) => {
            let bucket = &mut buckets[*f as usize];
            bucket.push(number)?;
            Ok(())
        }
    }
}

// Puts the numbers of the rules, from 1, behind those in the buckets of their roots.
fn add_rules(rules: &[Rule], buckets: &mut [Vec<u32>]) -> Result<(), NoMemory>
    requires few { length rules.now < 2 ^ 31 }
    requires roots { AreRootsBelow (length buckets.old) (map rule_view rules.now) }
    ensures { OnOk result ((f : ℕ) → listed (map (λ v. v.items) buckets.new) f ≡ listed (map (λ v. v.items) buckets.old) f ++ numbers_with_root f 1 (map rule_view rules.now)) }
{
    let mut number = 1;
    'rules: for rule in rules {
        add_number(&rule.left, number, buckets)?;
        number += 1;
    }
    Ok(())
}
