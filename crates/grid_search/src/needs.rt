//! How many of the first entries a rule needs for its symbols, and the rules by that number.
ghost use Rattle.std.specs.Prelude.{◌≡◌, ◌<◌, ◌+◌, ◌++◌, ◌∷◌, ◌^◌, ℕ, [], IfOk, OnOk, if◌then◌else◌, nat_eq, map, length};
ghost use Rattle.term_core.specs.Prelude.{view, rule_view};
ghost use Rattle.grid_search.specs.Needed.{needed, needed_at, DoNeedBelow, numbers_needing};
ghost use Rattle.unravel.specs.Listed.{listed};

use std::alloc::Global;
use term_core::{NoMemory, Rule, Term};
use unravel::empty_lists;

// How many of the first entries a term needs.
fn term_needs(t: &Term) -> usize
    ensures { result ≡ needed (view t.now) }
{
    match t {
        Term::Var(_) => 0,
        Term::Fun(f, args) => {
            let mut most = *f as usize + 1;
            'arguments: for arg in args {
                most = term_needs(arg).max(most);
            }
            most
        }
    }
}

/// How many of the first entries a rule needs.
pub fn rule_needs(rule: &Rule) -> usize
    ensures { result ≡ needed_at (rule_view rule.now) }
{
    term_needs(&rule.left).max(term_needs(&rule.right))
}

// Puts the number of a rule last in the list for as many entries as it needs.
fn add_number(rule: &Rule, number: u32, lists: &mut [Vec<u32>]) -> Result<(), NoMemory>
    requires { needed_at (rule_view rule.now) < length lists.old }
    ensures listed { OnOk result ((k : ℕ) → listed lists.new k ≡ (if nat_eq k (needed_at (rule_view rule.now)) then (listed lists.old k ++ number ∷ []) else listed lists.old k)) }
    ensures count { length lists.new ≡ length lists.old }
{
    lists[rule_needs(rule)].push(number)?;
    Ok(())
}

// Puts the numbers of the rules, from 1, behind those in the lists.
fn add_rules(rules: &[Rule], lists: &mut [Vec<u32>]) -> Result<(), NoMemory>
    requires few { length rules.now < 2 ^ 31 }
    requires needs { DoNeedBelow (length lists.old) (map rule_view rules.now) }
    ensures { OnOk result ((k : ℕ) → listed lists.new k ≡ listed lists.old k ++ numbers_needing k 1 (map rule_view rules.now)) }
{
    let mut number = 1;
    'rules: for rule in rules {
        add_number(rule, number, lists)?;
        number += 1;
    }
    Ok(())
}

/// The numbers of the rules, from 1, in a list for each number of first entries that a rule may need.
pub fn numbers_by_need(
    alloc: Global,
    rules: &[Rule],
    count: usize,
) -> Result<Vec<Vec<u32>>, NoMemory>
    requires few { length rules.now < 2 ^ 31 }
    requires needs { DoNeedBelow count (map rule_view rules.now) }
    ensures listed { IfOk result (λ lists. (k : ℕ) → listed lists.items k ≡ numbers_needing k 1 (map rule_view rules.now)) }
    ensures count { IfOk result (λ lists. length lists.items ≡ count) }
{
    let mut lists = empty_lists(alloc, count)?;
    add_rules(rules, &mut lists)?;
    Ok(lists)
}
