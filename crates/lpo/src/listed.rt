//! The rules in which each symbol occurs.
ghost use Rattle.std.specs.Prelude.{◌≡◌, ◌<◌, ◌^◌, ℕ, [], OnOk, IfOk, IsTrue, map, length};
ghost use Rattle.rewriting.specs.Lists.{IsAmong};
ghost use Rattle.term_core.specs.Prelude.{view, views, rule_view};
ghost use Rattle.lpo.specs.Listed.{AreListed, HasSymbol, HaveSymbol, IsNoted, ListedAnswers, OccursAt};
ghost use Rattle.unravel.specs.Listed.{listed};

use crate::rules::is_dead;
use std::alloc::Global;
use term_core::{NoMemory, Rule, Term};
use unravel::empty_lists;

fn is_last(list: &[u32], number: u32) -> bool
    ensures { IsTrue result → IsAmong number list.now }
{
    match list.last() {
        Some(last) => *last == number,
        None => false,
    }
}

// Puts a number on the list of a symbol, unless it stands there last.
fn note_symbol(number: u32, symbol: u32, lists: &mut [Vec<u32>]) -> Result<(), NoMemory>
    ensures { OnOk result (IsNoted number (λ f. f ≡ symbol) lists.old lists.new) }
{
    let place = symbol as usize;
    if place >= lists.len() {
        return Ok(());
    }
    if is_last(&lists[place], number) {
        return Ok(());
    }
    lists[place].push(number)?;
    Ok(())
}

// Puts a number on the lists of the symbols of a term.
#[cycle(note)]
fn note_term(number: u32, t: &Term, lists: &mut [Vec<u32>]) -> Result<(), NoMemory>
    ensures { OnOk result (IsNoted number (λ f. HasSymbol f (view t.now)) lists.old lists.new) }
{
    match t {
        Term::Var(_) => Ok(()),
        Term::Fun(f, args) => {
            note_symbol(number, *f, lists)?;
            note_terms(number, args, lists)
        }
    }
}

#[cycle(note)]
fn note_terms(number: u32, ts: &[Term], lists: &mut [Vec<u32>]) -> Result<(), NoMemory>
    ensures { OnOk result (IsNoted number (λ f. HaveSymbol f (views ts.now)) lists.old lists.new) }
{
    match ts {
        [] => Ok(()),
        [first, rest @ ..] => {
            note_term(number, first, lists)?;
            note_terms(number, rest, lists)
        }
    }
}

fn note_rule(number: u32, rule: &Rule, lists: &mut [Vec<u32>]) -> Result<(), NoMemory>
    ensures { OnOk result (IsNoted number (λ f. OccursAt f (rule_view rule.now)) lists.old lists.new) }
{
    note_term(number, &rule.left, lists)?;
    note_term(number, &rule.right, lists)
}

// Puts the numbers of the rules, from 0, on empty lists.
fn note_rules(rules: &[Rule], lists: &mut [Vec<u32>]) -> Result<(), NoMemory>
    requires few { length rules.now < 2 ^ 31 }
    requires empty { (f : ℕ) → listed lists.old f ≡ [] }
    ensures listed { OnOk result (AreListed (map rule_view rules.now) (length rules.now) lists.new) }
    ensures count { length lists.new ≡ length lists.old }
{
    'rules: for (i, rule) in rules.iter().enumerate() {
        note_rule(i as u32, rule, lists)?;
    }
    Ok(())
}

/// For each of so many symbols the numbers, from 0, of the rules in which it occurs.
pub fn rules_by_symbol(
    alloc: Global,
    rules: &[Rule],
    count: usize,
) -> Result<Vec<Vec<u32>>, NoMemory>
    requires few { length rules.now < 2 ^ 31 }
    ensures listed { IfOk result (λ lists. AreListed (map rule_view rules.now) (length rules.now) lists.items) }
    ensures count { IfOk result (λ lists. length lists.items ≡ count) }
{
    let mut lists = empty_lists(alloc, count)?;
    note_rules(rules, &mut lists)?;
    Ok(lists)
}

/// Whether some of the rules with these numbers, all of whose symbols have places, is not ordered.
pub fn is_listed_dead(places: &[u32], rules: &[Rule], numbers: &[u32]) -> bool
    requires { (n : ℕ) → IsAmong n numbers.now → n < length rules.now }
    ensures { ListedAnswers places.now (map rule_view rules.now) numbers.now result }
{
    'numbers: for number in numbers {
        if is_dead(places, &rules[*number as usize]) {
            return true;
        }
    }
    false
}
