//! Whether rules make a system: arities, left sides, the numbering of variables, and limits of size.
ghost use Rattle.std.specs.Prelude.{◌≡◌, ◌<◌, ◌+◌, ◌^◌, ◌↔◌, ℕ, IsTrue, IfSome, IfNone, map, length, slice_get};
ghost use Rattle.rewriting.specs.Prelude.{IsVariable, Fits, IsOver, sides, Each, rule_variables, with_new, with_variables, with_variables_of};
ghost use Rattle.term_core.specs.View.{view};
ghost use Rattle.term_core.specs.RuleView.{condition_view, rule_view};
ghost use Rattle.term_core.specs.Numbering.{numbers_from, AreFirst, IsNumbered};
ghost use Rattle.term_core.specs.SystemView.{HasSymbolsBelow, AreSymbolsKnown, AreTermsOver, IsSmall, FaultAnswers, FirstFaultAnswers};

use crate::systems::{Cond, Rule, SystemFault};
use crate::terms::{MAX_CONDITIONS, Term, fits};

fn is_variable(t: &Term) -> bool
    ensures { IsTrue result ↔ IsVariable (view t.now) }
{
    matches!(t, Term::Var(_))
}

/// Whether each symbol of a term, of any size, has a number below `count`.
#[tactic(auto, using(crate::proofs::Over::below_from, crate::proofs::Over::below_symbol, crate::proofs::Over::below_args))]
pub fn has_symbols_below(count: usize, t: &Term) -> bool
    ensures { IsTrue result ↔ HasSymbolsBelow count (view t.now) }
{
    match t {
        Term::Var(_) => true,
        Term::Fun(f, args) => {
            if *f as usize >= count {
                return false;
            }
            for arg in args {
                if !has_symbols_below(count, arg) {
                    return false;
                }
            }
            true
        }
    }
}

fn have_symbols_below(count: usize, conds: &[Cond]) -> bool
    ensures { IsTrue result ↔ Each (HasSymbolsBelow count) (sides (map condition_view conds.now)) }
{
    for cond in conds {
        if !has_symbols_below(count, &cond.left) || !has_symbols_below(count, &cond.right) {
            return false;
        }
    }
    true
}

fn are_symbols_known(arities: &[u32], rule: &Rule) -> bool
    ensures { IsTrue result ↔ AreSymbolsKnown arities.now (rule_view rule.now) }
{
    let count = arities.len();
    has_symbols_below(count, &rule.left)
        && has_symbols_below(count, &rule.right)
        && have_symbols_below(count, &rule.conds)
}

fn has_arity(arities: &[u32], symbol: u32, count: usize) -> bool
    ensures { IsTrue result ↔ (slice_get arities.now symbol ≡ Some count) }
{
    match arities.get(symbol as usize) {
        Some(arity) => *arity as usize == count,
        None => false,
    }
}

/// Whether each symbol of a term, of any size, has an arity and as many arguments.
#[tactic(auto, using(crate::proofs::Over::over_from, crate::proofs::Over::over_arity, crate::proofs::Over::over_args))]
pub fn is_over(arities: &[u32], t: &Term) -> bool
    ensures { IsTrue result ↔ IsOver arities.now (view t.now) }
{
    match t {
        Term::Var(_) => true,
        Term::Fun(f, args) => {
            if !has_arity(arities, *f, args.len()) {
                return false;
            }
            for arg in args {
                if !is_over(arities, arg) {
                    return false;
                }
            }
            true
        }
    }
}

fn are_over(arities: &[u32], conds: &[Cond]) -> bool
    ensures { IsTrue result ↔ Each (IsOver arities.now) (sides (map condition_view conds.now)) }
{
    for cond in conds {
        if !is_over(arities, &cond.left) || !is_over(arities, &cond.right) {
            return false;
        }
    }
    true
}

fn are_terms_over(arities: &[u32], rule: &Rule) -> bool
    ensures { IsTrue result ↔ AreTermsOver arities.now (rule_view rule.now) }
{
    is_over(arities, &rule.left) && is_over(arities, &rule.right) && are_over(arities, &rule.conds)
}

// How many variables are known behind one more, where the first numbers are known before it and a
// new variable has the next number; fewer than 2^31.
#[tactic(auto, using(crate::proofs::Numbers::known_first, crate::proofs::Numbers::next_first, crate::proofs::Numbers::not_next, crate::proofs::Numbers::too_many))]
fn known_with(x: u32, known: u32) -> Option<u32>
    requires { known < 2 ^ 31 }
    ensures some { IfSome result (AreFirst (with_new (numbers_from 0 known) x)) }
    ensures none { IfNone result ((m : ℕ) → AreFirst (with_new (numbers_from 0 known) x) m → ⊥) }
{
    if x < known {
        return Some(known);
    }
    if x > known {
        return None;
    }
    if known + 1 == 1 << 31 {
        return None;
    }
    Some(known + 1)
}

// The same behind a term.
fn known_after(t: &Term, known: u32) -> Option<u32>
    requires { known < 2 ^ 31 }
    ensures some { IfSome result (AreFirst (with_variables (numbers_from 0 known) (view t.now))) }
    ensures none { IfNone result ((m : ℕ) → AreFirst (with_variables (numbers_from 0 known) (view t.now)) m → ⊥) }
{
    match t {
        Term::Var(x) => known_with(*x, known),
        Term::Fun(_, args) => {
            let mut next = known;
            for arg in args {
                next = known_after(arg, next)?;
            }
            Some(next)
        }
    }
}

// The same for the sides of conditions.
fn known_after_all(conds: &[Cond], known: u32) -> Option<u32>
    requires { known < 2 ^ 31 }
    ensures some { IfSome result (AreFirst (with_variables_of (numbers_from 0 known) (sides (map condition_view conds.now)))) }
    ensures none { IfNone result ((m : ℕ) → AreFirst (with_variables_of (numbers_from 0 known) (sides (map condition_view conds.now))) m → ⊥) }
{
    let mut next = known;
    for cond in conds {
        next = known_after(&cond.left, next)?;
        next = known_after(&cond.right, next)?;
    }
    Some(next)
}

// The number of a rule's variables, where they are the first numbers by first occurrence.
fn variable_count(rule: &Rule) -> Option<u32>
    ensures some { IfSome result (AreFirst (rule_variables (rule_view rule.now))) }
    ensures none { IfNone result ((m : ℕ) → AreFirst (rule_variables (rule_view rule.now)) m → ⊥) }
{
    let left = known_after(&rule.left, 0)?;
    let right = known_after(&rule.right, left)?;
    known_after_all(&rule.conds, right)
}

fn is_numbered(rule: &Rule) -> bool
    ensures { IsTrue result ↔ IsNumbered rule.now }
{
    match variable_count(rule) {
        Some(count) => count == rule.vars,
        None => false,
    }
}

fn all_fit(conds: &[Cond]) -> bool
    ensures { IsTrue result ↔ Each Fits (sides (map condition_view conds.now)) }
{
    for cond in conds {
        if !fits(&cond.left) || !fits(&cond.right) {
            return false;
        }
    }
    true
}

fn is_small(rule: &Rule) -> bool
    ensures { IsTrue result ↔ IsSmall (rule_view rule.now) }
{
    rule.conds.len() <= MAX_CONDITIONS
        && fits(&rule.left)
        && fits(&rule.right)
        && all_fit(&rule.conds)
}

// The first fault of a rule with a number.
fn check_rule(arities: &[u32], rule: &Rule, number: u32) -> Result<(), SystemFault>
    ensures { FaultAnswers arities.now rule.now number result }
{
    if !are_symbols_known(arities, rule) {
        return Err(SystemFault::BadSymbol { rule: number });
    }
    if !are_terms_over(arities, rule) {
        return Err(SystemFault::BadArity { rule: number });
    }
    if is_variable(&rule.left) {
        return Err(SystemFault::LeftVariable { rule: number });
    }
    if !is_numbered(rule) {
        return Err(SystemFault::BadVariables { rule: number });
    }
    if !is_small(rule) {
        return Err(SystemFault::TooLarge { rule: number });
    }
    Ok(())
}

// The first fault of the first rule that has one.
#[tactic(auto, using(crate::proofs::Rules::sound_more, crate::proofs::Rules::all_sound))]
pub(crate) fn first_fault(arities: &[u32], rules: &[Rule]) -> Result<(), SystemFault>
    requires { length rules.now < 2 ^ 31 }
    ensures { FirstFaultAnswers arities.now rules.now result }
{
    for (i, rule) in rules.iter().enumerate() {
        check_rule(arities, rule, i as u32 + 1)?;
    }
    Ok(())
}
