//! The walk through the precedences, symbol by symbol.
ghost use Rattle.std.specs.Prelude.{◌≡◌, ◌<◌, ◌^◌, ℕ, IfOk, OnOk, MatchBool, length, map};
ghost use Rattle.rewriting.specs.Prelude.{IsSorted, heads};
ghost use Rattle.rewriting.specs.Rules as math;
ghost use Rattle.term_core.specs.Prelude.{head_view, rule_view};
ghost use Rattle.cc_count.specs.Counts.{Spends};
ghost use Rattle.unravel.specs.Answers.{IsUnraveled};
ghost use Rattle.lpo.specs.Answers.{IsOf};
ghost use Rattle.lpo.specs.Listed.{AreListed};
ghost use Rattle.lpo.specs.Places.{place_in};
ghost use Rattle.lpo.specs.Symbols.{IsHeadBefore};
ghost use Rattle.path_orders.specs.Dead.{IsDead};
ghost use Rattle.precedence_search.specs.Answers.{SearchAnswers};
ghost use Rattle.precedence_search.specs.Walks.{FreeAnswers, GoesDown, GoesOn, HasDoneWith, HasHeads, IsAliveBefore, IsInPlace, IsLonger, IsSoundOf, TakeAnswers, VisitAnswers};

use cc_count::{Budget, Sought};
use lpo::{is_listed_dead, is_one_dead, no_places, rules_by_symbol, symbol_of};
use std::alloc::Global;
use term_core::{Head, NoMemory, Rule, System};
use unravel::Unraveled;

/// The first symbols of a precedence, with the place, from 1, of each symbol, or 0.
#[derive(Debug, Drop)]
pub struct Walk {
    prefix: Vec<Head>,
    places: Vec<u32>,
}

/// What the first symbols of a precedence are seen to be.
#[derive(Clone, Copy, Debug, PartialEq, Eq)]
enum Seen {
    /// Good precedences may begin with them.
    Alive,
    /// None does.
    Barren,
    /// They are a good precedence.
    Good,
}

// The first symbol from a number on that has no place.
fn find_free(places: &[u32], from: usize) -> Option<usize>
    ensures { FreeAnswers places.now from result }
{
    for f in from..places.len() {
        if places[f] == 0 {
            return Some(f);
        }
    }
    None
}

// Puts a symbol without a place last.
fn put_last(heads: &[Head], walk: &mut Walk, f: usize) -> Result<(), NoMemory>
    requires sorted { IsSorted IsHeadBefore (map head_view heads.now) }
    requires few { length heads.now < 2 ^ 31 }
    requires in_place { IsInPlace (map head_view heads.now) walk.old }
    requires within { f < length heads.now }
    requires free { place_in walk.old.places.items f ≡ 0 }
    ensures last { OnOk result (IsLonger (map head_view heads.now) (map head_view walk.old.prefix.items) f (map head_view walk.new.prefix.items)) }
    ensures in_place { OnOk result (IsInPlace (map head_view heads.now) walk.new) }
{
    walk.prefix.push(heads[f])?;
    walk.places[f] = walk.prefix.len() as u32;
    Ok(())
}

// Takes the last symbol away, and tells its number.
fn take_last(heads: &[Head], walk: &mut Walk) -> Option<usize>
    requires sorted { IsSorted IsHeadBefore (map head_view heads.now) }
    requires in_place { IsInPlace (map head_view heads.now) walk.old }
    ensures last { TakeAnswers (map head_view heads.now) (map head_view walk.old.prefix.items) (map head_view walk.new.prefix.items) result }
    ensures in_place { IsInPlace (map head_view heads.now) walk.new }
{
    let head = walk.prefix.pop()?;
    let f = symbol_of(heads, head)?;
    walk.places[f] = 0;
    Some(f)
}

// Whether the symbols to which the walk has come are dead, where those before the last are not: only rules that have the
// last symbol are looked at.
fn are_dead(heads: &[Head], rules: &[Rule], listed: &[Vec<u32>], walk: &Walk) -> bool
    requires sorted { IsSorted IsHeadBefore (map head_view heads.now) }
    requires few { length heads.now < 2 ^ 31 }
    requires in_place { IsInPlace (map head_view heads.now) walk.now }
    requires listed { AreListed (map rule_view rules.now) (length rules.now) listed.now }
    requires count { length listed.now ≡ length heads.now }
    ensures { (sys : math.System) → IsOf sys (map head_view heads.now) (map rule_view rules.now) → IsAliveBefore sys (map head_view walk.now.prefix.items) → MatchBool result (IsDead sys (map head_view walk.now.prefix.items)) (IsDead sys (map head_view walk.now.prefix.items) → ⊥) }
{
    let Some(head) = walk.prefix.last() else {
        return is_one_dead(&walk.places, rules);
    };
    match symbol_of(heads, *head) {
        Some(f) => is_listed_dead(&walk.places, rules, &listed[f]),
        None => false,
    }
}

// Looks at the symbols to which the walk has come.
fn visit(heads: &[Head], rules: &[Rule], listed: &[Vec<u32>], walk: &Walk) -> Seen
    requires sorted { IsSorted IsHeadBefore (map head_view heads.now) }
    requires few { length heads.now < 2 ^ 31 }
    requires in_place { IsInPlace (map head_view heads.now) walk.now }
    requires listed { AreListed (map rule_view rules.now) (length rules.now) listed.now }
    requires count { length listed.now ≡ length heads.now }
    ensures { (sys : math.System) → IsSoundOf sys (map head_view heads.now) (map rule_view rules.now) → IsAliveBefore sys (map head_view walk.now.prefix.items) → VisitAnswers sys (map head_view walk.now.prefix.items) result }
{
    if are_dead(heads, rules, listed, walk) {
        Seen::Barren
    } else if walk.prefix.len() == heads.len() {
        Seen::Good
    } else {
        Seen::Alive
    }
}

// Puts the least symbol that is left last.
fn go_down(heads: &[Head], walk: &mut Walk) -> Result<(), NoMemory>
    requires sorted { IsSorted IsHeadBefore (map head_view heads.now) }
    requires few { length heads.now < 2 ^ 31 }
    requires in_place { IsInPlace (map head_view heads.now) walk.old }
    requires some { length walk.old.prefix.items < length heads.now }
    ensures down { OnOk result ((sys : math.System) → HasHeads sys (map head_view heads.now) → GoesDown sys (map head_view walk.old.prefix.items) (map head_view walk.new.prefix.items)) }
    ensures in_place { OnOk result (IsInPlace (map head_view heads.now) walk.new) }
{
    match find_free(&walk.places, 0) {
        Some(f) => put_last(heads, walk, f),
        None => Ok(()),
    }
}

// Goes on to the next symbol behind the last that has one, and drops what is behind it; false where none has.
fn go_on(heads: &[Head], walk: &mut Walk) -> Result<bool, NoMemory>
    requires sorted { IsSorted IsHeadBefore (map head_view heads.now) }
    requires few { length heads.now < 2 ^ 31 }
    requires in_place { IsInPlace (map head_view heads.now) walk.old }
    ensures goes { IfOk result (λ some. (sys : math.System) (n : ℕ) → HasHeads sys (map head_view heads.now) → HasDoneWith sys (map head_view walk.old.prefix.items) n → GoesOn sys (map head_view walk.new.prefix.items) n some) }
    ensures in_place { OnOk result (IsInPlace (map head_view heads.now) walk.new) }
{
    'back: while let Some(f) = take_last(heads, walk) {
        if let Some(g) = find_free(&walk.places, f + 1) {
            put_last(heads, walk, g)?;
            return Ok(true);
        }
    }
    Ok(false)
}

/// Walks through the precedences up to the first good one.
pub(crate) fn walk_precedences(
    alloc: Global,
    sys: &System,
    unraveled: &Unraveled,
    budget: &mut Budget,
) -> Result<Sought<Vec<Head>>, NoMemory>
    requires { IsUnraveled sys.now unraveled.now }
    ensures answer { SearchAnswers sys.now budget.old budget.new result }
    ensures kept { (n : ℕ) × Spends budget.old n budget.new }
{
    let rules = unraveled.system.rules();
    let heads: &[Head] = &unraveled.heads;
    let listed = rules_by_symbol(alloc, rules, heads.len())?;
    let places = no_places(alloc, heads, &[])?;
    let mut walk = Walk {
        prefix: Vec::new(alloc),
        places,
    };
    // Each visit goes down by a symbol or takes a unit.
    'visits: loop {
        match visit(heads, rules, &listed, &walk) {
            Seen::Alive => go_down(heads, &mut walk)?,
            Seen::Barren => {
                if !budget.take() {
                    return Ok(Sought::Spent);
                }
                if !go_on(heads, &mut walk)? {
                    return Ok(Sought::Nothing);
                }
            }
            Seen::Good => {
                if !budget.take() {
                    return Ok(Sought::Spent);
                }
                return Ok(Sought::Found(walk.prefix));
            }
        }
    }
}
