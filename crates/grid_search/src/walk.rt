//! The grid searched symbol by symbol, with backtracking: entries with which no good interpretation begins are not built on.
ghost use Rattle.std.specs.Prelude.{ℕ, ◌<◌, IfOk, OnOk, length, map};
ghost use Rattle.rewriting.specs.Rules as math;
ghost use Rattle.rewriting.specs.Unraveling.{heads};
ghost use Rattle.cert_model.specs.CertificateView.{linear_entry_view};
ghost use Rattle.cc_count.specs.Counts.{Spends};
ghost use Rattle.grid_search.specs.Answers.{GridAnswers};
ghost use Rattle.grid_search.specs.Walks.{HasComeTo, HasDoneWith, GoesOn, HasOneMore, VisitAnswers};

use crate::PrefixJudge;
use crate::entries::{advance, first_entry};
use cc_count::{Budget, Sought};
use cert_model::{Linear, LinearEntry};
use measure::Partial;
use std::alloc::Global;
use term_core::NoMemory;

/// What the first entries of an interpretation are seen to be.
#[derive(Clone, Copy, Debug, PartialEq, Eq)]
enum Seen {
    /// Good interpretations may begin with them.
    Alive,
    /// None does.
    Dead,
    /// They are a good interpretation.
    Good,
}

// Looks at the entries to which the walk has come.
fn visit(alloc: Global, judge: &PrefixJudge<'_>, prefix: &[LinearEntry]) -> Result<Seen, NoMemory>
    requires { (n : ℕ) × HasComeTo judge.now (map linear_entry_view prefix.now) n }
    ensures { VisitAnswers judge.now (map linear_entry_view prefix.now) result }
{
    let whole = prefix.len() == judge.heads().len();
    match judge.judge_last(alloc, prefix)? {
        Partial::Unknown if !whole => Ok(Seen::Alive),
        Partial::Unknown => Ok(Seen::Good),
        Partial::Dead => Ok(Seen::Dead),
    }
}

// Puts the first entry of the next symbol last.
fn go_down(
    alloc: Global,
    judge: &PrefixJudge<'_>,
    prefix: &mut Vec<LinearEntry>,
) -> Result<(), NoMemory>
    requires { length prefix.old.items < length (heads judge.now) }
    ensures { OnOk result (HasOneMore judge.now (map linear_entry_view prefix.old.items) (map linear_entry_view prefix.new.items)) }
{
    let symbol = prefix.len();
    let head = judge.heads()[symbol];
    let arity = judge.arities()[symbol];
    prefix.push(first_entry(alloc, head, arity)?)?;
    Ok(())
}

// Goes on to the next entry of the last symbol that has one, and drops what is behind it; false where none has.
fn go_on(prefix: &mut Vec<LinearEntry>) -> Result<bool, NoMemory>
    ensures { IfOk result (λ some. (sys : math.System) (n : ℕ) → HasDoneWith sys (map linear_entry_view prefix.old.items) n → GoesOn sys (map linear_entry_view prefix.new.items) n some) }
{
    'back: while let Some(mut entry) = prefix.pop() {
        if advance(&mut entry) {
            prefix.push(entry)?;
            return Ok(true);
        }
    }
    Ok(false)
}

/// Walks through the grid up to the first good interpretation.
pub(crate) fn walk_grid(
    alloc: Global,
    judge: &PrefixJudge<'_>,
    budget: &mut Budget,
) -> Result<Sought<Linear>, NoMemory>
    ensures answer { GridAnswers judge.now budget.old budget.new result }
    ensures kept { (n : ℕ) × Spends budget.old n budget.new }
{
    let mut prefix = Vec::new(alloc);
    // Each visit goes down by a symbol or takes a unit.
    'visits: loop {
        match visit(alloc, judge, &prefix)? {
            Seen::Alive => go_down(alloc, judge, &mut prefix)?,
            Seen::Dead => {
                if !budget.take() {
                    return Ok(Sought::Spent);
                }
                if !go_on(&mut prefix)? {
                    return Ok(Sought::Nothing);
                }
            }
            Seen::Good => {
                if !budget.take() {
                    return Ok(Sought::Spent);
                }
                return Ok(Sought::Found(Linear { entries: prefix }));
            }
        }
    }
}
