//! Interpretations with numbers up to 6, symbol by symbol, with backtracking: dead beginnings are not built on.
ghost use Rattle.std.specs.Prelude.{◌<◌, IfOk, OnOk, length, map};
ghost use Rattle.rewriting.specs.Rules as math;
ghost use Rattle.rewriting.specs.Unraveling.{heads};
ghost use Rattle.cert_model.specs.CertificateView.{linear_entry_view};
ghost use Rattle.wide_search.specs.Prefixes.{IsNext, IsAlive, SeenAnswers};

use crate::numbers::{advance, first_entry};
use cc_count::{Budget, Sought};
use cert_model::{Linear, LinearEntry};
use grid_search::PrefixJudge;
use measure::Partial;
use std::alloc::Global;
use term_core::{NoMemory, System};
use unravel::UnravelError;

/// What the first entries of an interpretation are seen to be.
#[derive(Clone, Copy, Debug, PartialEq, Eq)]
enum Seen {
    /// There are symbols behind them.
    Alive,
    /// No good interpretation begins with them.
    Dead,
    /// They are a good interpretation.
    Good,
}

// Looks at the entries to which the walk has come.
fn look_at(alloc: Global, judge: &PrefixJudge<'_>, prefix: &[LinearEntry]) -> Result<Seen, NoMemory>
    requires { IsNext judge.now (map linear_entry_view prefix.now) }
    ensures { SeenAnswers judge.now (map linear_entry_view prefix.now) result }
{
    let whole = prefix.len() == judge.heads().len();
    match judge.judge_last(alloc, prefix)? {
        Partial::Unknown if whole => Ok(Seen::Good),
        Partial::Unknown => Ok(Seen::Alive),
        Partial::Dead => Ok(Seen::Dead),
    }
}

// Puts the first entry of the next symbol last.
fn go_down(
    alloc: Global,
    judge: &PrefixJudge<'_>,
    prefix: &mut Vec<LinearEntry>,
) -> Result<(), NoMemory>
    requires alive { IsAlive judge.now (map linear_entry_view prefix.old.items) }
    requires more { length prefix.old.items < length (heads judge.now) }
    ensures { OnOk result (IsNext judge.now (map linear_entry_view prefix.new.items)) }
{
    let symbol = prefix.len();
    let head = judge.heads()[symbol];
    let arity = judge.arities()[symbol];
    prefix.push(first_entry(alloc, head, arity)?)?;
    Ok(())
}

// Goes on to the next entry of the last symbol that has one, and drops what is behind it; false where none has.
fn go_on(prefix: &mut Vec<LinearEntry>) -> Result<bool, NoMemory>
    ensures { IfOk result (λ some. (sys : math.System) → IsNext sys (map linear_entry_view prefix.old.items) → IsNext sys (map linear_entry_view prefix.new.items)) }
{
    'back: while let Some(mut entry) = prefix.pop() {
        if advance(&mut entry) {
            prefix.push(entry)?;
            return Ok(true);
        }
    }
    Ok(false)
}

// Walks up to the first good interpretation, for a unit each time that it looks.
fn walk(
    alloc: Global,
    judge: &PrefixJudge<'_>,
    budget: &mut Budget,
) -> Result<Sought<Linear>, NoMemory> {
    let mut prefix = Vec::new(alloc);
    'visits: while budget.take() {
        match look_at(alloc, judge, &prefix)? {
            Seen::Alive => go_down(alloc, judge, &mut prefix)?,
            Seen::Dead => {
                if !go_on(&mut prefix)? {
                    return Ok(Sought::Nothing);
                }
            }
            Seen::Good => return Ok(Sought::Found(Linear { entries: prefix })),
        }
    }
    Ok(Sought::Spent)
}

/// Searches the interpretations with numbers up to 6 for one that is good.
pub(crate) fn search_wide_grid(
    alloc: Global,
    sys: &System,
    budget: &mut Budget,
) -> Result<Sought<Linear>, NoMemory> {
    match PrefixJudge::new(alloc, sys) {
        Ok(judge) => walk(alloc, &judge, budget),
        Err(UnravelError::TooLarge { .. }) => Ok(Sought::Nothing),
        Err(UnravelError::NoMemory) => Err(NoMemory),
    }
}
