//! The overlaps of a system, with their conditional critical pairs.
//!
//! In `a -> c` and `f(a, x) -> x | x == b` the left side of the first rule unifies with the subterm at position 1 of that
//! of the second. So `overlaps` gives one overlap: the inner rule 1, the position `[1]` and the outer rule 2. Its source is
//! f(a, x), from which the inner rule makes its left term f(c, x), and the outer one its right term x, where x == b. The
//! variable x of the outer rule is 2 * 0 + 1 there, since those of the inner rule are even.
//! `OverlapSearch` offers the same overlaps one after the other, and keeps none of them; or it passes them, and makes none.
#![tactic(auto)]

ghost use Rattle.std.specs.Prelude.{◌≡◌, ◌<◌, ◌^◌, ◌≤◌, ◌++◌, ◌∷◌, [], OnOk, map, length};
ghost use Rattle.critical_pairs.specs.Answers.{OverlapsAnswers, PutAnswers};
ghost use Rattle.critical_pairs.specs.View.{overlap_view};
ghost use Rattle.critical_pairs.specs.Kept.{AreKnown};

mod cursor;
mod fitting;
mod kept;
mod pairs;
mod places;
mod search;
mod spots;

use cursor::Cursor;
use kept::{Kept, overlap_at};
use prepared_system::PreparedSystem;
use rule_index::IndexedSystem;
pub use search::OverlapSearch;
use std::alloc::{AllocError, AllocFailed, Global};
use term_core::{Cond, NoMemory, System, Term};
use unifier_run::MOST_OVERLAPS;

/// Two rules whose left sides overlap at a position of the outer one, and the terms and conditions
/// that this gives under the most general unifier of the run.
#[derive(Debug, Drop)]
pub struct Overlap {
    /// The number of the rule whose left side unifies with the subterm, from 1; its variable k is 2k.
    pub inner: u32,
    pub pos: Vec<u32>,
    /// The number of the rule that has the position, from 1; its variable k is 2k + 1.
    pub outer: u32,
    /// The instance of the outer left side.
    pub source: Term,
    /// The source with the instance of the inner right side at the position.
    pub left: Term,
    /// The instance of the outer right side.
    pub right: Term,
    /// How many of the first conditions are those of the inner rule.
    pub inner_conds: u32,
    /// The instances of the inner rule's conditions, then those of the outer rule.
    pub conds: Vec<Cond>,
}

/// Why the list of overlaps is not defined.
#[derive(Debug, Drop)]
pub enum OverlapError {
    /// A run passes the size, or a term of the critical pair does not fit.
    PairTooLarge {
        inner: u32,
        pos: Vec<u32>,
        outer: u32,
    },
    /// There are more than 20,000 overlaps.
    TooManyPairs,
    NoMemory,
}

impl From<NoMemory> for OverlapError {
    ghost use Rattle.critical_pairs.specs.declared.OverlapError.TheVariants.{NoMemory as no_memory};

    ghost from_gives = { λ _ e. e ≡ no_memory };

    fn from(_e: NoMemory) -> OverlapError {
        OverlapError::NoMemory
    }
}

impl From<AllocError> for OverlapError {
    ghost use Rattle.critical_pairs.specs.declared.OverlapError.TheVariants.{NoMemory as no_memory};

    ghost from_gives = { λ _ e. e ≡ no_memory };

    fn from(_e: AllocError) -> OverlapError {
        OverlapError::NoMemory
    }
}

impl<T: Drop> From<AllocFailed<T>> for OverlapError {
    ghost use Rattle.critical_pairs.specs.declared.OverlapError.TheVariants.{NoMemory as no_memory};

    ghost from_gives = { λ _ e. e ≡ no_memory };

    fn from(_e: AllocFailed<T>) -> OverlapError {
        OverlapError::NoMemory
    }
}

/// All overlaps in order by the outer rule, the position and the inner rule, or the first refusal in
/// that order (after Ohlebusch, Advanced Topics in Term Rewriting, chapter 7).
pub fn overlaps_in(alloc: Global, sys: &PreparedSystem<'_>) -> Result<Vec<Overlap>, OverlapError>
    ensures { OverlapsAnswers sys.now result }
{
    let mut search = OverlapSearch::new(alloc, sys);
    let mut found = Vec::new(alloc);
    while let Some(overlap) = search.next(alloc)? {
        found.push(overlap)?;
    }
    Ok(found)
}

/// The same list, where nothing is prepared.
pub fn overlaps(alloc: Global, sys: &System) -> Result<Vec<Overlap>, OverlapError>
    ensures { OverlapsAnswers sys.now result }
{
    let indexed = IndexedSystem::new(alloc, sys)?;
    let prepared = PreparedSystem::new(alloc, indexed)?;
    overlaps_in(alloc, &prepared)
}

// Appends the overlap, if there is one, unless there are 20,000.
fn put(found: &mut Vec<Overlap>, overlap: Option<Overlap>) -> Result<(), OverlapError>
    ensures { PutAnswers found.old.items overlap found.new.items result }
{
    let Some(overlap) = overlap else {
        return Ok(());
    };
    if found.len() == MOST_OVERLAPS {
        return Err(OverlapError::TooManyPairs);
    }
    found.push(overlap)?;
    Ok(())
}

/// The same of a system that has rules of an earlier one, whose overlaps are known: those of two such rules are moved, and get
/// the numbers that these have now, so that no run is made for them. For each rule `origins` has its number in the earlier system,
/// if it is a rule of that.
pub fn overlaps_with(
    alloc: Global,
    sys: &PreparedSystem<'_>,
    earlier: &System,
    origins: &[Option<u32>],
    known: Vec<Overlap>,
) -> Result<Vec<Overlap>, OverlapError>
    requires { AreKnown earlier.now sys.now origins.now (map overlap_view known.items) }
    ensures { OverlapsAnswers sys.now result }
{
    sys.rules_are_sound();
    let mut kept = Kept::new(alloc, earlier, origins, known)?;
    let mut cursor = Cursor::new(alloc);
    let mut all = Vec::new(alloc);
    'triples: while let Some(inner) = cursor.settle(alloc, sys)? {
        let overlap = overlap_at(alloc, sys, &mut kept, &cursor.triple(inner))?;
        put(&mut all, overlap)?;
        cursor.candidate += 1;
    }
    Ok(all)
}
