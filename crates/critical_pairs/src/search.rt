//! The overlaps of a system, one after the other.
ghost use Rattle.std.specs.Prelude.{◌≡◌, ◌+◌, ◌<◌, ◌≤◌, ◌^◌, OnErr};
ghost use Rattle.rewriting.specs.Systems.{IsSystem};
ghost use Rattle.critical_pairs.specs.Offers.{search_of, OfferAnswers, PassAnswers, DoesStay, DoesPass};
ghost use Rattle.critical_pairs.specs.Cursors.{rest_of, IsCursor};
ghost use Rattle.critical_pairs.specs.Finding.{FindAnswers, CountAnswers, StepAnswers};

use crate::cursor::Cursor;
use crate::spots::{Made, unifier_at};
use crate::{Overlap, OverlapError};
use prepared_system::PreparedSystem;
use std::alloc::Global;
use std::marker::Model;
use term_core::Subst;
use unifier_run::MOST_OVERLAPS;

/// A search for the overlaps of a system. It offers or passes them one after the other, in order by the outer rule, the
/// position and the inner rule, and keeps none: memory is taken for the positions of one left side.
#[derive(Debug, Drop)]
pub struct OverlapSearch<'a> {
    sys: &'a PreparedSystem<'a>,
    cursor: Cursor,
    offered: usize,
}

impl<'a> Model for OverlapSearch<'a> {
    ghost use Rattle.rewriting.specs.Systems.{IsSystem};
    ghost use Rattle.critical_pairs.specs.Offers.{Search};
    ghost use Rattle.critical_pairs.specs.SearchView.{search_view, coded_search, IsHeld};

    ghost Value = { Search };

    ghost coded = { coded_search };

    ghost view = { search_view };

    ghost invariant = { IsHeld };
}

/// The inner rule of a triple, and the unifier of the run there.
#[derive(Drop)]
struct Found {
    inner: u32,
    unifier: Subst,
}

// The next triple at which the run does not clash; the cursor stands at that triple.
fn find(
    alloc: Global,
    sys: &PreparedSystem<'_>,
    cursor: &mut Cursor,
) -> Result<Option<Found>, OverlapError>
    requires sound { IsSystem sys.now }
    requires cursor { IsCursor sys.now cursor.old }
    ensures cursor { IsCursor sys.now cursor.new }
    ensures passes { DoesPass sys.now (rest_of sys.now cursor.old) (rest_of sys.now cursor.new) }
    ensures answer { FindAnswers sys.now cursor.new result }
{
    while let Some(inner) = cursor.settle(alloc, sys)? {
        if let Some(unifier) = unifier_at(alloc, sys, &cursor.triple(inner))? {
            return Ok(Some(Found { inner, unifier }));
        }
        cursor.candidate += 1;
    }
    Ok(None)
}

// Counts the overlap where the cursor stands, and goes behind it.
fn count(here: &mut Cursor, offered: &mut usize) -> Result<(), OverlapError>
    requires candidates { here.old.candidate + 1 < 2 ^ 32 }
    requires few { offered.old ≤ MOST_OVERLAPS }
    ensures { CountAnswers here.old offered.old here.new offered.new result }
{
    if *offered == MOST_OVERLAPS {
        return Err(OverlapError::TooManyPairs);
    }
    here.candidate += 1;
    *offered += 1;
    Ok(())
}

impl<'a> OverlapSearch<'a> {
    /// The search in a system, before its first overlap.
    pub fn new(alloc: Global, sys: &'a PreparedSystem<'a>) -> OverlapSearch<'a>
        ensures { result ≡ search_of sys.now }
    {
        sys.rules_are_sound();
        OverlapSearch {
            sys,
            cursor: Cursor::new(alloc),
            offered: 0,
        }
    }

    // Goes past the next overlap, and hands out what is made of it.
    fn step<M: Made>(&mut self, alloc: Global) -> Result<Option<M>, OverlapError>
        ensures answer { StepAnswers M.is_of self.old self.new result }
        ensures system { self.new.system ≡ self.old.system }
        ensures refused { OnErr result (DoesStay self.old self.new) }
    {
        let Some(found) = find(alloc, self.sys, &mut self.cursor)? else {
            return Ok(None);
        };
        let triple = self.cursor.triple(found.inner);
        let made = M::make_by(alloc, self.sys, &found.unifier, &triple)?;
        count(&mut self.cursor, &mut self.offered)?;
        Ok(Some(made))
    }

    /// The next overlap, or none where there is no further one.
    ///
    /// # Errors
    ///
    /// `PairTooLarge` where the next triple at which the run does not clash is too large; `TooManyPairs` where a further
    /// overlap follows 20,000. After an error the search stands where it stood, so that the next call begins there.
    pub fn next(&mut self, alloc: Global) -> Result<Option<Overlap>, OverlapError>
        ensures answer { OfferAnswers self.old self.new result }
        ensures system { self.new.system ≡ self.old.system }
        ensures refused { OnErr result (DoesStay self.old self.new) }
    {
        self.step(alloc)
    }

    /// Goes past the next overlap without making it: true where there was one, false where there is no further one. Whether
    /// its terms fit is measured.
    ///
    /// # Errors
    ///
    /// Those of `next`.
    pub fn pass(&mut self, alloc: Global) -> Result<bool, OverlapError>
        ensures answer { PassAnswers self.old self.new result }
        ensures system { self.new.system ≡ self.old.system }
        ensures refused { OnErr result (DoesStay self.old self.new) }
    {
        Ok(self.step::<()>(alloc)?.is_some())
    }
}
