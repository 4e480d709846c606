//! The entries of a certificate, taken one after the other beside the overlaps of the system.
ghost use Rattle.std.specs.Prelude.{◌≡◌, IfOk, List, OnErr, OnOk, Some};
ghost use Rattle.unifier_run.specs.Overlaps as math;
ghost use Rattle.certificates.specs.Certificates as entries;
ghost use Rattle.cert_model.specs.CertificateView.{pair_entry_view};
ghost use Rattle.infeasible.specs.Known.{IsKnown};
ghost use Rattle.valid_certificates.specs.Entries.{IsPairShort};
ghost use Rattle.validity.specs.KindView.{kind_view};
ghost use Rattle.tallies.specs.Tally.{passed};
ghost use Rattle.pair_check.specs.Runs.{StartAnswers, HasTaken, DoesTake, FinishAnswers};
ghost use Rattle.pair_check.specs.Steps.{WalkAnswers, RefusedAnswers, HasList, NextAnswers};
ghost use Rattle.pair_check.specs.Underway.{AreAll};

use crate::entries::{Placed, judge_entry, missing};
use cert_model::{PairEntry, Rejected};
use critical_pairs::{Overlap, OverlapError, OverlapSearch};
use infeasible::JudgeByKind;
use prepared_system::PreparedSystem;
use std::alloc::Global;
use std::marker::Model;
use term_core::NoMemory;
use validity::{CertKind, CheckError};

/// A run over the entries of a certificate of a kind. It has one overlap at a time, and keeps no entry. In contracts it is the
/// kind, the system and what the entries taken so far come to.
#[derive(Debug, Drop)]
pub struct PairRun<'a> {
    kind: CertKind,
    sys: &'a PreparedSystem<'a>,
    search: OverlapSearch<'a>,
    /// The overlap that the next entry is for.
    next: Option<Overlap>,
    taken: u32,
    failed: Option<Rejected>,
}

impl<'a> Model for PairRun<'a> {
    ghost use Rattle.tallies.specs.Runs as runs;
    ghost use Rattle.tallies.specs.Codes.{coded_pair_run};

    ghost Value = { runs.PairRun };

    ghost coded = { coded_pair_run };

    ghost use Rattle.pair_check.specs.RunView.{run_view, IsHeld};

    ghost view = { run_view };

    ghost invariant = { IsHeld };
}

// Goes past all overlaps.
fn walk(alloc: Global, sys: &PreparedSystem<'_>) -> Result<(), OverlapError>
    ensures { WalkAnswers sys.now result }
{
    let mut search = OverlapSearch::new(alloc, sys);
    'overlaps: while search.pass(alloc)? {}
    Ok(())
}

// Why the overlaps have no list, as a rejection.
fn refused(e: OverlapError) -> CheckError
    ensures { RefusedAnswers e result }
{
    match e {
        OverlapError::PairTooLarge { inner, pos, outer } => {
            CheckError::Rejected(Rejected::PairTooLarge { inner, pos, outer })
        }
        OverlapError::TooManyPairs => CheckError::Rejected(Rejected::TooManyPairs),
        OverlapError::NoMemory => CheckError::NoMemory,
    }
}

// The next overlap of a system whose overlaps have a list, so that only memory can be refused.
fn next_overlap(alloc: Global, search: &mut OverlapSearch<'_>) -> Result<Option<Overlap>, NoMemory>
    requires list { HasList search.old }
    ensures answer { NextAnswers search.old search.new result }
    ensures system { search.new.system ≡ search.old.system }
{
    match search.next(alloc) {
        Ok(next) => Ok(next),
        Err(OverlapError::NoMemory) => Err(NoMemory),
        Err(OverlapError::PairTooLarge { .. }) => unreachable!(),
        Err(OverlapError::TooManyPairs) => unreachable!(),
    }
}

// Keeps why an entry fails.
fn fail(failed: &mut Option<Rejected>, reason: Rejected)
    ensures { failed.new ≡ Some reason }
{
    *failed = Some(reason);
}

impl<'a> PairRun<'a> {
    // The run before the first entry, where the overlaps have a list.
    fn begin(
        alloc: Global,
        sys: &'a PreparedSystem<'a>,
        kind: CertKind,
    ) -> Result<PairRun<'a>, NoMemory>
        requires list { (os : List math.Overlap) × AreAll sys.now os }
        ensures { IfOk result (λ run. run ≡ record { kind = kind_view kind; system = sys.now; tally = passed 0 }) }
    {
        let mut search = OverlapSearch::new(alloc, sys);
        let next = next_overlap(alloc, &mut search)?;
        Ok(PairRun {
            kind,
            sys,
            search,
            next,
            taken: 0,
            failed: None,
        })
    }

    /// The run before the first entry. The overlaps are counted first, in a pass that makes none.
    ///
    /// # Errors
    ///
    /// Why the overlaps have no list, for which entries of any kind are rejected.
    pub fn start(
        alloc: Global,
        sys: &'a PreparedSystem<'a>,
        kind: CertKind,
    ) -> Result<PairRun<'a>, CheckError>
        ensures { StartAnswers (kind_view kind) sys.now result }
    {
        match walk(alloc, sys) {
            Ok(()) => Ok(PairRun::begin(alloc, sys, kind)?),
            Err(e) => Err(refused(e)),
        }
    }

    /// Judges the next entry, unless one before it has failed. The judge judges the evidence that conditions are never met. Where memory
    /// is refused the run is as before.
    pub fn take(
        &mut self,
        alloc: Global,
        entry: &PairEntry,
        judge: &mut JudgeByKind,
    ) -> Result<(), NoMemory>
        requires short { IsPairShort (pair_entry_view entry.now).evidence }
        requires knows { IsKnown judge.old self.old.system }
        ensures knows { IsKnown judge.new self.old.system }
        ensures taken { OnOk result (DoesTake self.old (pair_entry_view entry.now) self.new) }
        ensures unchanged { OnErr result (self.new ≡ self.old) }
    {
        if self.failed.is_some() {
            return Ok(());
        }
        let placed = Placed {
            taken: self.taken,
            entry,
        };
        let judged = judge_entry(alloc, self.sys, self.kind, &mut self.next, &placed, judge)?;
        match judged {
            Some(reason) => fail(&mut self.failed, reason),
            None => {
                self.next = next_overlap(alloc, &mut self.search)?;
                self.taken += 1;
            }
        }
        Ok(())
    }

    /// Whether the entries settle all overlaps: the first of them that failed, else the first overlap that has none. Takes no memory.
    pub fn finish(self) -> Result<(), Rejected>
        ensures { (es : List entries.PairEntry) → HasTaken self.entry es → FinishAnswers self.entry.kind self.entry.system es result }
    {
        let PairRun { next, failed, .. } = self;
        if let Some(reason) = failed {
            return Err(reason);
        }
        match next {
            Some(overlap) => Err(missing(overlap)),
            None => Ok(()),
        }
    }
}
