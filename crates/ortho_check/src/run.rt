//! The entries of a certificate of an almost orthogonal system, taken one after the other.
ghost use Rattle.std.specs.Prelude.{◌≡◌, List, [], ◌∷◌, ◌++◌, IfOk, OnOk, OnErr};
ghost use Rattle.rewriting.specs.Confluence.{IsConfluent};
ghost use Rattle.certificates.specs.Certificates as math;
ghost use Rattle.cert_model.specs.CertificateView.{pair_entry_view};
ghost use Rattle.level_theorem.specs.AlmostOrthogonal.{DoLevelsCommute};
ghost use Rattle.valid_certificates.specs.Entries.{IsPairShort};
ghost use Rattle.tallies.specs.Tally.{IsOrthoTally};
ghost use Rattle.ortho_check.specs.Runs.{StartAnswers, OrthoFinish};

use crate::classes::check_classes;
use cert_model::{PairEntry, Rejected};
use infeasible::JudgeByKind;
use level_theorem::levels_commute;
use pair_check::PairRun;
use prepared_system::PreparedSystem;
use std::alloc::Global;
use std::marker::Model;
use term_core::NoMemory;
use validity::{CertKind, CheckError};

/// A run over the entries of a certificate of an almost orthogonal system. In contracts it is the system and the tally of the
/// entries.
#[derive(Debug)]
pub struct OrthoRun<'a> {
    sys: &'a PreparedSystem<'a>,
    /// The run over the entries, or the reason for which any are rejected.
    pairs: Result<PairRun<'a>, Rejected>,
    judge: JudgeByKind,
}

// A call, so that a function that holds a run has not the drops of all that is in it at each of its ends.
impl<'a> Drop for OrthoRun<'a> {
    fn drop(self) {
        let OrthoRun {
            sys: _sys,
            pairs: _pairs,
            judge: _judge,
        } = self;
    }
}

impl<'a> Model for OrthoRun<'a> {
    ghost use Rattle.tallies.specs.Runs as runs;
    ghost use Rattle.tallies.specs.Codes.{coded_ortho_run};

    ghost Value = { runs.OrthoRun };

    ghost coded = { coded_ortho_run };

    ghost use Rattle.ortho_check.specs.RunView.{run_view, IsHeld};

    ghost view = { run_view };

    ghost invariant = { IsHeld };
}

// The run over the entries, where the system is in the classes and its overlaps have a list.
fn start_pairs<'a>(alloc: Global, sys: &'a PreparedSystem<'a>) -> Result<PairRun<'a>, CheckError>
    ensures { StartAnswers sys.now result }
{
    check_classes(sys.system())?;
    PairRun::start(alloc, sys, CertKind::Ortho)
}

impl<'a> OrthoRun<'a> {
    /// The run before the first entry. It keeps the reason for which any entries are rejected, where there is one: the system
    /// is not in the classes, or its overlaps have no list.
    pub fn start(alloc: Global, sys: &'a PreparedSystem<'a>) -> Result<OrthoRun<'a>, NoMemory>
        ensures system { IfOk result (λ run. run.system ≡ sys.now) }
        ensures tally { IfOk result (λ run. IsOrthoTally sys.now [] run.tally) }
    {
        let pairs = match start_pairs(alloc, sys) {
            Ok(pairs) => Ok(pairs),
            Err(CheckError::Rejected(reason)) => Err(reason),
            Err(CheckError::NoMemory) => return Err(NoMemory),
        };
        Ok(OrthoRun {
            sys,
            pairs,
            judge: JudgeByKind::new(),
        })
    }

    /// Judges the next entry. Where memory is refused the run is as before.
    pub fn take(&mut self, alloc: Global, entry: &PairEntry) -> Result<(), NoMemory>
        requires short { IsPairShort (pair_entry_view entry.now).evidence }
        ensures tally { (es : List math.PairEntry) → IsOrthoTally self.old.system es self.old.tally → OnOk result (IsOrthoTally self.old.system (es ++ pair_entry_view entry.now ∷ []) self.new.tally) }
        ensures system { self.new.system ≡ self.old.system }
        ensures unchanged { OnErr result (self.new ≡ self.old) }
    {
        match &mut self.pairs {
            Ok(pairs) => pairs.take(alloc, entry, &mut self.judge),
            Err(_) => Ok(()),
        }
    }

    /// Whether the certificate with the entries that were taken is valid, or the first reason why not. Takes no memory.
    pub fn finish(self) -> Result<(), Rejected>
        ensures judged { (es : List math.PairEntry) → IsOrthoTally self.entry.system es self.entry.tally → OrthoFinish self.entry.system es result }
        ensures levels { OnOk result (DoLevelsCommute self.entry.system) }
        ensures confluent { OnOk result (IsConfluent self.entry.system) }
    {
        levels_commute();
        let OrthoRun {
            sys,
            pairs,
            judge: _judge,
        } = self;
        sys.rules_are_sound();
        match pairs {
            Ok(pairs) => pairs.finish(),
            Err(reason) => Err(reason),
        }
    }
}
