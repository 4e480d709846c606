//! The entries of a certificate with a measure, taken one after the other.
ghost use Rattle.std.specs.Prelude.{◌≡◌, List, [], ◌∷◌, ◌++◌, IfOk, OnOk, OnErr};
ghost use Rattle.rewriting.specs.Confluence.{IsConfluent};
ghost use Rattle.certificates.specs.Certificates as math;
ghost use Rattle.cert_model.specs.CertificateView.{pair_entry_view};
ghost use Rattle.valid_certificates.specs.Entries.{IsPairShort};
ghost use Rattle.tallies.specs.Tally.{IsQuasiTally};
ghost use Rattle.quasi_check.specs.Runs.{StartAnswers, QuasiFinish};

use crate::quasi::{check_measure, check_rules};
use cert_model::{PairEntry, Rejected};
use descent_theorem::bounded_descents_are_confluent;
use infeasible::JudgeByKind;
use measure::Measure;
use pair_check::PairRun;
use prepared_system::PreparedSystem;
use std::alloc::Global;
use std::marker::Model;
use term_core::NoMemory;
use validity::{CertKind, CheckError};

/// A run over the entries of a certificate with a measure. In contracts it is the system, the measure and the tally of the
/// entries.
#[derive(Debug)]
pub struct QuasiRun<'a, M: Measure> {
    sys: &'a PreparedSystem<'a>,
    measure: &'a M,
    /// The run over the entries, or the reason for which any are rejected.
    pairs: Result<PairRun<'a>, Rejected>,
    judge: JudgeByKind,
}

// A call, so that a function that holds a run has not the drops of all that is in it at each of its ends.
impl<'a, M: Measure> Drop for QuasiRun<'a, M> {
    fn drop(self) {
        let QuasiRun {
            sys: _sys,
            measure: _measure,
            pairs: _pairs,
            judge: _judge,
        } = self;
    }
}

impl<'a, M: Measure> Model for QuasiRun<'a, M> {
    ghost use Rattle.tallies.specs.Runs as runs;
    ghost use Rattle.tallies.specs.Codes.{coded_quasi_run};
    ghost use Rattle.infeasible.specs.Known.{IsKnown};
    ghost use Rattle.quasi_check.specs.Runs.{tally_of, AreHeld};

    ghost Value = { runs.QuasiRun M };

    ghost coded = { coded_quasi_run M.code };

    ghost view = { λ r. record { system = r.sys.now; measure = r.measure.now; tally = tally_of r.pairs } };

    ghost invariant = { λ r. AreHeld (M.judged r.measure.now r.sys.now) r.sys.now r.pairs × IsKnown r.judge r.sys.now };
}

// The run over the entries, where all that is judged before them holds.
fn start_pairs<'a, M: Measure>(
    alloc: Global,
    sys: &'a PreparedSystem<'a>,
    measure: &M,
) -> Result<PairRun<'a>, CheckError>
    ensures { StartAnswers (M.judged measure.now sys.now) sys.now result }
{
    check_rules(alloc, sys)?;
    check_measure(alloc, sys.system(), measure)?;
    PairRun::start(alloc, sys, CertKind::Quasi)
}

impl<'a, M: Measure> QuasiRun<'a, M> {
    /// The run before the first entry. It keeps the reason for which any entries are rejected, where there is one: the rules
    /// or the measure are not good, or the overlaps have no list.
    pub fn start(
        alloc: Global,
        sys: &'a PreparedSystem<'a>,
        measure: &'a M,
    ) -> Result<QuasiRun<'a, M>, NoMemory>
        ensures system { IfOk result (λ run. run.system ≡ sys.now) }
        ensures measure { IfOk result (λ run. run.measure ≡ measure.now) }
        ensures tally { IfOk result (λ run. IsQuasiTally (M.judged measure.now sys.now) sys.now [] run.tally) }
    {
        let pairs = match start_pairs(alloc, sys, measure) {
            Ok(pairs) => Ok(pairs),
            Err(CheckError::Rejected(reason)) => Err(reason),
            Err(CheckError::NoMemory) => return Err(NoMemory),
        };
        Ok(QuasiRun {
            sys,
            measure,
            pairs,
            judge: JudgeByKind::new(),
        })
    }

    /// Judges the next entry. Where memory is refused the run is as before.
    pub fn take(&mut self, alloc: Global, entry: &PairEntry) -> Result<(), NoMemory>
        requires short { IsPairShort (pair_entry_view entry.now).evidence }
        ensures tally { (es : List math.PairEntry) → IsQuasiTally (M.judged self.old.measure self.old.system) self.old.system es self.old.tally → OnOk result (IsQuasiTally (M.judged self.old.measure self.old.system) self.old.system (es ++ pair_entry_view entry.now ∷ []) self.new.tally) }
        ensures system { self.new.system ≡ self.old.system }
        ensures measure { self.new.measure ≡ self.old.measure }
        ensures unchanged { OnErr result (self.new ≡ self.old) }
    {
        match &mut self.pairs {
            Ok(pairs) => pairs.take(alloc, entry, &mut self.judge),
            Err(_) => Ok(()),
        }
    }

    /// Whether the certificate with the entries that were taken is valid, or the first reason why not. Takes no memory.
    pub fn finish(self) -> Result<(), Rejected>
        ensures judged { (es : List math.PairEntry) → IsQuasiTally (M.judged self.entry.measure self.entry.system) self.entry.system es self.entry.tally → QuasiFinish (M.judged self.entry.measure self.entry.system) self.entry.system es result }
        ensures confluent { OnOk result (IsConfluent self.entry.system) }
    {
        bounded_descents_are_confluent();
        let QuasiRun {
            sys,
            measure: _measure,
            pairs,
            judge: _judge,
        } = self;
        sys.rules_are_sound();
        match pairs {
            Ok(pairs) => pairs.finish(),
            Err(reason) => Err(reason),
        }
    }
}
