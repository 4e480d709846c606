//! Peaks: two derivations from one start whose ends are shown to have no common reduct, so that the system is not confluent.
ghost use Rattle.std.specs.Prelude.{OnOk};
ghost use Rattle.rewriting.specs.Terms as math;
ghost use Rattle.rewriting.specs.Signatures.{IsOver};
ghost use Rattle.certificates.specs.Sizes.{IsShort};
ghost use Rattle.term_core.specs.View.{view};
ghost use Rattle.cert_model.specs.DerivationView.{derivation_view};
ghost use Rattle.cert_model.specs.CertificateView.{apart_view, peak_view};
ghost use Rattle.valid_certificates.specs.Laws.{ReachesApart};
ghost use Rattle.validity.specs.Answers.{PeakAnswers};
ghost use Rattle.noncon_check.specs.Ends.{bad_of, DerivesAnswers, SymbolAnswers, EndsAnswers};
ghost use Rattle.noncon_check.specs.Judges.{AreFew};

use crate::ends::check_apart;
use cert_model::{Derivation, NonJoin, Peak, Rejected};
use derivation::{ReplayError, replay};
use std::alloc::Global;
use term_core::{System, Term, has_symbols_below};
use valid_certificates::valid_peaks_reach_apart;
use validity::CheckError;

// Where a derivation leads to, or its first bad step, told as one of the first or of the second derivation.
fn end_of(
    alloc: Global,
    sys: &System,
    start: &Term,
    d: &Derivation,
    second: bool,
) -> Result<Term, CheckError>
    requires start { math.Fits (view start.now) }
    requires short { IsShort (derivation_view d.now) }
    ensures { DerivesAnswers (bad_of second) sys.now (view start.now) (derivation_view d.now) result }
{
    match replay(alloc, sys, &[], start, d) {
        Ok(end) => Ok(end),
        Err(ReplayError::Bad(bad)) if second => Err(CheckError::Rejected(Rejected::SecondBad(bad))),
        Err(ReplayError::Bad(bad)) => Err(CheckError::Rejected(Rejected::FirstBad(bad))),
        Err(ReplayError::NoMemory) => Err(CheckError::NoMemory),
    }
}

// That a term has only symbols of the file.
fn check_symbols(sys: &System, t: &Term, which: u32) -> Result<(), CheckError>
    ensures { SymbolAnswers sys.now which (view t.now) result }
{
    if has_symbols_below(sys.own() as usize, t) {
        Ok(())
    } else {
        Err(CheckError::Rejected(Rejected::Foreign { which }))
    }
}

// That both ends have only symbols of the file, and are shown to be apart.
fn check_ends(
    alloc: Global,
    sys: &System,
    first: &Term,
    second: &Term,
    apart: &NonJoin,
) -> Result<(), CheckError>
    requires first { math.Fits (view first.now) }
    requires second { math.Fits (view second.now) }
    requires few { AreFew (apart_view apart.now) }
    ensures { EndsAnswers sys.now (view first.now) (view second.now) (apart_view apart.now) result }
{
    check_symbols(sys, first, 1)?;
    check_symbols(sys, second, 2)?;
    check_apart(alloc, sys, first, second, apart)
}

// Whether the peak is valid, or the first reason why it is not.
fn judge_peak(alloc: Global, sys: &System, peak: &Peak) -> Result<(), CheckError>
    requires start { math.Fits (view peak.now.start) }
    requires first_short { IsShort (derivation_view peak.now.first) }
    requires second_short { IsShort (derivation_view peak.now.second) }
    requires few { AreFew (peak_view peak.now).apart }
    ensures { PeakAnswers sys.now (peak_view peak.now) result }
{
    check_symbols(sys, &peak.start, 0)?;
    let first = end_of(alloc, sys, &peak.start, &peak.first, false)?;
    let second = end_of(alloc, sys, &peak.start, &peak.second, true)?;
    check_ends(alloc, sys, &first, &second, &peak.apart)
}

/// Whether a peak shows that the system is not confluent: its derivations have no bad step, and its ends are shown to
/// have no common reduct, by evidence for each redex of theirs or by their rigid caps.
pub fn check_peak(alloc: Global, sys: &System, peak: &Peak) -> Result<(), CheckError>
    requires start { math.Fits (view peak.now.start) }
    requires over { IsOver sys.now.arities (view peak.now.start) }
    requires first_short { IsShort (derivation_view peak.now.first) }
    requires second_short { IsShort (derivation_view peak.now.second) }
    requires few { AreFew (peak_view peak.now).apart }
    ensures judged { PeakAnswers sys.now (peak_view peak.now) result }
    ensures sound { OnOk result (ReachesApart sys.now (peak_view peak.now)) }
{
    valid_peaks_reach_apart();
    sys.rules_are_sound();
    judge_peak(alloc, sys, peak)
}
