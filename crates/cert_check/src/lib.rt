//! The check of a certificate, by its kind.
#![tactic(auto)]

mod behind;
mod bytes;
mod entries;
mod measures;

ghost use Rattle.std.specs.Prelude.{OnOk, map};
ghost use Rattle.rewriting.specs.Confluence.{IsConfluent};
ghost use Rattle.join_systems.specs.FileRelation.{IsFromFile, IsFileConfluent};
ghost use Rattle.certificates.specs.Certificates.{peak_certificate};
ghost use Rattle.cert_model.specs.CertificateView.{pair_entry_view, measure_view, peak_view, certificate_view};
ghost use Rattle.valid_certificates.specs.Entries.{ArePairsShort};
ghost use Rattle.valid_certificates.specs.Certificates.{IsMeasureJudged};
ghost use Rattle.validity.specs.Answers.{PeakAnswers, QuasiAnswers};
ghost use Rattle.valid_certificates.specs.CarriedBack.{IsPeakApart};
ghost use Rattle.cert_grammar.specs.Prelude.{IsUnsimplified};
ghost use Rattle.cert_check.specs.Kinds.{CanPeakBeJudged, CanBeJudged};
ghost use Rattle.cert_check.specs.Answers.{VerdictAnswers, OnYes, OnNo};

use crate::behind::judge_behind;
use crate::measures::NamedMeasure;
pub use bytes::{BytesError, check_bytes};
use cert_model::{Certificate, MeasureCert, PairEntry, Peak};
use join_systems::join_systems_keep_their_rules;
use noncon_check::check_peak;
use ortho_check::check_ortho;
use quasi_check::check_quasi;
use std::alloc::Global;
use term_core::System;
pub use validity::CheckError;

/// What a valid certificate shows.
#[derive(Clone, Copy, Debug, PartialEq, Eq)]
pub enum Verdict {
    /// The system is confluent.
    Yes,
    /// The system is not confluent.
    No,
}

// A certificate with a measure.
fn check_measured(
    alloc: Global,
    sys: &System,
    measure: &MeasureCert,
    pairs: &[PairEntry],
) -> Result<(), CheckError>
    requires { ArePairsShort (map pair_entry_view pairs.now) }
    ensures judged { QuasiAnswers (IsMeasureJudged sys.now (measure_view measure.now)) sys.now (map pair_entry_view pairs.now) result }
    ensures confluent { OnOk result (IsConfluent sys.now) }
{
    check_quasi(alloc, sys, &NamedMeasure { measure }, pairs)
}

// A peak, and what it shows.
fn check_apart(alloc: Global, sys: &System, peak: &Peak) -> Result<(), CheckError>
    requires { CanPeakBeJudged sys.now (peak_view peak.now) }
    ensures judged { PeakAnswers sys.now (peak_view peak.now) result }
    ensures apart { OnOk result (IsPeakApart sys.now (peak_certificate (peak_view peak.now))) }
{
    check_peak(alloc, sys, peak)
}

// What a valid certificate shows of the system itself, where no steps stand before its body.
#[tactic(auto, using(cert_model::proofs::CertificateViews::ortho_shown, cert_model::proofs::CertificateViews::quasi_shown, cert_model::proofs::CertificateViews::peak_shown, cert_model::proofs::CertificateViews::simplified_shown))]
fn judge_body(alloc: Global, sys: &System, cert: &Certificate) -> Result<Verdict, CheckError>
    requires plain { IsUnsimplified (certificate_view cert.now) }
    requires judged { CanBeJudged sys.now (certificate_view cert.now) }
    ensures judged { VerdictAnswers sys.now (certificate_view cert.now) result }
    ensures yes { OnYes result (IsConfluent sys.now) }
    ensures no { OnNo result (IsPeakApart sys.now (certificate_view cert.now)) }
{
    match cert {
        Certificate::Ortho(pairs) => {
            check_ortho(alloc, sys, pairs)?;
            Ok(Verdict::Yes)
        }
        Certificate::Quasi(measure, pairs) => {
            check_measured(alloc, sys, measure, pairs)?;
            Ok(Verdict::Yes)
        }
        Certificate::Peak(peak) => {
            check_apart(alloc, sys, peak)?;
            Ok(Verdict::No)
        }
        Certificate::Simplified { .. } => unreachable!(),
    }
}

// What a valid certificate shows of the system itself.
#[tactic(auto, using(cert_model::proofs::CertificateViews::ortho_shown, cert_model::proofs::CertificateViews::quasi_shown, cert_model::proofs::CertificateViews::peak_shown))]
fn judge(alloc: Global, sys: &System, cert: &Certificate) -> Result<Verdict, CheckError>
    requires { CanBeJudged sys.now (certificate_view cert.now) }
    ensures judged { VerdictAnswers sys.now (certificate_view cert.now) result }
    ensures yes { OnYes result (IsConfluent sys.now) }
    ensures no { OnNo result (IsPeakApart sys.now (certificate_view cert.now)) }
{
    match cert {
        Certificate::Simplified { .. } => judge_behind(alloc, sys, cert),
        _ => judge_body(alloc, sys, cert),
    }
}

/// Judges a certificate: one that is valid shows that the system is confluent, or,
/// where it is a peak, that it is not; and the same of the relation of its file. Steps
/// are judged before the body that stands behind them.
pub fn check(alloc: Global, sys: &System, cert: &Certificate) -> Result<Verdict, CheckError>
    requires { CanBeJudged sys.now (certificate_view cert.now) }
    ensures judged { VerdictAnswers sys.now (certificate_view cert.now) result }
    ensures yes { OnYes result (IsConfluent sys.now) }
    ensures file { OnYes result (IsFromFile sys.now → IsFileConfluent sys.now) }
    ensures no { OnNo result (IsPeakApart sys.now (certificate_view cert.now)) }
{
    join_systems_keep_their_rules();
    judge(alloc, sys, cert)
}
