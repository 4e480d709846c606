//! The check of a certificate's text, entry by entry.
ghost use Rattle.std.specs.Prelude.{◌≡◌, ℕ, List, Option, Some, map};
ghost use Rattle.rewriting.specs.Confluence.{IsConfluent};
ghost use Rattle.join_systems.specs.FileRelation.{IsFromFile, IsFileConfluent};
ghost use Rattle.certificates.specs.Certificates as math;
ghost use Rattle.certificates.specs.Certificates.{Simplification};
ghost use Rattle.cops_names.specs.NameTable.{NameTable};
ghost use Rattle.cert_model.specs.CertificateView.{peak_view, simp_view};
ghost use Rattle.valid_certificates.specs.CarriedBack.{IsPeakApart};
ghost use Rattle.cert_grammar.specs.CertificateText.{IsCertificateText};
ghost use Rattle.cert_text.specs.Front.{opened_behind};
ghost use Rattle.cert_text.specs.OpenedText.{opened_view, IsOpenedAs};
ghost use Rattle.cert_check.specs.Kinds.{CanPeakBeJudged};
ghost use Rattle.cert_check.specs.Answers.{OnYes, OnNo};
ghost use Rattle.cert_check.specs.Bytes as answers;
ghost use Rattle.cert_check.specs.Bytes.{BytesAnswers, behind, IsBare, IsOpenedFor, BodyAnswers, PeakAnswers, WholeAnswers, IsNoRefusal};

use crate::behind::system_behind;
use crate::entries::{judge_ortho, judge_quasi, pass_entries};
use crate::{Verdict, check_apart};
use cert_model::{Peak, Rejected, Simp};
use cert_text::{CertError, Opened, one_answer, open_cert};
use cops_names::Names;
use join_systems::join_systems_keep_their_rules;
use std::alloc::Global;
use term_core::{NoMemory, System};
use validity::CheckError;

/// Why bytes are no valid certificate.
#[derive(Debug, Drop)]
pub enum BytesError {
    /// They are the text of none: the first refusal.
    Cert(CertError),
    /// They are the text of one that is not valid; the first reason, in the order of judging. It speaks of the system's
    /// own rules: no steps stand before the body, or one of them fails.
    Rejected(Rejected),
    /// The same of the body, for the rules that its steps leave, which are good.
    RejectedBehindSteps(Rejected),
    /// Memory was refused.
    NoMemory,
}

impl From<CertError> for BytesError {
    ghost use Rattle.std.specs.Prelude.{◌≡◌};
    ghost use Rattle.cert_check.specs.BytesErrors.{error_of_text};

    ghost from_gives = { λ error e. e ≡ error_of_text error };

    fn from(error: CertError) -> BytesError {
        match error {
            CertError::NoMemory => BytesError::NoMemory,
            _ => BytesError::Cert(error),
        }
    }
}

impl From<Rejected> for BytesError {
    ghost use Rattle.std.specs.Prelude.{◌≡◌};
    ghost use Rattle.cert_check.specs.declared.bytes.BytesError.TheVariants.{Rejected as rejected};

    ghost from_gives = { λ reason e. e ≡ rejected reason };

    fn from(reason: Rejected) -> BytesError {
        BytesError::Rejected(reason)
    }
}

impl From<NoMemory> for BytesError {
    ghost use Rattle.std.specs.Prelude.{◌≡◌};
    ghost use Rattle.cert_check.specs.declared.bytes.BytesError.TheVariants.{NoMemory as no_memory};

    ghost from_gives = { λ _ e. e ≡ no_memory };

    fn from(_: NoMemory) -> BytesError {
        BytesError::NoMemory
    }
}

impl From<CheckError> for BytesError {
    ghost use Rattle.std.specs.Prelude.{◌≡◌};
    ghost use Rattle.cert_check.specs.BytesErrors.{error_of_check};

    ghost from_gives = { λ error e. e ≡ error_of_check error };

    fn from(error: CheckError) -> BytesError {
        match error {
            CheckError::Rejected(reason) => BytesError::Rejected(reason),
            CheckError::NoMemory => BytesError::NoMemory,
        }
    }
}

// A peak, with what its check asks.
fn judge_peak(alloc: Global, sys: &System, peak: &Peak) -> Result<Verdict, BytesError>
    requires { CanPeakBeJudged sys.now (peak_view peak.now) }
    ensures answers { PeakAnswers sys.now (peak_view peak.now) result }
    ensures yes { OnYes result ⊥ }
    ensures apart { OnNo result (IsPeakApart sys.now (math.peak_certificate (peak_view peak.now))) }
{
    check_apart(alloc, sys, peak)?;
    Ok(Verdict::No)
}

// Judges the body of a text, for the rules that it speaks of.
#[tactic(auto, using(cert_text::proofs::OpenedViews::ortho_opened, cert_text::proofs::OpenedViews::quasi_opened, cert_text::proofs::OpenedViews::peak_opened, cert_text::proofs::OpenedViews::simplified_opened))]
fn judge_opened(alloc: Global, sys: &System, opened: Opened<'_>) -> Result<Verdict, BytesError>
    requires bare { IsBare (opened_view opened) }
    requires opened { (names : NameTable) × (bytes : List ℕ) × (before : Option (List Simplification)) × IsOpenedFor sys.now names bytes before (opened_view opened) }
    ensures answers { (names : NameTable) (bytes : List ℕ) (before : Option (List Simplification)) → IsOpenedFor sys.now names bytes before (opened_view opened.entry) → BodyAnswers sys.now names bytes before result }
    ensures yes { OnYes result (IsConfluent sys.now) }
    ensures no { OnNo result ((names : NameTable) (bytes : List ℕ) (before : Option (List Simplification)) → IsOpenedFor sys.now names bytes before (opened_view opened.entry) → (c : math.Certificate) × IsCertificateText names bytes (behind before c) × IsPeakApart sys.now c) }
{
    match opened {
        Opened::Ortho(mut pairs) => judge_ortho(alloc, sys, &mut pairs),
        Opened::Quasi(measure, mut pairs) => judge_quasi(alloc, sys, &measure, &mut pairs),
        Opened::Peak(peak) => judge_peak(alloc, sys, &peak),
        Opened::Simplified(_, _) => unreachable!(),
    }
}

// Reads the rest of a text, and judges nothing.
#[tactic(auto, using(cert_text::proofs::OpenedViews::ortho_opened, cert_text::proofs::OpenedViews::quasi_opened, cert_text::proofs::OpenedViews::peak_opened, cert_text::proofs::OpenedViews::simplified_opened))]
fn read_on(alloc: Global, opened: Opened<'_>) -> Result<(), CertError>
    requires bare { IsBare (opened_view opened) }
    requires opened { (names : NameTable) × (bytes : List ℕ) × (before : Option (List Simplification)) × IsOpenedAs names bytes (opened_behind before (opened_view opened)) }
    ensures { (names : NameTable) (bytes : List ℕ) (before : Option (List Simplification)) → IsOpenedAs names bytes (opened_behind before (opened_view opened.entry)) → WholeAnswers names bytes before result }
{
    match opened {
        Opened::Ortho(mut pairs) => pass_entries(alloc, &mut pairs),
        Opened::Quasi(_, mut pairs) => pass_entries(alloc, &mut pairs),
        Opened::Peak(_) => Ok(()),
        Opened::Simplified(_, _) => unreachable!(),
    }
}

// Tells a reason for the body, for the rules that the steps before it leave.
fn of_body(judged: Result<Verdict, BytesError>) -> Result<Verdict, BytesError>
    ensures { result ≡ answers.of_body judged }
{
    match judged {
        Err(BytesError::Rejected(reason)) => Err(BytesError::RejectedBehindSteps(reason)),
        judged => judged,
    }
}

// Judges a body for the rules that the steps before it leave. The text is read to its end, also where a step fails.
fn judge_simplified(
    alloc: Global,
    sys: &System,
    steps: &[Simp],
    body: Opened<'_>,
) -> Result<Verdict, BytesError>
    requires { (names : NameTable) × (bytes : List ℕ) × IsOpenedFor sys.now names bytes (Some (map simp_view steps.now)) (opened_view body) }
    ensures answers { (names : NameTable) (bytes : List ℕ) → IsOpenedFor sys.now names bytes (Some (map simp_view steps.now)) (opened_view body.entry) → BytesAnswers sys.now names bytes result }
    ensures yes { OnYes result (IsConfluent sys.now) }
    ensures no { OnNo result ((names : NameTable) (bytes : List ℕ) → IsOpenedFor sys.now names bytes (Some (map simp_view steps.now)) (opened_view body.entry) → (c : math.Certificate) × IsCertificateText names bytes c × IsPeakApart sys.now c) }
{
    sys.rules_are_sound();
    match system_behind(alloc, sys, steps) {
        Ok(last) => of_body(judge_opened(alloc, &last, body)),
        Err(CheckError::Rejected(reason)) => {
            read_on(alloc, body)?;
            Err(BytesError::Rejected(reason))
        }
        Err(CheckError::NoMemory) => Err(BytesError::NoMemory),
    }
}

// What a valid certificate shows of the system itself.
#[tactic(auto, using(cert_text::proofs::OpenedViews::ortho_opened, cert_text::proofs::OpenedViews::quasi_opened, cert_text::proofs::OpenedViews::peak_opened, cert_text::proofs::OpenedViews::simplified_opened))]
fn judge_bytes(
    alloc: Global,
    sys: &System,
    names: &Names,
    bytes: &[u8],
) -> Result<Verdict, BytesError>
    requires names { sys.now.arities ≡ map (λ s. s.1) names.now.symbols }
    ensures answers { BytesAnswers sys.now names.now bytes.now result }
    ensures yes { OnYes result (IsConfluent sys.now) }
    ensures no { OnNo result ((c : math.Certificate) × IsCertificateText names.now bytes.now c × IsPeakApart sys.now c) }
{
    match open_cert(alloc, names, bytes)? {
        Opened::Simplified(steps, body) => {
            judge_simplified(alloc, sys, &steps, Box::into_inner(body))
        }
        opened => judge_opened(alloc, sys, opened),
    }
}

/// Reads a certificate entry by entry and judges each as it comes, so that memory never holds them all: what a valid one
/// shows; else why the bytes are no certificate, and at which place; else the first reason why it is not valid. Steps are
/// judged before the body that stands behind them.
pub fn check_bytes(
    alloc: Global,
    sys: &System,
    names: &Names,
    bytes: &[u8],
) -> Result<Verdict, BytesError>
    requires names { sys.now.arities ≡ map (λ s. s.1) names.now.symbols }
    ensures answers { BytesAnswers sys.now names.now bytes.now result }
    ensures exact_refusal { (c : math.Certificate) → IsCertificateText names.now bytes.now c → IsNoRefusal result }
    ensures yes { OnYes result (IsConfluent sys.now) }
    ensures file { OnYes result (IsFromFile sys.now → IsFileConfluent sys.now) }
    ensures no { OnNo result ((c : math.Certificate) × IsCertificateText names.now bytes.now c × IsPeakApart sys.now c) }
{
    join_systems_keep_their_rules();
    one_answer();
    judge_bytes(alloc, sys, names, bytes)
}
