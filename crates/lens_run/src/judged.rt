//! A certificate in words, behind what its check shows.
ghost use Rattle.std.specs.Prelude.{◌≡◌, IfOk};
ghost use Rattle.cert_model.specs.CertificateView.{certificate_view};
ghost use Rattle.cert_check.specs.Kinds.{CanBeJudged};
ghost use Rattle.lens_run.specs.Judged.{verdict_line, rejected_line, BeginsWith, IsJudgedPage};

use cert_check::{CheckError, Verdict, check};
use cert_model::{Certificate, Rejected};
use cops_names::Names;
use std::alloc::Global;
use term_core::{NoMemory, System};
use told_certificates::{tell, tell_rejected};

fn line_of(verdict: Verdict) -> &'static [u8]
    ensures { result.now ≡ verdict_line verdict }
{
    match verdict {
        Verdict::Yes => b"This certificate is valid: YES.\n\n",
        Verdict::No => b"This certificate is valid: NO.\n\n",
    }
}

fn valid_page(
    alloc: Global,
    sys: &System,
    names: &Names,
    cert: &Certificate,
    verdict: Verdict,
) -> Result<Vec<u8>, NoMemory>
    ensures { IfOk result (λ v. BeginsWith (verdict_line verdict) v.items) }
{
    let mut page = Vec::from_slice(alloc, line_of(verdict))?;
    let told = tell(alloc, sys, names, cert)?;
    page.extend_from_slice(&told)?;
    Ok(page)
}

fn rejected_page(
    alloc: Global,
    sys: &System,
    names: &Names,
    cert: &Certificate,
    reason: &Rejected,
) -> Result<Vec<u8>, NoMemory>
    ensures { IfOk result (λ v. BeginsWith rejected_line v.items) }
{
    let mut page = Vec::from_slice(alloc, b"This certificate is not valid.\n\n")?;
    let told = tell_rejected(alloc, sys, names, cert, reason)?;
    page.extend_from_slice(&told)?;
    Ok(page)
}

/// The certificate in words behind the verdict of the checker; or, where it is rejected, where it breaks.
pub fn judged_page(
    alloc: Global,
    sys: &System,
    names: &Names,
    cert: &Certificate,
) -> Result<Vec<u8>, NoMemory>
    requires { CanBeJudged sys.now (certificate_view cert.now) }
    ensures { IfOk result (λ v. IsJudgedPage sys.now (certificate_view cert.now) v.items) }
{
    match check(alloc, sys, cert) {
        Ok(verdict) => {
            let page = valid_page(alloc, sys, names, cert, verdict)?;
            Ok(page)
        }
        Err(CheckError::Rejected(reason)) => {
            let page = rejected_page(alloc, sys, names, cert, &reason)?;
            Ok(page)
        }
        Err(CheckError::NoMemory) => Err(NoMemory),
    }
}
