//! The word of the checker, which alone decides what is found.
ghost use Rattle.std.specs.Prelude.{◌≡◌, IfOk, IfSome, map};
ghost use Rattle.cert_model.specs.CertificateView.{certificate_view};
ghost use Rattle.valid_certificates.specs.Certificates.{IsValid};
ghost use Rattle.search_spaces.specs.Texts.{HasText};

use cert_check::{CheckError, check};
use cert_limits::has_text;
use cert_model::Certificate;
use cops_names::Names;
use std::alloc::Global;
use term_core::{NoMemory, System};

/// The certificate, where it has a text and is valid.
pub(crate) fn accepted(
    alloc: Global,
    sys: &System,
    names: &Names,
    cert: Certificate,
) -> Result<Option<Certificate>, NoMemory>
    requires named { sys.now.arities ≡ map (λ s. s.1) names.now.symbols }
    ensures valid { IfOk result (λ o. IfSome o (λ c. IsValid sys.now (certificate_view c))) }
    ensures written { IfOk result (λ o. IfSome o (λ c. HasText names.now (certificate_view c))) }
{
    sys.rules_are_sound();
    if !has_text(alloc, names, &cert)? {
        return Ok(None);
    }
    match check(alloc, sys, &cert) {
        Ok(_) => Ok(Some(cert)),
        Err(CheckError::Rejected(_)) => Ok(None),
        Err(CheckError::NoMemory) => Err(NoMemory),
    }
}
