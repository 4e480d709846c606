//! The answer that a certificate is, and the text of both.
ghost use Rattle.std.specs.Prelude.{◌≡◌, IfOk};
ghost use Rattle.cert_check.specs.Kinds as kinds;
ghost use Rattle.cert_grammar.specs.CertificateText.{answer_line};
ghost use Rattle.cert_model.specs.CertificateView.{certificate_view};
ghost use Rattle.run_parts.specs.Answers.{verdict_text, proof_text};

use cert_check::Verdict;
use cert_model::Certificate;
use cert_text::write_cert;
use cops_names::Names;
use std::alloc::Global;
use term_core::NoMemory;

/// What a certificate shows, by its kind.
#[cycle(verdict_of)]
#[tactic(auto, using(cert_model::proofs::CertificateViews::ortho_shown, cert_model::proofs::CertificateViews::quasi_shown, cert_model::proofs::CertificateViews::peak_shown, cert_model::proofs::CertificateViews::simplified_shown))]
pub fn verdict_of(cert: &Certificate) -> Verdict
    ensures { result ≡ kinds.verdict_of (certificate_view cert.now) }
{
    match cert {
        Certificate::Ortho(_) | Certificate::Quasi(_, _) => Verdict::Yes,
        Certificate::Peak(_) => Verdict::No,
        Certificate::Simplified { body, .. } => verdict_of(body),
    }
}

/// The line that is the answer.
pub fn verdict_line(verdict: Verdict) -> &'static [u8]
    ensures { result.now ≡ verdict_text verdict }
{
    match verdict {
        Verdict::Yes => b"YES\n",
        Verdict::No => b"NO\n",
    }
}

// The line that a certificate is.
fn answer_of(cert: &Certificate) -> &'static [u8]
    ensures { result.now ≡ answer_line (certificate_view cert.now) }
{
    let verdict = verdict_of(cert);
    verdict_line(verdict)
}

/// The answer, and below it the certificate.
pub fn proof_text(alloc: Global, names: &Names, cert: &Certificate) -> Result<Vec<u8>, NoMemory>
    ensures { IfOk result (λ text. text.items ≡ proof_text names.now (certificate_view cert.now)) }
{
    let mut text = Vec::from_slice(alloc, answer_of(cert))?;
    write_cert(alloc, names, cert, &mut text)?;
    Ok(text)
}
