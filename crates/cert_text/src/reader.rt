//! Reads the text of a certificate whole.

ghost use Rattle.std.specs.Prelude.{◌≡◌, ℕ, List, [], map, IfOk, IfErr};
ghost use Rattle.certificates.specs.Certificates as math;
ghost use Rattle.cops_names.specs.NameTable.{NameTable};
ghost use Rattle.cert_model.specs.CertificateView.{pair_entry_view, certificate_view};
ghost use Rattle.cert_grammar.specs.CertificateText.{IsCertificateText};
ghost use Rattle.cert_openings.specs.Openings.{Opening};
ghost use Rattle.cert_words.specs.CertRefusals.{IsRefusedAs};
ghost use Rattle.cert_text.specs.Reading.{HasRead, IsAll};
ghost use Rattle.cert_text.specs.OpenedText.{opened_view, IsAtFirst, IsReadWhole, IsToldOf};

use crate::opening::{Opened, open_cert};
use crate::pairs::Pairs;
use cert_model::{Certificate, PairEntry};
use cert_words::CertError;
use cops_names::Names;
use std::alloc::Global;

// All entries up to the end of the text.
fn all_entries(alloc: Global, mut pairs: Pairs<'_>) -> Result<Vec<PairEntry>, CertError>
    requires { (o : Opening) × HasRead pairs o [] }
    ensures all { IfOk result (λ es. (o : Opening) → HasRead pairs.entry o [] → IsAll pairs.entry o (map pair_entry_view es.items)) }
    ensures refused { IfErr result (λ e. IsRefusedAs pairs.entry.names pairs.entry.bytes e) }
{
    let mut entries = Vec::new(alloc);
    'entries: for _ in 0..20_001u32 {
        match pairs.next(alloc)? {
            Some(entry) => entries.push(entry)?,
            None => return Ok(entries),
        }
    }
    // No text has more than 20,000 entries.
    unreachable!();
}

// The certificate that is opened, with all its entries.
#[tactic(auto, using(crate::proofs::OpenedViews::ortho_opened, crate::proofs::OpenedViews::quasi_opened, crate::proofs::OpenedViews::peak_opened, crate::proofs::OpenedViews::simplified_opened))]
fn read_on(alloc: Global, opened: Opened<'_>) -> Result<Certificate, CertError>
    requires { IsAtFirst (opened_view opened) }
    ensures whole { IfOk result (λ c. IsReadWhole (opened_view opened.entry) (certificate_view c)) }
    ensures refused { IfErr result (λ e. IsToldOf (opened_view opened.entry) e) }
{
    match opened {
        Opened::Ortho(pairs) => Ok(Certificate::Ortho(all_entries(alloc, pairs)?)),
        Opened::Quasi(measure, pairs) => Ok(Certificate::Quasi(
            measure,
            all_entries(alloc, pairs)?,
        )),
        Opened::Peak(peak) => Ok(Certificate::Peak(peak)),
        Opened::Simplified(steps, body) => {
            let body = read_on(alloc, Box::into_inner(body))?;
            let body = Box::new(alloc, body)?;
            Ok(Certificate::Simplified { steps, body })
        }
    }
}

/// The certificate that the bytes are the text of, in either version, with its answer line or without one; else why
/// there is none, and at which place.
#[tactic(auto, using(crate::proofs::WholeTexts::at_first, crate::proofs::WholeTexts::read_whole, crate::proofs::WholeTexts::told_of))]
pub fn read_cert(alloc: Global, names: &Names, bytes: &[u8]) -> Result<Certificate, CertError>
    ensures found { IfOk result (λ c. IsCertificateText names.now bytes.now (certificate_view c)) }
    ensures refused { IfErr result (λ e. IsRefusedAs names.now bytes.now e) }
{
    let opened = open_cert(alloc, names, bytes)?;
    read_on(alloc, opened)
}

/// Bytes are the text of one certificate at most.
pub fn one_certificate()
    ensures { (names : NameTable) (bytes : List ℕ) (c d : math.Certificate) → IsCertificateText names bytes c → IsCertificateText names bytes d → c ≡ d }
{}
