//! Whether a certificate has a text within the limits: its symbols have names, its counts and numbers are in range, and the
//! text is not too long.
#![tactic(auto)]

ghost use Rattle.std.specs.Prelude.{◌≤◌, ◌↔◌, IsTrue, IfOk, length};
ghost use Rattle.cert_model.specs.CertificateView.{certificate_view};
ghost use Rattle.cert_grammar.specs.Prelude.{second_version, certificate_text, CanBeSpelt};

mod evidence_limits;
mod step_limits;
mod term_limits;
mod whole_limits;

use crate::whole_limits::{is_of_second, is_within};
use cert_grammar::{MOST_BYTES, MOST_SHARED, MOST_UNFOLDED};
use cert_model::Certificate;
use cert_writing::{AutomatonTexts, text_len, unfolded_len};
use cops_names::Names;
use std::alloc::Global;
use term_core::NoMemory;

/// Whether the certificate can be spelt with the names, in a text of the second version of at most 67,108,864 bytes. What its
/// automata unfold to is asked before any text is made.
pub fn has_text(alloc: Global, names: &Names, cert: &Certificate) -> Result<bool, NoMemory>
    ensures { IfOk result (λ found. IsTrue found ↔ (CanBeSpelt second_version names.now (certificate_view cert.now) × (length (certificate_text second_version names.now (certificate_view cert.now)) ≤ MOST_BYTES))) }
{
    if !is_of_second(cert) || !is_within(names, cert) {
        return Ok(false);
    }
    if unfolded_len(alloc, names, cert)? > MOST_UNFOLDED {
        return Ok(false);
    }
    let texts = AutomatonTexts::of(alloc, names, cert)?;
    if texts.len() > MOST_SHARED as usize {
        return Ok(false);
    }
    Ok(text_len(alloc, names, cert)? <= MOST_BYTES)
}
