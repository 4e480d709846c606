//! A text that is read entry by entry.

use cert_model::{Certificate, PairEntry};
use cert_text::{CertError, Opened, Pairs, open_cert};
use cops_read::Names;
use std::alloc::Global;

// All entries that are left: a text has at most 20,000.
fn entries_of(alloc: Global, mut pairs: Pairs<'_>) -> Result<Vec<PairEntry>, CertError> {
    let mut entries = Vec::new(alloc);
    for _ in 0..20_001 {
        match pairs.next(alloc)? {
            Some(entry) => entries.push(entry)?,
            None => return Ok(entries),
        }
    }
    Ok(entries)
}

// The certificate of an opened text without steps, its entries read one by one.
fn body_of(alloc: Global, opened: Opened<'_>) -> Result<Certificate, CertError> {
    match opened {
        Opened::Ortho(pairs) => Ok(Certificate::Ortho(entries_of(alloc, pairs)?)),
        Opened::Quasi(measure, pairs) => Ok(Certificate::Quasi(measure, entries_of(alloc, pairs)?)),
        Opened::Peak(peak) => Ok(Certificate::Peak(peak)),
        // A body is not simplified again: no line that is printed has this place.
        Opened::Simplified(_, _) => Err(CertError::CertSyntax { at: 0 }),
    }
}

/// The certificate that the bytes are the text of, its entries read one by one.
pub fn gathered(alloc: Global, names: &Names, bytes: &[u8]) -> Result<Certificate, CertError> {
    match open_cert(alloc, names, bytes)? {
        Opened::Simplified(steps, body) => {
            let body = body_of(alloc, Box::into_inner(body))?;
            let body = Box::new(alloc, body)?;
            Ok(Certificate::Simplified { steps, body })
        }
        opened => body_of(alloc, opened),
    }
}
