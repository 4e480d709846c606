//! Reads the text of a certificate, and writes it.
//!
//! For the system with the rules `a -> b` and `a -> c` this text is a certificate that it is not confluent: the
//! first rule leads from `a` to `b`, the second to `c`, and no left side matches in either.
//!
//! ```text
//! concon 1
//! peak
//! start a
//! steps 1
//! rule 1 e 0
//! steps 1
//! rule 2 e 0
//! normal
//! end
//! ```
//!
//! `read_cert` reads it whole; `open_cert` reads it up to its entries, of which a peak has none, and `Pairs` one entry
//! after the other.
//!
//! The definitions stand in `cert_grammar`: the one text of a certificate (`CertificateText`), and why and where
//! another text is refused (`Refusals`). The exported calls here are over the reader (`cert_words`, `cert_reading`)
//! and the writer (`cert_writing`).
#![tactic(auto)]

mod laws;
mod opening;
mod pairs;
mod reader;
mod writer;

pub use cert_words::{CertCount, CertError};
pub use cert_writing::text_len;
pub use laws::{grammar_is_deterministic, one_answer};
pub use opening::{Opened, open_cert};
pub use pairs::Pairs;
pub use reader::{one_certificate, read_cert};
pub use writer::{write_cert, written_is_read};
