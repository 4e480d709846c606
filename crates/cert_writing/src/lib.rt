//! The text of a certificate, put part by part into what takes bytes.
#![tactic(auto)]

// One part after the other: the first before all others.
macro_rules! parts {
    ($last:expr) => { $last };
    ($first:expr, $($others:expr),+) => { ($first, parts!($($others),+)) };
}

// Puts one part after the other.
macro_rules! put {
    ($to:ident, $names:expr, $uses:expr; $($part:expr),+) => { parts!($($part),+).put($to, $names, $uses) };
}

mod appended;
mod automata;
mod numbers;
mod output;
mod parts;
mod writer;
mod written_evidence;
mod written_terms;

pub use appended::{write_cert_term, write_deriv, write_inf};
pub use numbers::{AutomatonTexts, unfolded_len};
pub use output::{Output, Writer};
pub use writer::{put_certificate, text_len};
