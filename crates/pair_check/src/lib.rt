//! The overlaps of a system against the entries of a certificate that shows confluence.
#![tactic(auto)]

mod conflict;
mod derived;
mod entries;
mod evidence;
mod run;

pub use evidence::judge_evidence;
pub use refuter::Refusal;
pub use run::PairRun;
pub use validity::{CertKind, CheckError};
