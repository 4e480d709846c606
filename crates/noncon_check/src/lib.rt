//! Certificates of non-confluence: peaks.
#![tactic(auto)]

mod conditions;
mod ends;
mod peaks;
mod redexes;

pub use peaks::check_peak;
pub use validity::CheckError;
