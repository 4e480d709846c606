//! Certificates that systems with a measure are confluent.
#![tactic(auto)]

mod quasi;
mod run;
mod sides;

pub use quasi::{check_quasi, valid_measured_systems_are_confluent};
pub use run::QuasiRun;
pub use sides::are_right_sides_irreducible;
pub use validity::CheckError;
