//! Steps that simplify a conditional system: a rule whose conditions are never met is dropped, and a condition that only
//! names a term is inlined. What its terms reach stays the same.
//!
//! f(x) -> y | g(x) == y becomes f(x) -> g(x).
#![tactic(auto)]

mod changes;
mod copies;
mod inlining;
mod names;
mod numbering;
mod occurring;
mod steps;

pub use cert_model::{Simp, SimpReason};
pub use changes::{Change, changed};
pub use copies::copied;
pub use steps::{SimplifyError, StepError, drop_rule, inline_condition, simplify};
