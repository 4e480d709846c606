//! Cases of runs, as files of cases spell them.
#![tactic(auto)]

mod case;

pub use case::{Case, case_of, text_of};
