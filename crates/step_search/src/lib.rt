//! The standard steps that simplify a system: again and again the first try that gives a good step, at a unit for each try.
#![tactic(auto)]

mod rounds;
mod tries;
mod walks;

pub use rounds::{SimpSearch, find_steps};
