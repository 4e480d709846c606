//! Derivations, replayed: the term to which a list of steps leads from a term, or its first step that is bad.
//!
//! With the rules f(x) -> x | x == b and a -> b, one step by rule 1 at the root of f(a), whose condition is met by one step
//! by rule 2, leads to a. Without that inner step the condition fails, since a is not b: the path of the bad step is 1, the
//! step, then 1, its condition. A step by a hypothesis replaces its left side, as it stands, by its right side.
#![tactic(auto)]

mod errors;
mod instances;
mod judge;
mod laws;
mod places;
mod steps;

pub use errors::ReplayError;
pub use judge::replay;
pub use laws::outcomes_are_unique;
