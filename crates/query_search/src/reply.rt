//! How the search for the answer to a query ends.
use cert_model::{Derivation, InfEvidence};
use term_core::Term;

/// The answer to a query.
#[derive(Debug, Drop)]
pub enum Reply {
    /// The conditions are never met, by this evidence.
    Infeasible(InfEvidence),
    /// They are met: the value of each variable, by number, and a derivation for each condition.
    Meets(Vec<Term>, Vec<Derivation>),
    /// Nothing that was tried shows either.
    Exhausted,
    /// The budget was spent.
    Spent,
}
