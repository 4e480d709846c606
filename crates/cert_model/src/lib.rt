//! Certificates and the reasons of a rejection, as plain data that readers make, checks judge and printers tell.
#![tactic(auto)]

mod conditions;
mod copies;
mod derivations;
mod evidence;
mod model;
mod reasons;

pub use conditions::condition;
pub use copies::copy_numbers;
pub use derivations::{Derivation, Step};
pub use evidence::{Automaton, InfEvidence, PairEvidence, Transition};
pub use model::{
    Certificate, Linear, LinearEntry, MeasureCert, NonJoin, PairEntry, Peak, Redex, Simp,
};
pub use reasons::{
    BadStep, Blame, Class, EvidenceReason, MeasureReason, Rejected, SimpReason, StepReason,
};
pub use term_core::Head;
