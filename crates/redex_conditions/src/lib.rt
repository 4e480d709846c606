//! The redexes of a term, and the conditions of a rule at a redex.
#![tactic(auto)]

mod conditions;

pub use conditions::conditions_at;
