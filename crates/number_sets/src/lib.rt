//! Sets of numbers as the bits of words, and relations as such sets.
#![tactic(auto)]

mod relation;
mod rows;
mod sets;
mod words;

pub use rows::NumberRelation;
pub use words::NumberSet;
