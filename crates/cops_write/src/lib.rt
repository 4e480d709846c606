//! Writes the text of a conditional rewrite system.
#![tactic(auto)]

mod terms;
mod writer;

pub use writer::{write_system, write_term, written_is_read};
