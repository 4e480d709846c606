//! What the tree of a query means over the symbols of a system, identifier by identifier, and which query a text is.
#![tactic(auto)]

mod errors;
mod heads;
mod meanings;
mod reader;

pub use reader::{Query, QueryError, read_query};
