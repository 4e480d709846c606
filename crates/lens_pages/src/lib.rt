//! Pages for people: words, numbers, and terms with the names of a file.
#![tactic(auto)]

mod page;
mod piece;
mod terms;

pub use page::Page;
pub use piece::{Naming, Piece};
