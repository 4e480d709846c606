//! Where a byte of a text stands, and the line there with a mark below it.
#![tactic(auto)]

mod marks;
mod place;

pub use marks::push_marked;
pub use place::{Place, place_of};
