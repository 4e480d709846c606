//! The names of a system, of its symbols and of each rule's variables; and sets of names in the order in
//! which they came.
#![tactic(auto)]

mod name_set;
mod names;
mod numerals;

pub use name_set::NameSet;
pub use names::Names;
pub use numerals::numbered;
