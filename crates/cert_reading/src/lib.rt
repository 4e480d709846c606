//! The parts of a certificate's text: each is read as a value, or the text is refused, at its place.
#![tactic(auto)]

mod automata;
mod derivations;
mod evidence;
mod headings;
mod lines;
mod measures;
mod pairs;
mod peaks;
mod shared;
mod simplifications;
mod terms;
mod uses;

pub use headings::{Kind, entries_begin, first_line, kind_word, simplified_word};
pub use measures::measure;
pub use pairs::next_pair;
pub use peaks::peak;
pub use shared::shared_automata;
pub use simplifications::all_simplifications;
pub use uses::Uses;
