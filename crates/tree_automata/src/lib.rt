//! Tree automata as evidence that conditions are never met.
#![tactic(auto)]

mod accepts;
mod closure;
mod evidence;
mod exclusion;
mod sides;
mod width;

pub use accepts::Runs;
pub use closure::is_closed;
pub use evidence::AutoEvidence;
pub use exclusion::excludes;
