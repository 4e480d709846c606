//! What the searches for certificates of confluence share: evidence for an overlap that is tried, what grew for a
//! condition, and the entries of all overlaps.
#![tactic(auto)]

mod entries;
mod grown;
mod trying;

pub use entries::{OverlapTrial, add_entry, entries_for};
pub use grown::Grown;
pub use trying::{judged, try_refuting};
