//! A system shown to a person: its rules with their numbers, its classes, its overlaps with what settles them, its unraveled system, what the searches cost,
//! and what is missing for each kind of certificate; and certificates to be filled by hand.
#![tactic(auto)]

mod failures;
mod findings;
mod measures;
mod missing;
mod peaks;
mod shown_classes;
mod shown_measures;
mod shown_overlaps;
mod shown_rules;
mod shown_starts;
mod shown_unraveling;
mod simplified;
mod skeletons;
mod subject;
mod walks;
mod whole;

pub use skeletons::SkeletonKind;
pub use whole::{show, skeleton};
