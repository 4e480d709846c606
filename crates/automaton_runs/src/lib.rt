//! Runs of tree automata on terms: the states that a term reaches by choices of states for its variable occurrences.
#![tactic(auto)]

mod batch;
mod batch_runs;
mod choices;
mod groups;
mod index;
mod linear;
mod listing;
mod pools;
mod possible;
mod relations;
mod runs;
mod sharing;
mod tails;
mod width;

pub use batch::Batch;
pub use batch_runs::{reached, reached_by_occurrences};
pub use choices::Choices;
pub use index::AutomatonIndex;
pub use runs::{Arrival, arrivals};
pub use width::{has_more_choices, occurrences};
