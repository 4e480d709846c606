//! The words of the command line, the real files and the standard streams, as a shelf and as sinks.
#![tactic(auto)]

mod adapters;
mod words;

pub use adapters::{DiskShelf, StreamSink};
pub use words::words_of;
