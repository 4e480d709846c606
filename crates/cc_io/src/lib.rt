//! Where bytes come from, and where they go: shelves of files, sinks, and both in memory.
#![tactic(auto)]

mod memory;
mod shelf;
mod sink;

pub use memory::{MemoryFile, MemoryShelf, MemorySink};
pub use shelf::{ReadAllError, Shelf, read_all};
pub use sink::{Failed, Sink, WriteFault, write_all};
