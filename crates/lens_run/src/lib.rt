//! All that the companion does: `run` reads the words and the files, and writes a page, or why there is none and where a file is at fault.
//!
//! Files come from a `Shelf` and texts go to two `Sink`s, so that its contract speaks of bytes and not of a disk. The program
//! `lens` hands it the real files and streams.
#![tactic(auto)]

mod ari;
mod asked;
mod files;
mod judged;
mod pages;
mod refusals;
mod reply;
mod sought;
mod status;
mod top;

pub use status::Status;
pub use top::run;
