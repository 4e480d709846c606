//! All that the program does: `run` reads the words and the file, has a certificate checked or searched for, or tests itself
//! with a generated system, and writes the one answer with its status.
//!
//! Files come from a `Shelf` and texts go to two `Sink`s, so that its contract speaks of bytes and not of a disk. The program
//! `concon` hands it the real files and streams.
#![tactic(auto)]

mod answers;
mod check;
mod commands;
mod files;
mod pieces;
mod prove;
mod queries;
mod refusals;
mod rejections;
mod reply;
mod selftest;
mod status;
mod top;

pub use status::Status;
pub use top::run;
