//! Reads the text of a conditional rewrite system: its syntax tree, then the system with names that this means.
#![tactic(auto)]

ghost use Rattle.cops_read.specs.Answers.{ReadAnswers, OneSystem, SystemsAreSound, SystemsAreWithinLimits, SymbolsAreNamed, SystemsTellTheirFile, OneRefusal, RefusalsAreWithin, NeverSystemAndRefusal, SystemOrRefusal};

mod block;
mod conditions;
mod errors;
mod files;
mod heads;
mod limits;
mod read_names;
mod rules;
mod terms;

pub use conditions::read_conditions;
pub use cops_names::{NameSet, Names};
use cops_syntax::parse;
pub use errors::{Count, ReadError};
pub use files::{block_names, read_file};
pub use heads::{NodePlace, VariableOrSymbol};
pub use limits::{MOST_CONDITIONS, MOST_DEPTH, MOST_NODES, MOST_SYMBOLS, MOST_VARIABLES};
use std::alloc::Global;
use term_core::System;
pub use terms::HeadReader;

/// The system that the bytes spell, with its names.
pub fn read_system(alloc: Global, bytes: &[u8]) -> Result<(System, Names), ReadError>
    ensures { ReadAnswers bytes.now result }
{
    let file = parse(alloc, bytes)?;
    read_file(alloc, file)
}

/// A text spells one system, with one table of names, or it has one refusal, and never both. What it
/// spells is a system whose symbols are those of the names, and it is within the limits, or it is that of join rules
/// that are; the place of a refusal is within the text or at its end.
pub fn one_reading()
    ensures one { OneSystem }
    ensures sound { SystemsAreSound }
    ensures limits { SystemsAreWithinLimits }
    ensures named { SymbolsAreNamed }
    ensures told { SystemsTellTheirFile }
    ensures refusal { OneRefusal }
    ensures within { RefusalsAreWithin }
    ensures either { NeverSystemAndRefusal }
    ensures some { SystemOrRefusal }
{}
