//! Queries of a system, read from bytes: conditions and the names of their variables, or why a text is none.
ghost use Rattle.std.specs.Prelude.{◌≡◌};
ghost use Rattle.cops_read.specs.Counts.{most_of};
ghost use Rattle.query_terms.specs.Queries.{QueryAnswers, text_error, meaning_error};
ghost use Rattle.query_terms.specs.declared.reader.QueryError.TheVariants.{TooMany};

use crate::errors::MeaningError;
use crate::meanings::read_meaning;
use cops_names::Names;
use cops_read::Count;
use cops_syntax::TextError;
use query_trees::{NoQuery, read_query_tree};
use std::alloc::Global;
use term_core::{Cond, System};
use thiserror::Error;

/// Conditions of which it is asked whether values for their variables meet them, and the names of these variables, by number.
#[derive(Debug, Drop)]
pub struct Query {
    pub conds: Vec<Cond>,
    pub names: Vec<String>,
}

/// Why a text is no query of a system. A place is a byte number from 0.
#[derive(Debug, Drop, Error)]
pub enum QueryError {
    /// The system has symbols that are not its file's own.
    #[error("join system at {at}")]
    JoinSystem { at: usize },
    /// A byte that is in no token and is no white space.
    #[error("bad byte at {at}")]
    BadByte { at: usize },
    /// The first byte of an identifier of more than 255 bytes.
    #[error("identifier too long at {at}")]
    IdTooLong { at: usize },
    /// A comment that is not closed: the length of the text.
    #[error("comment not closed at {at}")]
    CommentNotClosed { at: usize },
    /// A token that continues no query, or the length of a text that ends too early.
    #[error("syntax at {at}")]
    Syntax { at: usize },
    /// The first of the parts that are too many.
    #[error("too many {what} at {at}")]
    TooMany { what: Count, limit: u32, at: usize },
    /// An identifier at depth 201 of a term.
    #[error("too deep at {at}")]
    TooDeep { at: usize },
    /// A variable before brackets.
    #[error("variable with arguments at {at}")]
    VariableWithArguments { at: usize },
    /// An identifier that is no variable and no symbol.
    #[error("unknown name at {at}")]
    UnknownName { at: usize },
    /// A symbol with another number of arguments than in the file.
    #[error("arity differs at {at}")]
    ArityDiffers { at: usize },
    #[error("no memory")]
    NoMemory,
}

impl From<TextError<NoQuery>> for QueryError {
    ghost from_gives = { λ e s. s ≡ text_error e };

    fn from(error: TextError<NoQuery>) -> Self {
        match error {
            TextError::BadByte { at } => QueryError::BadByte { at },
            TextError::IdTooLong { at } => QueryError::IdTooLong { at },
            TextError::CommentNotClosed { at } => QueryError::CommentNotClosed { at },
            TextError::Refused { at, .. } => QueryError::Syntax { at },
            TextError::NoMemory => QueryError::NoMemory,
        }
    }
}

fn too_many(what: Count, at: usize) -> QueryError
    ensures { result ≡ TooMany what (most_of what) at }
{
    QueryError::TooMany {
        what,
        limit: what.limit(),
        at,
    }
}

impl From<MeaningError> for QueryError {
    ghost from_gives = { λ e s. s ≡ meaning_error e };

    fn from(error: MeaningError) -> Self {
        match error {
            MeaningError::TooManyConditions { at } => too_many(Count::Conditions, at),
            MeaningError::TooDeep { at } => QueryError::TooDeep { at },
            MeaningError::TooManyNodes { at } => too_many(Count::Nodes, at),
            MeaningError::VariableWithArguments { at } => QueryError::VariableWithArguments { at },
            MeaningError::UnknownName { at } => QueryError::UnknownName { at },
            MeaningError::TooManyVariables { at } => too_many(Count::Variables, at),
            MeaningError::ArityDiffers { at } => QueryError::ArityDiffers { at },
            MeaningError::NoMemory => QueryError::NoMemory,
        }
    }
}

/// The query that the text is, over a system with these names of symbols, or the one refusal. Where the system has symbols that are
/// not its file's own, no text is one.
pub fn read_query(
    alloc: Global,
    sys: &System,
    names: &Names,
    bytes: &[u8],
) -> Result<Query, QueryError>
    ensures { QueryAnswers sys.now names.now.symbols bytes.now result }
{
    if (sys.own() as usize) < sys.arities().len() {
        return Err(QueryError::JoinSystem { at: 0 });
    }
    let tree = read_query_tree(alloc, bytes)?;
    let (conds, names) = read_meaning(alloc, names, &tree)?;
    Ok(Query { conds, names })
}
