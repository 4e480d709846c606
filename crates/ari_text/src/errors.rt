//! Why a text in the ARI format is not written.
use cops_read::{Count, ReadError};
use std::alloc::{AllocError, AllocFailed};
use term_core::NoMemory;
use thiserror::Error;

/// Why a text in the ARI format is not written as one of the other format. A place is a byte number from 0.
#[derive(Debug, Drop, Error)]
pub enum AriError {
    /// A byte outside comments, bars and quotes that is in no word and is no white space.
    #[error("bad byte at {at}")]
    BadByte { at: usize },
    /// A bar or a quote that no second one follows.
    #[error("not closed at {at}")]
    NotClosed { at: usize },
    /// The first word with which no text of the grammar goes on, or the length of the text.
    #[error("syntax at {at}")]
    Syntax { at: usize },
    /// The word of another first part, or the length of a text without parts.
    #[error("missing format at {at}")]
    MissingFormat { at: usize },
    /// The word of a second format.
    #[error("repeated format at {at}")]
    RepeatedFormat { at: usize },
    /// The name of a format whose systems have no text here.
    #[error("format other at {at}")]
    FormatOther { at: usize },
    /// A condition type that is neither `oriented` nor `join`.
    #[error("condition type other at {at}")]
    ConditionTypeOther { at: usize },
    /// The word `sort`, or the bracket of a function's sorts.
    #[error("sorts at {at}")]
    Sorts { at: usize },
    /// The word `theory`, or one of its definitions.
    #[error("theory at {at}")]
    Theory { at: usize },
    /// The word `fun` behind a rule.
    #[error("function behind a rule at {at}")]
    LateFunction { at: usize },
    /// The first word of a part that is none of the grammar.
    #[error("unknown item at {at}")]
    UnknownItem { at: usize },
    /// The number of arguments of a function that is no decimal number of at most 20.
    #[error("bad number at {at}")]
    BadNumber { at: usize },
    /// The name of a function of which an earlier part tells.
    #[error("declared twice at {at}")]
    DeclaredTwice { at: usize },
    /// A name that is no identifier of the other text.
    #[error("name cannot be spelt at {at}")]
    NotSpelt { at: usize },
    /// A function with another number of arguments than is declared.
    #[error("wrong arity at {at}")]
    WrongArity { at: usize },
    /// A name that is not declared, behind a bracket.
    #[error("undeclared function at {at}")]
    Undeclared { at: usize },
    /// The first bracket of conditions where the format has none.
    #[error("conditions without type at {at}")]
    ConditionsWithoutType { at: usize },
    /// A variable that is the left side of a rule.
    #[error("left side is a variable at {at}")]
    LeftVariable { at: usize },
    /// A name at depth 201 of a term.
    #[error("too deep at {at}")]
    TooDeep { at: usize },
    /// The first of the parts that are too many.
    #[error("too many {what} at {at}")]
    TooMany { what: Count, limit: u32, at: usize },
    #[error("no memory")]
    NoMemory,
}

impl AriError {
    /// The place; none where memory was refused.
    pub fn at(&self) -> Option<usize> {
        match self {
            AriError::BadByte { at }
            | AriError::NotClosed { at }
            | AriError::Syntax { at }
            | AriError::MissingFormat { at }
            | AriError::RepeatedFormat { at }
            | AriError::FormatOther { at }
            | AriError::ConditionTypeOther { at }
            | AriError::Sorts { at }
            | AriError::Theory { at }
            | AriError::LateFunction { at }
            | AriError::UnknownItem { at }
            | AriError::BadNumber { at }
            | AriError::DeclaredTwice { at }
            | AriError::NotSpelt { at }
            | AriError::WrongArity { at }
            | AriError::Undeclared { at }
            | AriError::ConditionsWithoutType { at }
            | AriError::LeftVariable { at }
            | AriError::TooDeep { at }
            | AriError::TooMany { at, .. } => Some(*at),
            AriError::NoMemory => None,
        }
    }
}

impl From<NoMemory> for AriError {
    fn from(_: NoMemory) -> Self {
        AriError::NoMemory
    }
}

impl From<AllocError> for AriError {
    fn from(_: AllocError) -> Self {
        AriError::NoMemory
    }
}

impl<T: Drop> From<AllocFailed<T>> for AriError {
    fn from(_: AllocFailed<T>) -> Self {
        AriError::NoMemory
    }
}

impl From<ReadError> for AriError {
    fn from(error: ReadError) -> Self {
        match error {
            ReadError::ConditionsWithoutType { at } => AriError::ConditionsWithoutType { at },
            ReadError::VariableWithArguments { at } => AriError::Undeclared { at },
            ReadError::ArityDiffers { at } => AriError::WrongArity { at },
            ReadError::LeftVariable { at } => AriError::LeftVariable { at },
            ReadError::TooDeep { at } => AriError::TooDeep { at },
            ReadError::TooMany { what, limit, at } => AriError::TooMany { what, limit, at },
            ReadError::NoMemory => AriError::NoMemory,
            // what the tree of a text never calls for
            ReadError::BadByte { at }
            | ReadError::IdTooLong { at }
            | ReadError::CommentNotClosed { at }
            | ReadError::Syntax { at }
            | ReadError::UnknownBlock { at }
            | ReadError::RepeatedBlock { at }
            | ReadError::ConditionTypeOther { at }
            | ReadError::MissingRules { at } => AriError::Syntax { at },
        }
    }
}
