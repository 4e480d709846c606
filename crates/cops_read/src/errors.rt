//! What a file has a greatest number of, and why bytes are read to no system.
ghost use Rattle.std.specs.Prelude.{◌≡◌};
ghost use Rattle.cops_read.specs.Counts.{most_of};
ghost use Rattle.cops_read.specs.declared.errors.ReadError.TheVariants.{NoMemory as no_memory};

use crate::limits::{
    MOST_ARGUMENTS, MOST_CONDITIONS, MOST_NODES, MOST_RULES, MOST_SYMBOLS, MOST_VARIABLES,
};
use cops_syntax::{SyntaxError, SyntaxRefusal, TextError};
use std::alloc::{AllocError, AllocFailed};
use std::fmt;
use term_core::NoMemory;
use thiserror::Error;

/// Parts of a file of which there is a greatest number.
#[derive(Clone, Copy, Debug, PartialEq, Eq)]
pub enum Count {
    /// The rules of the file.
    Rules,
    /// The conditions of a rule.
    Conditions,
    /// The arguments of a symbol.
    Arity,
    /// The identifiers of a term.
    Nodes,
    /// The variables of a rule.
    Variables,
    /// The symbols of the file.
    Symbols,
}

impl Count {
    /// The greatest number of such parts.
    pub fn limit(self) -> u32
        ensures { result ≡ most_of self }
    {
        match self {
            Count::Rules => MOST_RULES,
            Count::Conditions => MOST_CONDITIONS,
            Count::Arity => MOST_ARGUMENTS,
            Count::Nodes => MOST_NODES,
            Count::Variables => MOST_VARIABLES,
            Count::Symbols => MOST_SYMBOLS,
        }
    }
}

impl fmt::Display for Count {
    fn fmt<W: fmt::Write>(&self, f: &mut fmt::Formatter<W>) -> fmt::Result {
        f.write_str(match self {
            Count::Rules => "rules",
            Count::Conditions => "conditions",
            Count::Arity => "arguments",
            Count::Nodes => "nodes",
            Count::Variables => "variables",
            Count::Symbols => "symbols",
        })
    }
}

/// Why bytes are read to no system. A place is a byte number from 0.
#[derive(Debug, Drop, Error)]
pub enum ReadError {
    /// A byte outside comments that is in no token and is no white space.
    #[error("bad byte at {at}")]
    BadByte { at: usize },
    /// The first byte of an identifier of more than 255 bytes.
    #[error("identifier too long at {at}")]
    IdTooLong { at: usize },
    /// A comment that is not closed: the length of the text.
    #[error("comment not closed at {at}")]
    CommentNotClosed { at: usize },
    /// The first token that goes on with no text of the grammar, or the length of the text.
    #[error("syntax at {at}")]
    Syntax { at: usize },
    /// The title of a block that is none of the three.
    #[error("unknown block at {at}")]
    UnknownBlock { at: usize },
    /// The title of an earlier block.
    #[error("repeated block at {at}")]
    RepeatedBlock { at: usize },
    /// A condition type that is neither `ORIENTED` nor `JOIN`.
    #[error("condition type other at {at}")]
    ConditionTypeOther { at: usize },
    /// No block of rules: the length of the text.
    #[error("missing rules at {at}")]
    MissingRules { at: usize },
    /// The first bar in a file without a condition type.
    #[error("conditions without type at {at}")]
    ConditionsWithoutType { at: usize },
    /// A variable before brackets.
    #[error("variable with arguments at {at}")]
    VariableWithArguments { at: usize },
    /// A symbol with another number of arguments than at its first use.
    #[error("arity differs at {at}")]
    ArityDiffers { at: usize },
    /// A variable that is the left side of a rule.
    #[error("left side is a variable at {at}")]
    LeftVariable { at: usize },
    /// An identifier at depth 201 of a term.
    #[error("too deep at {at}")]
    TooDeep { at: usize },
    /// The first of the parts that are too many.
    #[error("too many {what} at {at}")]
    TooMany { what: Count, limit: u32, at: usize },
    #[error("no memory")]
    NoMemory,
}

impl From<NoMemory> for ReadError {
    ghost from_gives = { λ _ e. e ≡ no_memory };

    fn from(_: NoMemory) -> Self {
        ReadError::NoMemory
    }
}

impl From<AllocError> for ReadError {
    ghost from_gives = { λ _ e. e ≡ no_memory };

    fn from(_: AllocError) -> Self {
        ReadError::NoMemory
    }
}

impl<T: Drop> From<AllocFailed<T>> for ReadError {
    ghost from_gives = { λ _ e. e ≡ no_memory };

    fn from(_: AllocFailed<T>) -> Self {
        ReadError::NoMemory
    }
}

impl From<SyntaxError> for ReadError {
    ghost use Rattle.cops_read.specs.Steps.{read_error_of};

    ghost from_gives = { λ e d. d ≡ read_error_of e };

    fn from(error: SyntaxError) -> Self {
        match error {
            TextError::BadByte { at } => ReadError::BadByte { at },
            TextError::IdTooLong { at } => ReadError::IdTooLong { at },
            TextError::CommentNotClosed { at } => ReadError::CommentNotClosed { at },
            TextError::Refused { cause, at } => match cause {
                SyntaxRefusal::Syntax => ReadError::Syntax { at },
                SyntaxRefusal::UnknownBlock => ReadError::UnknownBlock { at },
                SyntaxRefusal::RepeatedBlock => ReadError::RepeatedBlock { at },
                SyntaxRefusal::ConditionTypeOther => ReadError::ConditionTypeOther { at },
                SyntaxRefusal::MissingRules => ReadError::MissingRules { at },
            },
            TextError::NoMemory => ReadError::NoMemory,
        }
    }
}
