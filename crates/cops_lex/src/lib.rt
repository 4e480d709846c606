//! Bytes of a file to tokens.
#![tactic(auto)]

ghost use Rattle.std.specs.Prelude.{◌≡◌};
ghost use Rattle.cops_lex.specs.declared.LexError.TheVariants.{NoMemory};

pub use file_text::{Kind, Token};
pub use lexer::{Lexer, tokens};
pub use scan::{is_id, kind_of, len_of};
use std::alloc::AllocFailed;
use thiserror::Error;

/// Why bytes have no list of tokens. A place is a byte number from 0.
#[derive(Debug, Drop, Error)]
pub enum LexError {
    /// A byte that is in no token and is no white space.
    #[error("bad byte at {at}")]
    BadByte { at: usize },
    /// The first byte of an identifier of more than 255 bytes.
    #[error("identifier too long at {at}")]
    IdTooLong { at: usize },
    /// The length of a text that ends in a comment.
    #[error("comment not closed at {at}")]
    CommentNotClosed { at: usize },
    #[error("no memory")]
    NoMemory,
}

impl<T: Drop> From<AllocFailed<T>> for LexError {
    ghost from_gives = { λ _ e. e ≡ NoMemory };

    fn from(_: AllocFailed<T>) -> Self {
        LexError::NoMemory
    }
}

mod lexer;
mod scan;
