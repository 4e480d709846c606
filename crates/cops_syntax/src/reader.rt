//! From bytes to what their words spell: the words are taken one by one, up to the first refusal.
ghost use Rattle.std.specs.Prelude.{◌≡◌, ◌++◌, ℕ, List, [], IfOk, length};
ghost use Rattle.file_text.specs.Grammar as grammar;
ghost use Rattle.cops_syntax.specs.States.{word_view};
ghost use Rattle.cops_syntax.specs.Reader.{TakeAnswers, EndAnswers, TextAnswers, error_of};
ghost use Rattle.cops_syntax.specs.declared.reader.TextError.TheVariants.{NoMemory};

use crate::word::{Word, word_at};
use cops_lex::{LexError, Lexer};
use std::alloc::{AllocError, Global};
use std::fmt;
use thiserror::Error;

/// Why the words of a text spell nothing for a reader. A place is a byte number from 0.
#[derive(Debug, Drop, Error)]
#[error_bound(C: fmt::Display)]
pub enum TextError<C> {
    /// A byte that is in no token and is no white space.
    #[error("bad byte at {at}")]
    BadByte { at: usize },
    /// The first byte of an identifier of more than 255 bytes.
    #[error("identifier too long at {at}")]
    IdTooLong { at: usize },
    /// A comment that is not closed: the length of the text.
    #[error("comment not closed at {at}")]
    CommentNotClosed { at: usize },
    /// A token that the reader refuses, or the length of a text that ends too early.
    #[error("{cause} at {at}")]
    Refused { cause: C, at: usize },
    #[error("no memory")]
    NoMemory,
}

impl<C> From<AllocError> for TextError<C> {
    ghost from_gives = { λ _ e. e ≡ NoMemory };

    fn from(_: AllocError) -> Self {
        TextError::NoMemory
    }
}

impl<C> From<LexError> for TextError<C> {
    ghost from_gives = { λ e s. s ≡ error_of e };

    fn from(error: LexError) -> Self {
        match error {
            LexError::BadByte { at } => TextError::BadByte { at },
            LexError::IdTooLong { at } => TextError::IdTooLong { at },
            LexError::CommentNotClosed { at } => TextError::CommentNotClosed { at },
            LexError::NoMemory => TextError::NoMemory,
        }
    }
}

/// A grammar as an automaton over words.
pub trait WordReader<'a>: Drop {
    /// What words spell.
    type Tree;
    /// Why they spell nothing.
    type Cause: Drop;

    /// These words lead here.
    ghost has_taken: { Self → List grammar.Word → Type 0 };

    /// The words spell the tree.
    ghost spells: { List grammar.Word → Self.Tree → Type 0 };

    /// The words spell nothing, for this cause from the word with this number on.
    ghost refuses: { List grammar.Word → Self.Cause → ℕ → Type 0 };

    /// Takes the next word, or tells why it may not stand here.
    fn take(&mut self, alloc: Global, word: Word<'a>) -> Result<Option<Self::Cause>, AllocError>
        requires { (ws : List grammar.Word) × has_taken self.old ws }
        ensures { IfOk result (λ o. (ws : List grammar.Word) → has_taken self.old ws → TakeAnswers (has_taken self.new) refuses ws (word_view word.entry) o) };

    /// What the words spell that end here, or why they may not.
    fn end(self, alloc: Global) -> Result<Self::Tree, Self::Cause>
        requires { (ws : List grammar.Word) × has_taken self ws }
        ensures { (ws : List grammar.Word) → has_taken self ws → EndAnswers spells refuses ws result };
}

/// What the bytes spell for a reader that has taken no word, or the first refusal. A token is taken, and read, before the next one.
///
/// A byte, an identifier or a comment for which a text has no tokens is told before any other refusal, wherever it stands:
/// so behind a word that is refused the rest of the text is gone through for it.
pub fn read_words<'a, R: WordReader<'a>>(
    alloc: Global,
    bytes: &'a [u8],
    mut reader: R,
) -> Result<R::Tree, TextError<R::Cause>>
    requires { R.has_taken reader [] }
    ensures { TextAnswers R.spells R.refuses bytes.now result }
{
    let mut lexer = Lexer::new(bytes);
    'tokens: while let Some(token) = lexer.next()? {
        if let Some(cause) = reader.take(alloc, word_at(bytes, token))? {
            lexer.finish()?;
            return Err(TextError::Refused {
                cause,
                at: token.from,
            });
        }
    }
    match reader.end(alloc) {
        Ok(tree) => Ok(tree),
        Err(cause) => Err(TextError::Refused {
            cause,
            at: bytes.len(),
        }),
    }
}
