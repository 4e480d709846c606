//! The tokens of a text, one after the other.

ghost use Rattle.std.specs.Prelude.{◌≡◌, ◌<◌, [], IfOk, IfErr, IfSome};
ghost use Rattle.cops_lex.specs.Reading.{HasRead, HasNoNext, IsIdText, left};
ghost use Rattle.cops_lex.specs.Answers.{FrontAnswers, NextAnswers, StaysWithout, FinishAnswers, TokensAnswers};

use crate::scan::{is_comment_at, kind_of, len_of, open_after, skip_comment, skip_white};
use crate::{LexError, Token};
use file_text::LONGEST;
use std::alloc::Global;
use std::marker::Model;

/// A text, read token by token. In contracts: the bytes, the place up to which they are read, and how many
/// brackets are open there.
#[derive(Drop)]
pub struct Lexer<'a> {
    bytes: &'a [u8],
    at: usize,
    count: usize,
}

impl<'a> Model for Lexer<'a> {
    ghost use Rattle.cops_lex.specs.Reading.{Reading};

    ghost Value = { Reading };

    ghost use Rattle.cops_lex.specs.ReadingView.{reading_view, IsHeld};

    ghost view = { reading_view };

    ghost invariant = { IsHeld };
}

impl<'a> Lexer<'a> {
    /// Before the first token.
    pub fn new(bytes: &'a [u8]) -> Lexer<'a>
        ensures text { result.bytes ≡ bytes.now }
        ensures none { HasRead result [] }
    {
        Lexer {
            bytes,
            at: 0,
            count: 0,
        }
    }

    // The place of the next token, or of the end of the text: comments are passed over.
    fn front(&self) -> Result<usize, LexError>
        ensures answer { FrontAnswers self.now result }
        ensures none_ready { IfErr result (λ _. HasNoNext self.now) }
    {
        let mut at = self.at;
        'comments: loop {
            let (_, behind) = self.bytes.split_at(at);
            let from = at + skip_white(behind);
            let (_, rest) = self.bytes.split_at(from);
            if !is_comment_at(self.count, rest) {
                return Ok(from);
            }
            let Some(len) = skip_comment(rest) else {
                return Err(LexError::CommentNotClosed {
                    at: self.bytes.len(),
                });
            };
            at = from + len;
        }
    }

    /// The next token; none at the end; else why the text has no tokens, the same at each later call.
    ///
    /// It takes no memory, so the error is never that there is none.
    pub fn next(&mut self) -> Result<Option<Token>, LexError>
        ensures answer { NextAnswers self.old self.new result }
        ensures none_ready { IfErr result (λ _. HasNoNext self.old) }
        ensures id_text { IfOk result (λ found. IfSome found (λ t. IsIdText self.old.bytes t)) }
        ensures nearer { IfOk result (λ found. IfSome found (λ _. left self.new < left self.old)) }
        ensures text { self.new.bytes ≡ self.old.bytes }
        ensures stays { StaysWithout self.old self.new result }
    {
        let from = self.front()?;
        let (_, rest) = self.bytes.split_at(from);
        if rest.is_empty() {
            return Ok(None);
        }
        let Some(kind) = kind_of(rest) else {
            return Err(LexError::BadByte { at: from });
        };
        let len = len_of(kind, rest);
        if len > LONGEST {
            return Err(LexError::IdTooLong { at: from });
        }
        let to = from + len;
        let token = Token { kind, from, to };
        self.at = to;
        self.count = open_after(self.count, kind);
        Ok(Some(token))
    }

    /// Goes through the rest of the text: why the text has no tokens, wherever that stands.
    pub fn finish(mut self) -> Result<(), LexError>
        ensures { FinishAnswers self.entry result }
    {
        'rest: while self.next()?.is_some() {}
        Ok(())
    }
}

/// The tokens of a text, in order. A comment gives none.
pub fn tokens(alloc: Global, bytes: &[u8]) -> Result<Vec<Token>, LexError>
    ensures { TokensAnswers bytes.now result }
{
    let mut out = Vec::new(alloc);
    let mut lexer = Lexer::new(bytes);
    'tokens: while let Some(token) = lexer.next()? {
        out.push(token)?;
    }
    Ok(out)
}
