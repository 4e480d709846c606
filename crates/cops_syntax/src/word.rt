//! Tokens with the text that they stand for.
ghost use Rattle.std.specs.Prelude.{◌≡◌, slice_range};
ghost use Rattle.std.specs.Str.{IsUtf8};
ghost use Rattle.cops_lex.specs.Reading.{IsIdText};
ghost use Rattle.file_text.specs.Texts.{word_of};
ghost use Rattle.cops_syntax.specs.States.{word_view};

use crate::tree::Name;
use cops_lex::{Kind, Token};

/// A token with what it says. A bar keeps its place.
#[derive(Clone, Copy)]
pub enum Word<'a> {
    Id(Name<'a>),
    LeftParen,
    RightParen,
    Comma,
    Bar(usize),
    Arrow,
    Equal,
}

// The bytes from a place to another, as far as there are any.
fn part(bytes: &[u8], from: usize, to: usize) -> &[u8]
    ensures { result.now ≡ slice_range bytes.now from to }
{
    let (_, behind) = bytes.split_at(from.min(bytes.len()));
    let (front, _) = behind.split_at(to.saturating_sub(from).min(behind.len()));
    front
}

// The bytes from a place to another, which are text.
fn text_part(bytes: &[u8], from: usize, to: usize) -> &str
    requires { IsUtf8 (slice_range bytes.now from to) }
    ensures { result.now ≡ slice_range bytes.now from to }
{
    let Ok(text) = std::str::from_utf8(part(bytes, from, to)) else {
        unreachable!();
    };
    text
}

/// What the token says in its text.
pub fn word_at<'a>(bytes: &'a [u8], token: Token) -> Word<'a>
    requires { IsIdText bytes.now token }
    ensures { word_view result ≡ word_of bytes.now token }
{
    match token.kind {
        Kind::Id => Word::Id(Name {
            at: token.from,
            text: text_part(bytes, token.from, token.to),
        }),
        Kind::LeftParen => Word::LeftParen,
        Kind::RightParen => Word::RightParen,
        Kind::Comma => Word::Comma,
        Kind::Bar => Word::Bar(token.from),
        Kind::Arrow => Word::Arrow,
        Kind::Equal => Word::Equal,
    }
}
