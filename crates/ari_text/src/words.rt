//! Bytes to words: brackets, names, and texts in quotes, each at its place.
ghost use Rattle.std.specs.Prelude.{◌≡◌, ◌<◌, ◌∷◌, [], OnOk, IfOk, length};
ghost use Rattle.std.specs.Bool.{OnTrue};
ghost use Rattle.file_text.specs.declared.Kind.TheVariants.{Id};
ghost use Rattle.file_text.specs.Bytes as bytes;
ghost use Rattle.ari_text.specs.Signs.{sign_of, signs_of};
ghost use Rattle.ari_text.specs.Spelling as spelling;
ghost use Rattle.ari_text.specs.Spelling.{IsSignOf, Spell};
ghost use Rattle.ari_text.specs.Pieces.{IsBareRun, IsFirstPlace, IsEnclosed, IsPiece, IsPushed};

use crate::errors::AriError;
use cops_lex::{Kind, LexError, Token, tokens};
use cops_syntax::Name;
use std::alloc::{AllocError, Global};

// A bracket, a name that the other text can spell, another name, or a text in quotes; with the place of its first byte.
#[derive(Clone, Copy, Debug)]
pub(crate) enum Word<'a> {
    Open(usize),
    Close(usize),
    Id(Name<'a>),
    Odd(usize),
    Quoted(usize),
}

fn is_white(b: u8) -> bool
    ensures { result ≡ bytes.is_white b }
{
    b == 9 || b == 10 || b == 13 || b == 32
}

// Whether a name that stands in no bars may have the byte.
fn is_bare(b: u8) -> bool
    ensures { result ≡ spelling.is_bare b }
{
    b > 32 && b < 127 && !(b == b'(' || b == b')' || b == b';' || b == b'|' || b == b'"')
}

// How many bytes of a name stand at the front.
fn bare_len(bytes: &[u8]) -> usize
    ensures { IsBareRun bytes.now result }
{
    for (i, b) in bytes.iter().enumerate() {
        if !is_bare(*b) {
            return i;
        }
    }
    bytes.len()
}

// Where the byte stands first, or the length where it does not.
fn place_of(bytes: &[u8], byte: u8) -> usize
    ensures { IsFirstPlace bytes.now byte result }
{
    for (i, b) in bytes.iter().enumerate() {
        if *b == byte {
            return i;
        }
    }
    bytes.len()
}

// Whether one identifier is all of a text that is so long.
fn is_one_name(tokens: &[Token], len: usize) -> bool
    ensures { OnTrue result (tokens.now ≡ record { kind = Id; from = 0; to = len } ∷ []) }
{
    match tokens {
        [token] => token.kind == Kind::Id && token.from == 0 && token.to == len,
        _ => false,
    }
}

// The word of a name that stands at a place, in bars or not.
fn name_word<'a>(alloc: Global, name: &'a [u8], at: usize) -> Result<Word<'a>, AriError>
    ensures { IfOk result (λ w. IsSignOf name.now (sign_of w)) }
{
    let tokens = match tokens(alloc, name) {
        Ok(tokens) => tokens,
        Err(LexError::NoMemory) => return Err(AriError::NoMemory),
        Err(_) => return Ok(Word::Odd(at)),
    };
    if !is_one_name(&tokens, name.len()) {
        return Ok(Word::Odd(at));
    }
    match std::str::from_utf8(name) {
        Ok(text) => Ok(Word::Id(Name { at, text })),
        Err(_) => Ok(Word::Odd(at)),
    }
}

// What stands between two bytes of one kind, of which the first is passed.
fn enclosed(inside: &[u8], byte: u8, at: usize) -> Result<&[u8], AriError>
    ensures { IfOk result (λ t. IsEnclosed inside.now byte t.now) }
{
    let len = place_of(inside, byte);
    if len == inside.len() {
        return Err(AriError::NotClosed { at });
    }
    let (name, _) = inside.split_at(len);
    Ok(name)
}

// A name in bars, behind the first one, and how long it is with both.
fn barred<'a>(
    alloc: Global,
    inside: &'a [u8],
    at: usize,
) -> Result<(Option<Word<'a>>, usize), AriError>
    ensures { IfOk result (λ p. IsPiece (124 ∷ inside.now) p.0 p.1) }
{
    let name = enclosed(inside, b'|', at)?;
    let word = name_word(alloc, name, at)?;
    Ok((Some(word), name.len() + 2))
}

// A text in quotes, behind the first one, and how long it is with both.
fn quoted(inside: &[u8], at: usize) -> Result<(Option<Word<'_>>, usize), AriError>
    ensures { IfOk result (λ p. IsPiece (34 ∷ inside.now) p.0 p.1) }
{
    let text = enclosed(inside, b'"', at)?;
    Ok((Some(Word::Quoted(at)), text.len() + 2))
}

// A name without bars at the front, and how long it is.
fn bare<'a>(alloc: Global, rest: &'a [u8], at: usize) -> Result<(Option<Word<'a>>, usize), AriError>
    ensures { IfOk result (λ p. IsPiece rest.now p.0 p.1) }
{
    let len = bare_len(rest);
    if len == 0 {
        return Err(AriError::BadByte { at });
    }
    let (name, _) = rest.split_at(len);
    let word = name_word(alloc, name, at)?;
    Ok((Some(word), len))
}

// How much stands at the front, white space or a comment or a word, and the word if it is one.
fn read_piece<'a>(
    alloc: Global,
    rest: &'a [u8],
    at: usize,
) -> Result<(Option<Word<'a>>, usize), AriError>
    requires { 0 < length rest.now }
    ensures { IfOk result (λ p. IsPiece rest.now p.0 p.1) }
{
    let first = rest[0];
    let (_, behind) = rest.split_at(1);
    if first == b'(' {
        return Ok((Some(Word::Open(at)), 1));
    }
    if first == b')' {
        return Ok((Some(Word::Close(at)), 1));
    }
    if is_white(first) {
        return Ok((None, 1));
    }
    if first == b';' {
        return Ok((None, place_of(behind, 10) + 1));
    }
    if first == b'|' {
        return barred(alloc, behind, at);
    }
    if first == b'"' {
        return quoted(behind, at);
    }
    bare(alloc, rest, at)
}

// Puts the word last, if there is one.
fn push_word<'a>(words: &mut Vec<Word<'a>>, word: Option<Word<'a>>) -> Result<(), AllocError>
    ensures { OnOk result (IsPushed words.old.items words.new.items word.entry) }
{
    if let Some(word) = word {
        words.push(word)?;
    }
    Ok(())
}

// The words of a text, in order.
pub(crate) fn read_words(alloc: Global, bytes: &[u8]) -> Result<Vec<Word<'_>>, AriError>
    ensures { IfOk result (λ v. Spell bytes.now (signs_of v.items)) }
{
    let mut words = Vec::new(alloc);
    let mut at = 0;
    'pieces: while at < bytes.len() {
        let (_, rest) = bytes.split_at(at);
        let (word, len) = read_piece(alloc, rest, at)?;
        push_word(&mut words, word)?;
        at += len;
    }
    Ok(words)
}
