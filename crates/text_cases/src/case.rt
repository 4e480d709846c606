//! The bytes that a line of the data stands for.
use std::alloc::{AllocError, Global};

/// The line's own bytes, but that `\n`, `\t` and `\r` are one byte each, and so is `\x` with two digits;
/// `\{A..B|PIECE}` is the piece for each number from A to below B, which stands for `#` in it; `\.` is
/// nothing, and shows an empty text or a space at the end.
pub fn bytes_of(alloc: Global, line: &str) -> Result<Vec<u8>, AllocError> {
    let mut out = Vec::new(alloc);
    let mut parts = line.split('\\');
    if let Some(plain) = parts.next() {
        out.extend_from_slice(plain.as_bytes())?;
    }
    for part in parts {
        put_escape(alloc, &mut out, part)?;
    }
    Ok(out)
}

// What stands behind a backslash, up to the next one.
fn put_escape(alloc: Global, out: &mut Vec<u8>, part: &str) -> Result<(), AllocError> {
    match part.as_bytes() {
        [b'n', rest @ ..] => put_byte(out, b'\n', rest),
        [b't', rest @ ..] => put_byte(out, b'\t', rest),
        [b'r', rest @ ..] => put_byte(out, b'\r', rest),
        [b'x', high, low, rest @ ..] => {
            let byte = digit(*high).wrapping_mul(16).wrapping_add(digit(*low));
            put_byte(out, byte, rest)
        }
        [b'.', rest @ ..] => {
            out.extend_from_slice(rest)?;
            Ok(())
        }
        _ => put_pieces(alloc, out, part),
    }
}

fn put_byte(out: &mut Vec<u8>, byte: u8, rest: &[u8]) -> Result<(), AllocError> {
    out.push(byte)?;
    out.extend_from_slice(rest)?;
    Ok(())
}

fn digit(letter: u8) -> u8 {
    match letter {
        b'0'..=b'9' => letter - b'0',
        b'a'..=b'f' => letter - b'a' + 10,
        _ => 0,
    }
}

// `{A..B|PIECE}` and what follows it. Anything else stands for nothing.
fn put_pieces(alloc: Global, out: &mut Vec<u8>, part: &str) -> Result<(), AllocError> {
    let Some((head, rest)) = part.split_once('}') else {
        return Ok(());
    };
    let Some((range, piece)) = head.split_once('|') else {
        return Ok(());
    };
    for number in numbers_of(range) {
        put_piece(alloc, out, piece, number)?;
    }
    out.extend_from_slice(rest.as_bytes())?;
    Ok(())
}

fn numbers_of(range: &str) -> std::ops::Range<u32> {
    match range.trim_start_matches('{').split_once("..") {
        Some((from, to)) => from.parse().unwrap_or(0)..to.parse().unwrap_or(0),
        None => 0..0,
    }
}

fn put_piece(alloc: Global, out: &mut Vec<u8>, piece: &str, number: u32) -> Result<(), AllocError> {
    let mut parts = piece.split('#');
    if let Some(plain) = parts.next() {
        out.extend_from_slice(plain.as_bytes())?;
    }
    for part in parts {
        out.extend_from_slice(format!(in alloc; "{number}")?.as_bytes())?;
        out.extend_from_slice(part.as_bytes())?;
    }
    Ok(())
}
