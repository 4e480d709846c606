//! Texts as the tables write them.

use std::alloc::{AllocError, Global};

/// A text, and for each of its bytes the place in the row where that is written.
#[derive(Drop)]
pub struct Text {
    pub bytes: Vec<u8>,
    places: Vec<usize>,
    row_length: usize,
}

impl Text {
    /// The text that a row writes.
    pub fn of(alloc: Global, row: &str) -> Result<Text, AllocError> {
        let mut text = Text {
            bytes: Vec::new(alloc),
            places: Vec::new(alloc),
            row_length: row.len(),
        };
        let mut from = 0usize;
        for piece in row.split('{') {
            text.put_piece(piece, from)?;
            from = from.saturating_add(piece.len()).saturating_add(1);
        }
        Ok(text)
    }

    // A piece in which a repetition stands first, or none.
    fn put_piece(&mut self, piece: &str, from: usize) -> Result<(), AllocError> {
        let Some((count, part, back)) = repetition(piece) else {
            return self.put(piece, from);
        };
        let back_from = piece.len().saturating_sub(back.len());
        let part_from = back_from.saturating_sub(part.len()).saturating_sub(1);
        for _ in 0..count {
            self.put(part, from.saturating_add(part_from))?;
        }
        self.put(back, from.saturating_add(back_from))
    }

    fn put(&mut self, part: &str, from: usize) -> Result<(), AllocError> {
        let mut escaped = false;
        for (i, b) in part.bytes().enumerate() {
            let escapes = b == b'\\' && !escaped;
            if !escapes {
                let place = from.saturating_add(i.saturating_sub(escaped as usize));
                self.bytes.push(if escaped { meant(b) } else { b })?;
                self.places.push(place)?;
            }
            escaped = escapes;
        }
        Ok(())
    }

    /// Where in the row the byte with this number is written; behind the last one the row's length.
    pub fn place(&self, number: usize) -> usize {
        self.places.get(number).copied().unwrap_or(self.row_length)
    }
}

// How often a part stands, the part, and what is behind it.
fn repetition(piece: &str) -> Option<(u32, &str, &str)> {
    let (inner, back) = piece.split_once('}')?;
    let (count, part) = inner.split_once(' ')?;
    let count = count.parse::<u32>().ok()?;
    Some((count, part, back))
}

// The byte that is written behind a backslash as this letter.
fn meant(letter: u8) -> u8 {
    if letter == b'n' { b'\n' } else { b' ' }
}
