//! A page, which is written piece by piece.
use crate::piece::Piece;
use cops_names::Names;
use itoa::Buffer;
use std::alloc::Global;
use term_core::{Head, NoMemory};

/// A page. Where memory is refused for a part, it takes nothing more; a quiet one takes nothing.
#[derive(Drop)]
pub struct Page<'a> {
    pub alloc: Global,
    pub names: &'a Names,
    // What the symbols are, where they are those of an unraveled system.
    pub(crate) heads: Vec<Head>,
    bytes: Vec<u8>,
    is_refused: bool,
    is_quiet: bool,
}

impl<'a> Page<'a> {
    /// An empty page.
    pub fn new(alloc: Global, names: &'a Names) -> Page<'a> {
        Page {
            alloc,
            names,
            heads: Vec::new(alloc),
            bytes: Vec::new(alloc),
            is_refused: false,
            is_quiet: false,
        }
    }

    /// Lets the page be quiet, or take what follows again, and answers what it was.
    pub fn set_quiet(&mut self, is_quiet: bool) -> bool {
        let was = self.is_quiet;
        self.is_quiet = is_quiet;
        was
    }

    /// Lets the symbols be those of an unraveled system, of which the file's have the same numbers.
    pub fn set_heads(&mut self, heads: &[Head]) {
        match heads.to_vec(self.alloc) {
            Ok(copy) => self.heads = copy,
            Err(_) => self.refuse(),
        }
    }

    /// Notes that memory was refused.
    pub fn refuse(&mut self) {
        self.is_refused = true;
    }

    /// What was made, or none where memory was refused for it, which is noted.
    pub fn got<T>(&mut self, made: Result<T, NoMemory>) -> Option<T> {
        match made {
            Ok(found) => Some(found),
            Err(NoMemory) => {
                self.refuse();
                None
            }
        }
    }

    /// The text, where memory sufficed for it.
    pub fn into_text(self) -> Result<Vec<u8>, NoMemory> {
        if self.is_refused {
            return Err(NoMemory);
        }
        Ok(self.bytes)
    }

    /// Puts bytes last.
    pub fn bytes(&mut self, bytes: &[u8]) {
        if !self.is_refused && !self.is_quiet {
            self.is_refused = self.bytes.extend_from_slice(bytes).is_err();
        }
    }

    /// Puts words last.
    pub fn words(&mut self, words: &str) {
        self.bytes(words.as_bytes());
    }

    /// Puts a number last, in decimal.
    pub fn number(&mut self, n: usize) {
        let mut buffer = Buffer::new();
        self.bytes(buffer.format(n).as_bytes());
    }

    /// Puts a number last that may be large.
    pub fn large(&mut self, n: u128) {
        let mut buffer = Buffer::new();
        self.bytes(buffer.format(n).as_bytes());
    }

    // Puts numbers last, with dots between them.
    pub(crate) fn dotted(&mut self, numbers: &[u32]) {
        for (i, number) in numbers.iter().enumerate() {
            if i > 0 {
                self.words(".");
            }
            self.number(*number as usize);
        }
    }

    fn piece(&mut self, piece: Piece<'_>) {
        match piece {
            Piece::Words(words) => self.words(words),
            Piece::Number(n) => self.number(n),
            Piece::Count(n, one, several) => {
                self.number(n);
                self.words(if n == 1 { one } else { several });
            }
            Piece::Position([]) => self.words("e"),
            Piece::Position(position) => self.dotted(position),
            Piece::At([]) => self.words("at the root"),
            Piece::At(position) => {
                self.words("at position ");
                self.dotted(position);
            }
            _ => self.named(piece),
        }
    }

    /// Puts a text last, with the next of the pieces in place of each `#`.
    pub fn put(&mut self, text: &str, pieces: &[Piece<'_>]) {
        let mut rest = pieces;
        for byte in text.as_bytes() {
            if *byte != b'#' {
                self.bytes(&[*byte]);
            } else if let [piece, further @ ..] = rest {
                self.piece(*piece);
                rest = further;
            }
        }
    }

    /// Puts blanks last.
    pub fn indent(&mut self, margin: usize) {
        for _ in 0..margin {
            self.words(" ");
        }
    }

    /// Puts a line last that begins with so many blanks.
    pub fn line(&mut self, margin: usize, text: &str, pieces: &[Piece<'_>]) {
        self.indent(margin);
        self.put(text, pieces);
        self.words("\n");
    }
}
