//! Words that are taken one after the other.
ghost use Rattle.std.specs.Prelude.{◌≡◌, ◌∷◌, ◌<◌, ◌≤◌, OnOk, IfOk, IfSome, length};
ghost use Rattle.std.specs.Bool.{OnTrue};
ghost use Rattle.ari_text.specs.Signs.{signs_of, name as name_sign, closing};
ghost use Rattle.ari_text.specs.Reads.{IsNext, IsBodyRead, IsKeyRead};

use crate::errors::AriError;
use crate::words::Word;
use cops_syntax::Name;
use std::marker::Model;

// Words, of which so many are taken, and the length of their text.
#[derive(Drop)]
pub(crate) struct Reader<'a> {
    words: Vec<Word<'a>>,
    at: usize,
    end: usize,
}

// Whether the name has this text.
pub(crate) fn is(name: Name<'_>, text: &str) -> bool
    ensures { OnTrue result (name.entry.text.now ≡ text.now) }
{
    name.text == text
}

impl<'a> Model for Reader<'a> {
    ghost use Rattle.std.specs.Prelude.{List};
    ghost use Rattle.ari_text.specs.Signs.{Sign};

    ghost Value = { List Sign };

    ghost use Rattle.ari_text.specs.ReaderView.{reader_view, IsWithin};

    ghost view = { reader_view };

    ghost invariant = { IsWithin };
}

impl<'a> Reader<'a> {
    // Before the first word.
    pub(crate) fn new(words: Vec<Word<'a>>, end: usize) -> Self
        ensures { result ≡ signs_of words.entry.items }
    {
        Reader { words, at: 0, end }
    }

    // The length of the text.
    pub(crate) fn end(&self) -> usize {
        self.end
    }

    // The next word, which is taken.
    pub(crate) fn next(&mut self) -> Option<Word<'a>>
        ensures word { IsNext self.old self.new result }
        ensures onward { length self.new ≤ length self.old }
    {
        let word = *self.words.get(self.at)?;
        self.at += 1;
        Some(word)
    }

    // Whether a bracket closes next.
    pub(crate) fn closes(&self) -> bool {
        matches!(self.words.get(self.at), Some(Word::Close(_)))
    }

    // What a word calls for that may not stand where it does, or the end: a name might stand there.
    pub(crate) fn unexpected(&self, word: Option<Word<'a>>) -> AriError {
        match word {
            None => AriError::Syntax { at: self.end },
            Some(Word::Odd(at)) => AriError::NotSpelt { at },
            Some(Word::Open(at) | Word::Close(at) | Word::Quoted(at)) => AriError::Syntax { at },
            Some(Word::Id(name)) => AriError::Syntax { at: name.at },
        }
    }

    // The name that is the next word.
    pub(crate) fn name(&mut self) -> Result<Name<'a>, AriError>
        ensures word { IfOk result (λ n. self.old ≡ name_sign n.text.now ∷ self.new) }
        ensures onward { length self.new ≤ length self.old }
    {
        match self.next() {
            Some(Word::Id(name)) => Ok(name),
            other => Err(self.unexpected(other)),
        }
    }

    // A bracket closes.
    pub(crate) fn close(&mut self) -> Result<(), AriError>
        ensures word { OnOk result (self.old ≡ closing ∷ self.new) }
        ensures onward { length self.new ≤ length self.old }
    {
        match self.next() {
            Some(Word::Close(_)) => Ok(()),
            other => Err(self.unexpected(other)),
        }
    }

    // Takes words up to the bracket that closes one which is open.
    fn skip(&mut self) -> Result<(), AriError>
        ensures body { OnOk result (IsBodyRead self.old self.new) }
        ensures onward { length self.new ≤ length self.old }
    {
        let mut open: usize = 0;
        'words: while let Some(word) = self.next() {
            match word {
                Word::Open(_) => {
                    let Some(more) = open.checked_add(1) else {
                        return Err(AriError::Syntax { at: self.end });
                    };
                    open = more;
                }
                Word::Close(_) => {
                    if open == 0 {
                        return Ok(());
                    }
                    open -= 1;
                }
                _ => {}
            }
        }
        Err(AriError::Syntax { at: self.end })
    }

    // The key word of the next part, if there is one. Parts that tell of a problem and not of its system are passed over.
    pub(crate) fn key(&mut self) -> Result<Option<Name<'a>>, AriError>
        ensures part { IfOk result (λ found. IsKeyRead self.old self.new found) }
        ensures onward { length self.new ≤ length self.old }
        ensures nearer { IfOk result (λ found. IfSome found (λ _. length self.new < length self.old)) }
    {
        'parts: loop {
            match self.next() {
                None => return Ok(None),
                Some(Word::Open(_)) => {}
                other => return Err(self.unexpected(other)),
            }
            let key = self.name()?;
            if !is(key, "meta-info") {
                return Ok(Some(key));
            }
            self.skip()?;
        }
    }
}
