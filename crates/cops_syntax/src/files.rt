//! From bytes to the syntax tree of a file.
ghost use Rattle.cops_syntax.specs.Answers.{TreeAnswers};

use crate::blocks::{Blocks, SyntaxRefusal};
use crate::reader::{TextError, WordReader, read_words};
use crate::tree::FileText;
use crate::word::Word;
use std::alloc::{AllocError, Global};

/// Why bytes have no syntax tree.
pub type SyntaxError = TextError<SyntaxRefusal>;

impl<'a> WordReader<'a> for Blocks<'a> {
    ghost use Rattle.cops_syntax.specs.States.{blocks_view};
    ghost use Rattle.cops_syntax.specs.Answers.{Follow, SpellFile, AreRefusedFor};

    type Tree = FileText<'a>;

    type Cause = SyntaxRefusal;

    ghost has_taken = { λ b ws. Follow ws (blocks_view b) };

    ghost spells = { SpellFile };

    ghost refuses = { AreRefusedFor };

    fn take(&mut self, alloc: Global, word: Word<'a>) -> Result<Option<SyntaxRefusal>, AllocError> {
        self.step(alloc, word)
    }

    fn end(self, alloc: Global) -> Result<FileText<'a>, SyntaxRefusal> {
        self.finish(alloc)
    }
}

/// The syntax tree that the bytes spell, or the first refusal.
pub fn parse(alloc: Global, bytes: &[u8]) -> Result<FileText<'_>, SyntaxError>
    ensures { TreeAnswers bytes.now result }
{
    read_words(alloc, bytes, Blocks::new())
}
