//! The names of the variables' block, with a table of first bytes and lengths by which most other names are told apart at once.
ghost use Rattle.std.specs.Prelude.{◌≡◌, ◌<◌};
ghost use Rattle.cops_names.specs.NameLists.{is_among};
ghost use Rattle.cops_read.specs.Shapes.{shape_of};
ghost use Rattle.cops_read.specs.declared.block.TheConstants.{SHAPES};

use cops_names::NameSet;
use std::marker::Model;

// How many shapes a name may have.
const SHAPES: usize = 2048;

// The names of the variables' block. Few symbols have the first byte and the length of a variable, so most are told
// by these alone to be none.
#[derive(Drop)]
pub(crate) struct Block<'a> {
    names: NameSet<'a>,
    // the shapes that some name has
    shapes: [bool; SHAPES],
}

impl<'a> Model for Block<'a> {
    ghost use Rattle.std.specs.Prelude.{◌≡◌, List, ℕ, length};

    ghost Value = { List (List ℕ) };

    ghost view = { λ b. b.names };

    ghost use Rattle.cops_read.specs.Shapes.{AreShown};

    ghost invariant = { λ b. AreShown b.shapes b.names };
}

// The first byte and the length of a name as one number, where seven bytes and more are one length.
fn shape(name: &[u8]) -> usize
    ensures shape { result ≡ shape_of name.now }
    ensures below { result < SHAPES }
{
    match name {
        [] => 0,
        [first, ..] => *first as usize + 256 * name.len().min(7),
    }
}

impl<'a> Block<'a> {
    /// These names.
    pub(crate) fn new(names: NameSet<'a>) -> Block<'a>
        ensures { result ≡ names.entry }
    {
        let mut shapes = [false; SHAPES];
        'names: for name in names.names() {
            shapes[shape(name.as_bytes())] = true;
        }
        Block { names, shapes }
    }

    /// Whether the name is there.
    pub(crate) fn has(&self, name: &str) -> bool
        ensures { result ≡ is_among self.now name.now }
    {
        self.shapes[shape(name.as_bytes())] && self.names.has(name)
    }
}
