//! A cell that is in no chain.
ghost use Rattle.std.specs.Prelude.{◌≡◌};
ghost use Rattle.flatterm.specs.declared.Node.{Node};
ghost use Rattle.flatterm.specs.Cells.{lone_owns};

use crate::Node;
use std::alloc::Global;
use std::marker::Model;

// A cell in a block of its own. Its links mean nothing.
pub(crate) struct LoneCell {
    pub(crate) at: *mut Node,
    pub(crate) alloc: Global,
    pub(crate) ghost value: { Node },
}

impl Model for LoneCell {
    ghost also_owns = { λ l. lone_owns l.alloc l.at l.value };
}

impl LoneCell {
    // A pointer can be followed and linked, and a box cannot.
    pub(crate) fn from_box(block: Box<Node, Global>) -> LoneCell
        ensures { result.value ≡ block.value }
    {
        let (at, alloc) = Box::into_raw_with_allocator(block);
        LoneCell { at, alloc }
    }

    // The box that frees the block.
    pub(crate) fn into_box(self) -> Box<Node, Global>
        ensures { result.value ≡ self.value }
    {
        let LoneCell { at, alloc } = self;
        unsafe { Box::from_raw(alloc, at) }
    }
}
