//! Terms as flat terms: the preorder of a term as cells that are linked both ways, where the first cell of a subterm leads to
//! the subterm's end (J. Christian, "Flatterms, discrimination nets, and fast term rewriting", Journal of Automated Reasoning
//! 10, 1993). So a subterm is passed by one step, and another one takes its place by a few writes, whatever the sizes of both.
//!
//! Each subterm has an end of its own, a cell to which no other first cell leads. So no other first cell has to lead elsewhere
//! when a subterm gives way, which would be so where the subterms at a right edge shared an end. The price is a second cell for
//! each node.
#![tactic(auto)]

ghost use Rattle.std.specs.Prelude.{◌≡◌, ℕ, List, [], ◌∷◌, ◌++◌, ◌<◌, ◌+◌, length, true};
ghost use Rattle.std.specs.Coded.{prop_coded};
ghost use denote.RawPtr.{Ptr, null_ptr};
ghost use Rattle.flatterm.specs.declared.Body.{Body};
ghost use Rattle.flatterm.specs.declared.Node.{Node};
ghost use Rattle.flatterm.specs.Cells.{chain, chain_lent, IsAt, last_from, IsNodeAt};
ghost use Rattle.flatterm.specs.Laid.{BeginsAt, Jumps, IsInside, IsWhole, Splices, IsOpen, Appends, Starts};

mod flat;
mod lone;
mod terms;
mod work;

use cc_count::ProofCount;
pub use flat::Flat;
use lone::LoneCell;
use std::alloc::Global;
use std::marker::Model;
pub use work::Work;

/// A cell of a term's preorder.
#[derive(Clone, Copy, Debug, PartialEq, Eq)]
pub enum Cell {
    /// A variable, by its number.
    Var(u32),
    /// A symbol, by its number, and how many arguments it has.
    Fun(u32, u32),
}

// A cell but for its neighbours. With no `cell` it ends a subterm, and then `end` means nothing. Otherwise it is the first of a
// subterm, and `end` leads to that subterm's end.
#[derive(Clone, Copy)]
pub(crate) struct Body {
    pub(crate) end: *mut Node,
    pub(crate) cell: Option<Cell>,
}

// A cell as it lies in memory. `next` of the last and `prev` of the first mean nothing. Pointers into two blocks are not to be
// compared, so the last cell has a mark.
#[derive(Clone, Copy)]
pub(crate) struct Node {
    pub(crate) next: *mut Node,
    pub(crate) last: bool,
    pub(crate) prev: *mut Node,
    pub(crate) body: Body,
}

// Cells that are linked both ways, and a place among them, which never leaves them. Each cell has a block of its own. Who
// follows a pointer is proved statement by statement, so each function here does little.
pub(crate) struct Chain {
    head: *mut Node,
    tail: *mut Node,
    at: *mut Node,
    alloc: Global,
    ghost items: { List (Ptr × Body) },
    ghost place: { ℕ },
    ghost before: { Ptr },
    ghost after: { Ptr },
    ghost here: { IsAt items place at },
    ghost first: { IsAt items 0 head },
    ghost ending: { last_from null_ptr items ≡ tail },
}

impl Model for Chain {
    ghost also_owns = { λ c. chain c.alloc c.before c.items (c.after, true) };

    ghost also_shares = { λ c _ κ. chain_lent c.before c.items (c.after, true) κ };
}

impl Chain {
    // The cell at the place.
    pub(crate) fn read(&self) -> Node
        ensures { IsNodeAt self.now.before self.now.items (self.now.after, true) self.now.place result }
    {
        let at = self.at;
        unsafe { *at }
    }

    // Where the first cell lies.
    pub(crate) fn begin(&self) -> *mut Node
        ensures { IsAt self.now.items 0 result }
    {
        self.head
    }

    // The cell at `at`. Its index is for the proof alone.
    pub(crate) fn look(&self, at: *mut Node, index: &ProofCount) -> Node
        requires { IsAt self.now.items index.now.number at }
        ensures { IsNodeAt self.now.before self.now.items (self.now.after, true) index.now.number result }
    {
        let here = at;
        unsafe { *here }
    }

    // Goes to the next cell.
    pub(crate) fn step(&mut self)
        requires { self.old.place + 1 < length self.old.items }
        ensures { (self.new.items ≡ self.old.items) × (self.new.place ≡ self.old.place + 1) }
    {
        unsafe {
            self.at = (*self.at).next;
        }
    }

    // Goes to the end of the subterm that begins here.
    pub(crate) fn jump(&mut self)
        requires { BeginsAt self.old.items self.old.place }
        ensures { (self.new.items ≡ self.old.items) × Jumps self.old.items self.old.place self.new.place }
    {
        unsafe {
            self.at = (*self.at).body.end;
        }
    }

    // Puts the cells of `with` in the place of those of the subterm that begins here, and those into `with`.
    pub(crate) fn exchange(&mut self, with: &mut Chain)
        requires { IsInside self.old.items self.old.place × IsWhole with.old.items }
        ensures { Splices self.old.items self.old.place with.old.items self.new.items with.new.items × (self.new.place ≡ self.old.place) × (with.new.place ≡ 0) }
    {
        let first = self.at;
        let begin = with.head;
        let end = with.tail;
        unsafe {
            let last = (*first).body.end;
            let before = (*first).prev;
            let after = (*last).next;
            (*before).next = begin;
            (*begin).prev = before;
            (*end).next = after;
            (*end).last = false;
            (*after).prev = end;
            (*last).last = true;
            with.tail = last;
        }
        self.at = begin;
        with.head = first;
        with.at = first;
    }

    // Takes the first cell out, and goes to the one after it.
    pub(crate) fn pop(&mut self) -> LoneCell
        requires { 1 < length self.old.items }
        ensures { (self.old.items ≡ (result.at, result.value.body) ∷ self.new.items) × (self.new.place ≡ 0) }
    {
        let first = self.head;
        unsafe {
            let next = (*first).next;
            self.head = next;
            self.at = next;
        }
        LoneCell {
            at: first,
            alloc: self.alloc,
        }
    }

    // Goes back to the first cell.
    pub(crate) fn rewind(&mut self)
        ensures { (self.new.items ≡ self.old.items) × (self.new.place ≡ 0) }
    {
        self.at = self.head;
    }

    // The only cell.
    pub(crate) fn into_lone(self) -> LoneCell
        requires { length self.items ≡ 1 }
        ensures { self.items ≡ (result.at, result.value.body) ∷ [] }
    {
        let Chain {
            head,
            tail: _,
            at: _,
            alloc,
        } = self;
        LoneCell { at: head, alloc }
    }

    // Puts the cells of `with` before the last cell, which ends a subterm.
    pub(crate) fn append(&mut self, with: Chain)
        requires { (self.old.place ≡ 0) × IsOpen self.old.items × IsWhole with.items }
        ensures { Appends self.old.items with.items self.new.items × (self.new.place ≡ 0) }
    {
        let Chain {
            head: begin,
            tail: end,
            at: _,
            alloc: _,
        } = with;
        let last = self.tail;
        unsafe {
            let before = (*last).prev;
            (*before).next = begin;
            (*begin).prev = before;
            (*end).next = last;
            (*end).last = false;
            (*last).prev = end;
        }
    }

    // Two cells: a subterm with nothing inside.
    pub(crate) fn start(begin: LoneCell, end: LoneCell) -> Chain
        ensures { Starts begin.at end.at begin.value.body end.value.body result.items × (result.place ≡ 0) }
    {
        let LoneCell { at: open, alloc } = begin;
        let LoneCell { at: end, alloc: _ } = end;
        unsafe {
            (*open).next = end;
            (*open).last = false;
            (*open).body.end = end;
            (*end).prev = open;
            (*end).last = true;
        }
        Chain {
            head: open,
            tail: end,
            at: open,
            alloc,
        }
    }
}

// Frees the cells one by one, with no recursion.
fn free(chain: Chain) {
    let mut chain = chain;
    chain.rewind();
    'cells: loop {
        if chain.read().last {
            break;
        }
        drop(chain.pop().into_box());
    }
    drop(chain.into_lone().into_box());
}

impl Drop for Chain {
    fn drop(self) {
        free(self);
    }
}
