//! A term as its preorder, with a place in it.
ghost use Rattle.std.specs.Prelude.{◌≡◌, ℕ, List, ◌<◌, ◌≤◌, ◌+◌, ◌-◌, ◌^◌, min, length, slice_get, IfOk, IsSome, IsTrue, IsFalse, ◌↔◌};
ghost use Rattle.flatterm.specs.declared.Cell.{Cell};
ghost use Rattle.flatterm.specs.Place.{cells, place_in, preorder, IsFlat, Settles, Skips, Spliced, is_zero};
ghost use Rattle.flatterm.specs.Replaced.{Replaces, IsPreorder, IsPreorderOf};
ghost use Rattle.rewriting.specs.Terms as math;
ghost use Rattle.term_core.specs.View.{view as term_view};

use crate::work::Work;
use crate::{Cell, Chain, terms};
use std::alloc::Global;
use std::marker::Model;
use std::mem;
use term_core::{NoMemory, Term};

/// A term as its preorder, with a place in it: at a cell, or at the end behind the last one. In contracts it is the list of the
/// cells and the number of the place, from 0.
#[derive(Drop)]
pub struct Flat {
    chain: Chain,
    // Whether the place is the first: then no cell is before the subterm there, and a splice exchanges the whole.
    first: bool,
}

impl Model for Flat {
    ghost Value = { List Cell × ℕ };

    ghost view = { λ f. (cells f.chain.items, place_in f.chain.items f.chain.place) };

    ghost invariant = { λ f. IsFlat f.chain.items f.chain.place × (f.first ≡ is_zero f.chain.place) };
}

// Goes on over the ends of subterms, to a first cell or to the last end.
fn settle(chain: &mut Chain)
    ensures { (chain.new.items ≡ chain.old.items) × Settles chain.old.items chain.old.place chain.new.place }
{
    'over: loop {
        let here = chain.read();
        if let Some(_) = here.body.cell {
            return;
        }
        if here.last {
            return;
        }
        chain.step();
    }
}

impl Flat {
    /// The cells of a term, at the first. Fails where memory is refused.
    pub fn from_term(alloc: Global, t: &Term) -> Result<Flat, NoMemory>
        requires { math.Fits (term_view t.now) }
        ensures { IfOk result (λ f. f ≡ (preorder (term_view t.now), 0)) }
    {
        let chain = terms::laid(alloc, t)?;
        Ok(Flat { chain, first: true })
    }

    /// The term whose cells these are, wherever the place is. Fails where memory is refused.
    pub fn to_term(&self, alloc: Global) -> Result<Term, NoMemory>
        ensures { IfOk result (λ t. IsPreorderOf (term_view t) self.now.0) }
    {
        Ok(terms::term_of(alloc, &self.chain)?)
    }

    /// The cell at the place, or `None` at the end.
    pub fn cell(&self) -> Option<Cell>
        ensures cell { result ≡ slice_get self.now.0 self.now.1 }
        ensures place { self.now.1 ≤ length self.now.0 }
        ensures at_cell { IsSome result ↔ (self.now.1 < length self.now.0) }
        ensures whole { IsPreorder self.now.0 }
    {
        self.chain.read().body.cell
    }

    /// Goes back to the first cell.
    pub fn rewind(&mut self)
        ensures { (self.new.0 ≡ self.old.0) × (self.new.1 ≡ 0) }
    {
        self.chain.rewind();
        self.first = true;
    }

    /// Goes to the next cell, or from the last one to the end. At the end it stays, and answers false.
    pub fn next(&mut self) -> bool
        ensures answer { IsTrue result ↔ (self.old.1 < length self.old.0) }
        ensures cells { self.new.0 ≡ self.old.0 }
        ensures place { (IsTrue result → self.new.1 ≡ self.old.1 + 1) × (IsFalse result → self.new.1 ≡ self.old.1) }
    {
        let Some(_) = self.chain.read().body.cell else {
            return false;
        };
        self.chain.step();
        settle(&mut self.chain);
        self.first = false;
        true
    }

    /// Goes past the subterm that begins here. At the end it stays, and answers false.
    pub fn skip(&mut self) -> bool
        ensures answer { IsTrue result ↔ (self.old.1 < length self.old.0) }
        ensures cells { self.new.0 ≡ self.old.0 }
        ensures place { (IsTrue result → Skips self.old.0 self.old.1 self.new.1) × (IsFalse result → self.new.1 ≡ self.old.1) }
    {
        match self.chain.read().body.cell {
            Some(_) => {
                self.chain.jump();
                settle(&mut self.chain);
                self.first = false;
                true
            }
            None => false,
        }
    }

    /// Puts `with` in the place of the subterm that begins here, and hands that back, at its first cell. The place stays, and
    /// `with` begins there. It takes no memory and has no loop. `work` counts one splice.
    pub fn splice(&mut self, with: Flat, work: &mut Work) -> Flat
        requires { self.old.1 < length self.old.0 }
        ensures cells { Spliced self.old with.0 self.new result }
        ensures replaced { Replaces self.old with.0 self.new.0 result }
        ensures counted { work.new ≡ min (work.old + 1) (2 ^ 64 - 1) }
    {
        work.raise();
        let mut with = with;
        if self.first {
            mem::swap(self, &mut with);
            self.rewind();
            return with;
        }
        self.chain.exchange(&mut with.chain);
        with.first = true;
        with
    }
}
