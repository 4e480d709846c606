//! The positions of a left side at which another rule may overlap it.
ghost use Rattle.std.specs.Prelude.{◌≡◌, ◌++◌, IfOk, OnOk, map};
ghost use Rattle.rewriting.specs.Terms.{Fits};
ghost use Rattle.term_core.specs.View.{view};
ghost use Rattle.critical_pairs.specs.Places.{place_view, root_at, places_of};

use crate::pairs::copy;
use rule_index::PartWalk;
use std::alloc::Global;
use term_core::{NoMemory, Term};

/// A position where no variable stands, and the root of the subterm there.
#[derive(Debug, Drop)]
pub struct Place {
    pub pos: Vec<u32>,
    pub root: u32,
}

// Appends the place of a part at a position, unless it is a variable.
fn add_place(alloc: Global, part: &Term, pos: &[u32], out: &mut Vec<Place>) -> Result<(), NoMemory>
    ensures { OnOk result (map place_view out.new.items ≡ map place_view out.old.items ++ root_at pos.now (view part.now)) }
{
    let Term::Fun(root, _) = part else {
        return Ok(());
    };
    let here = copy(alloc, pos)?;
    out.push(Place {
        pos: here,
        root: *root,
    })?;
    Ok(())
}

/// The places of a left side, in preorder.
pub fn places(alloc: Global, left: &Term) -> Result<Vec<Place>, NoMemory>
    requires { Fits (view left.now) }
    ensures { IfOk result (λ ps. map place_view ps.items ≡ places_of (view left.now)) }
{
    let mut out = Vec::new(alloc);
    let mut walk = PartWalk::new(alloc, left);
    'parts: while let Some(part) = walk.next()? {
        add_place(alloc, part, walk.position(), &mut out)?;
    }
    Ok(out)
}
