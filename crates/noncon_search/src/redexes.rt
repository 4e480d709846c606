//! For each redex of a term the first valid evidence that the conditions of its rule are never met there.
ghost use Rattle.rewriting.specs.Terms as math;
ghost use Rattle.term_core.specs.View.{view};
ghost use Rattle.noncon_search.specs.Refuted.{RefutedAnswers};

use crate::entries::EntryMaker;
use cert_model::Redex;
use renumbering::Numbering;
use rule_index::{IndexedSystem, PartWalk};
use std::alloc::Global;
use term_core::{NoMemory, Term};

/// For each redex of the term, in order, an entry with the first valid evidence; none where a redex has no valid evidence.
/// The entries have the number `which` for the term.
pub fn refute_redexes(
    alloc: Global,
    sys: &IndexedSystem<'_>,
    which: u32,
    term: &Term,
) -> Result<Option<Vec<Redex>>, NoMemory>
    requires fits { math.Fits (view term.now) }
    ensures { RefutedAnswers sys.now which (view term.now) result }
{
    sys.rules_are_sound();
    let mut numbering = Numbering::new(alloc);
    let numbered = numbering.numbered(alloc, term)?;
    let own = numbering.len() as u32;
    let maker = EntryMaker { sys, which, own };
    let mut entries = Vec::new(alloc);
    let mut walk = PartWalk::new(alloc, &numbered);
    'parts: while let Some(part) = walk.next()? {
        if !maker.add_part(alloc, part, walk.position(), &mut entries)? {
            return Ok(None);
        }
    }
    Ok(Some(entries))
}
