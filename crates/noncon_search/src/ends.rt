//! The listed terms of a start, with what is asked of each once for all its pairs.
ghost use Rattle.std.specs.Prelude.{◌≡◌, IfOk};
ghost use Rattle.rewriting.specs.Terms as math;
ghost use Rattle.reach_lists.specs.Laws.{EachOf};
ghost use Rattle.reach.specs.Parts.{DoAllFit};
ghost use Rattle.reach.specs.EntryView.{table_view};
ghost use Rattle.term_core.specs.View.{view};
ghost use Rattle.noncon_search.specs.Ends.{ends_view, IsEnd, AreMet};
ghost use Rattle.noncon_search.specs.Laying.{IsLaid};

use crate::made_caps::cap_of;
use crate::overlay::Overlay;
use crate::redexes::refute_redexes;
use reach::Entry;
use rule_index::IndexedSystem;
use std::alloc::Global;
use term_core::{NoMemory, Term};

/// A listed term, and what is asked of it: whether each redex of it has valid evidence, its rigid cap where it was made, and
/// whether that is known to clash with none of an earlier end. The evidence itself is made again for ends that are apart,
/// since that of thousands of terms would take much memory.
#[derive(Drop)]
pub struct End<'a> {
    pub listed: &'a Entry,
    pub is_refuted: bool,
    pub cap: Option<Term>,
    pub is_met: bool,
}

// The end that a listed term is, whose cap is laid upon those of the ends before.
fn end_of<'a>(
    alloc: Global,
    sys: &IndexedSystem<'_>,
    listed: &'a Entry,
    overlay: &mut Overlay,
) -> Result<End<'a>, NoMemory>
    requires fits { math.Fits (view listed.now.term) }
    ensures listed { IfOk result (λ e. e.listed.now ≡ listed.now) }
    ensures end { IfOk result (IsEnd sys.now) }
    ensures laid { IfOk result (λ e. IsLaid overlay.old overlay.new e.cap e.is_met) }
{
    let entries = refute_redexes(alloc, sys, 1, &listed.term)?;
    let cap = cap_of(alloc, sys, &listed.term)?;
    let is_met = overlay.add(alloc, &cap)?;
    Ok(End {
        listed,
        is_refuted: entries.is_some(),
        cap,
        is_met,
    })
}

/// The ends that a list gives.
pub fn ends_of<'a>(
    alloc: Global,
    sys: &IndexedSystem<'_>,
    list: &'a [Entry],
) -> Result<Vec<End<'a>>, NoMemory>
    requires fit { DoAllFit (table_view list.now) }
    ensures listed { IfOk result (λ es. ends_view es.items ≡ table_view list.now) }
    ensures ends { IfOk result (λ es. EachOf (IsEnd sys.now) es.items) }
    ensures met { IfOk result (λ es. AreMet sys.now es.items) }
{
    let mut overlay = Overlay::new();
    let mut ends = Vec::with_capacity(alloc, list.len())?;
    'list: for listed in list {
        ends.push(end_of(alloc, sys, listed, &mut overlay)?)?;
    }
    Ok(ends)
}
