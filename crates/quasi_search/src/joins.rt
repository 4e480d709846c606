//! Joins of overlaps: the first term to which both sides lead under the conditions.
ghost use Rattle.std.specs.Prelude.{ℕ, ◌≡◌, IfOk, List};
ghost use Rattle.rewriting.specs.Terms as terms;
ghost use Rattle.unifier_run.specs.Overlaps.{IsOverlapOf};
ghost use Rattle.certificates.specs.Evidence.{joined_pair};
ghost use Rattle.cert_model.specs.EvidenceView.{pair_evidence_view};
ghost use Rattle.critical_pairs.specs.View.{overlap_view};
ghost use Rattle.cc_count.specs.Counts.{Spends};
ghost use Rattle.reach_lists.specs.Solutions as math;
ghost use Rattle.reach_lists.specs.Laws.{IsWithoutRepetition};
ghost use Rattle.reach.specs.Keys.{cells};
ghost use Rattle.reach.specs.Parts.{DoAllFit};
ghost use Rattle.reach.specs.EntryView.{entry_view, table_view};
ghost use Rattle.pair_search.specs.Answers.{WalkAnswers};
ghost use Rattle.quasi_space.specs.QuasiItems.{quasi_item_cost, GivesQuasi, join_items};
ghost use Rattle.quasi_search.specs.Joins.{IsIndexOf, FindAnswers, SharedAnswers, JoinAnswers};

use crate::listed::listed_under;
use cc_count::{Budget, Sought};
use cert_model::PairEvidence;
use critical_pairs::Overlap;
use indexmap::IndexMap;
use prepared_system::PreparedSystem;
use reach::{Entry, key_of};
use std::alloc::Global;
use term_core::NoMemory;

// The terms of a list by their keys.
fn index_of<'a>(alloc: Global, list: &'a [Entry]) -> Result<IndexMap<Vec<u64>, &'a Entry>, NoMemory>
    requires fit { DoAllFit (table_view list.now) }
    requires once { IsWithoutRepetition (table_view list.now) }
    ensures { IfOk result (λ index. IsIndexOf (table_view list.now) index.entries) }
{
    let mut index = IndexMap::new(alloc);
    'list: for listed in list {
        let key = key_of(alloc, &listed.term)?;
        index.insert(key, listed)?;
    }
    Ok(index)
}

// The first listed term with a key.
fn listed_by<'a>(index: &IndexMap<Vec<u64>, &'a Entry>, key: &[u64]) -> Option<&'a Entry>
    ensures { (list : List math.Reached) (t : terms.Term) → IsIndexOf list index.now.entries → terms.Fits t → key.now ≡ cells t → FindAnswers list t result }
{
    let listed = index.get(key)?;
    Some(*listed)
}

// The first term of the left list that is on the right one, too, as it is listed on both.
fn first_shared<'a>(
    alloc: Global,
    left: &'a [Entry],
    right: &'a [Entry],
) -> Result<Option<(&'a Entry, &'a Entry)>, NoMemory>
    requires left { DoAllFit (table_view left.now) }
    requires right { DoAllFit (table_view right.now) }
    requires once { IsWithoutRepetition (table_view right.now) }
    ensures { SharedAnswers (table_view left.now) (table_view right.now) result }
{
    let index = index_of(alloc, right)?;
    'left: for first in left {
        let key = key_of(alloc, &first.term)?;
        if let Some(second) = listed_by(&index, &key) {
            return Ok(Some((first, second)));
        }
    }
    Ok(None)
}

// The evidence that two listed terms are one.
fn joined(alloc: Global, first: &Entry, second: &Entry) -> Result<PairEvidence, NoMemory>
    ensures { IfOk result (λ e. pair_evidence_view e ≡ joined_pair (entry_view first.now).by (entry_view second.now).by) }
{
    Ok(PairEvidence::Join {
        left: first.derivation(alloc)?,
        right: second.derivation(alloc)?,
    })
}

/// The evidence of the first term that is on both lists.
pub fn try_shared(
    alloc: Global,
    left: &[Entry],
    right: &[Entry],
) -> Result<Sought<PairEvidence>, NoMemory>
    requires left { DoAllFit (table_view left.now) }
    requires right { DoAllFit (table_view right.now) }
    requires once { IsWithoutRepetition (table_view right.now) }
    ensures { JoinAnswers (table_view left.now) (table_view right.now) result }
{
    match first_shared(alloc, left, right)? {
        Some((first, second)) => Ok(Sought::Found(joined(alloc, first, second)?)),
        None => Ok(Sought::Nothing),
    }
}

/// Lists the terms that the left side leads to, then those that the right side leads to, and takes the first shared one.
pub fn try_joins(
    alloc: Global,
    sys: &PreparedSystem<'_>,
    overlap: &Overlap,
    budget: &mut Budget,
) -> Result<Sought<PairEvidence>, NoMemory>
    requires overlap { IsOverlapOf sys.now (overlap_view overlap.now) }
    ensures answer { WalkAnswers quasi_item_cost (GivesQuasi sys.now (overlap_view overlap.now)) (join_items sys.now (overlap_view overlap.now)) budget.old budget.new result }
    ensures kept { (n : ℕ) × Spends budget.old n budget.new }
{
    let Some(left) = listed_under(alloc, sys, overlap, &overlap.left, budget)? else {
        return Ok(Sought::Spent);
    };
    let Some(right) = listed_under(alloc, sys, overlap, &overlap.right, budget)? else {
        return Ok(Sought::Spent);
    };
    try_shared(alloc, &left, &right)
}
