//! Unfeasible conditions: the left side of one leads to two absolutely irreducible terms that do not unify.
ghost use Rattle.std.specs.Prelude.{ℕ, ◌≡◌, ◌∷◌, [], ◌↔◌, Some, IfOk, IsTrue, map};
ghost use Rattle.rewriting.specs.Terms.{cons, nil};
ghost use Rattle.unifier_run.specs.Run.{clash, IsOutcome};
ghost use Rattle.unifier_run.specs.Overlaps.{IsOverlapOf};
ghost use Rattle.unification.specs.declared.Unified.TheVariants.{Clash};
ghost use Rattle.certificates.specs.Prelude.{unfeasible_pair, hypothesis_at};
ghost use Rattle.term_core.specs.Prelude.{view, condition_view};
ghost use Rattle.cert_model.specs.EvidenceView.{pair_evidence_view};
ghost use Rattle.critical_pairs.specs.View.{overlap_view};
ghost use Rattle.cc_count.specs.Counts.{Spends};
ghost use Rattle.reach_lists.specs.Laws.{EachOf};
ghost use Rattle.reach.specs.EntryView.{entry_view, table_view};
ghost use Rattle.search_spaces.specs.Listings.{pairs_of};
ghost use Rattle.pair_search.specs.Answers.{WalkAnswers};
ghost use Rattle.quasi_space.specs.QuasiItems.{quasi_item_cost, GivesQuasi, reduct_items};
ghost use Rattle.quasi_search.specs.Reducts.{reduct_view, reducts_view, pairs_with, condition_items, IsJudged, PairsAnswer};

use crate::listed::listed_under;
use cc_count::{Budget, Sought};
use cert_model::PairEvidence;
use critical_pairs::Overlap;
use irreducible::do_all_clash;
use prepared_system::PreparedSystem;
use reach::Entry;
use std::alloc::Global;
use term_core::{Cond, NoMemory};
use unification::{Unified, unify_terms};

// A listed term, and whether it is absolutely irreducible, which is asked once for all its pairs.
#[derive(Drop)]
struct Reduct<'a> {
    listed: &'a Entry,
    is_irreducible: bool,
}

// The terms of a list.
fn reducts_of<'a>(
    alloc: Global,
    sys: &PreparedSystem<'_>,
    list: &'a [Entry],
) -> Result<Vec<Reduct<'a>>, NoMemory>
    ensures listed { IfOk result (λ rs. reducts_view rs.items ≡ table_view list.now) }
    ensures judged { IfOk result (λ rs. EachOf (IsJudged sys.now) rs.items) }
{
    let mut reducts = Vec::with_capacity(alloc, list.len())?;
    'list: for listed in list {
        let is_irreducible = do_all_clash(alloc, sys, &listed.term)?;
        reducts.push(Reduct {
            listed,
            is_irreducible,
        })?;
    }
    Ok(reducts)
}

// Whether a run ended in a clash.
fn is_clash(outcome: &Unified) -> bool
    ensures { IsTrue result ↔ (outcome.now ≡ Clash) }
{
    matches!(outcome, Unified::Clash)
}

// Whether the run of unification for two terms ends in a clash.
fn do_clash(alloc: Global, first: &Entry, second: &Entry) -> Result<bool, NoMemory>
    ensures { IfOk result (λ b. IsTrue b ↔ IsOutcome (cons (view first.now.term) nil) (cons (view second.now.term) nil) clash) }
{
    let outcome = unify_terms(alloc, &first.term, &second.term)?;
    Ok(is_clash(&outcome))
}

// The evidence that two listed terms of the left side of a condition are irreducible and do not unify.
fn unfeasible(
    alloc: Global,
    cond: u32,
    first: &Entry,
    second: &Entry,
) -> Result<PairEvidence, NoMemory>
    ensures { IfOk result (λ e. pair_evidence_view e ≡ unfeasible_pair cond (entry_view first.now).by (entry_view second.now).by) }
{
    Ok(PairEvidence::Unfeasible {
        cond,
        first: first.derivation(alloc)?,
        second: second.derivation(alloc)?,
    })
}

// Tries two reducts of a condition, for a unit.
fn try_pair(
    alloc: Global,
    cond: u32,
    first: &Reduct<'_>,
    second: &Reduct<'_>,
    budget: &mut Budget,
) -> Result<Sought<PairEvidence>, NoMemory>
    ensures answer { PairsAnswer cond (first.now ∷ second.now ∷ []) ((reduct_view first.now, reduct_view second.now) ∷ []) budget.old budget.new result }
    ensures kept { (n : ℕ) × Spends budget.old n budget.new }
{
    if !budget.take() {
        return Ok(Sought::Spent);
    }
    if !first.is_irreducible {
        return Ok(Sought::Nothing);
    }
    if !second.is_irreducible {
        return Ok(Sought::Nothing);
    }
    if !do_clash(alloc, first.listed, second.listed)? {
        return Ok(Sought::Nothing);
    }
    Ok(Sought::Found(unfeasible(alloc, cond, first.listed, second.listed)?))
}

// Tries a reduct with each of later ones.
fn try_with(
    alloc: Global,
    cond: u32,
    first: &Reduct<'_>,
    later: &[Reduct<'_>],
    budget: &mut Budget,
) -> Result<Sought<PairEvidence>, NoMemory>
    ensures answer { PairsAnswer cond (first.now ∷ later.now) (pairs_with (reduct_view first.now) (reducts_view later.now)) budget.old budget.new result }
    ensures kept { (n : ℕ) × Spends budget.old n budget.new }
{
    'later: for second in later {
        match try_pair(alloc, cond, first, second, budget)? {
            Sought::Nothing => {}
            end => return Ok(end),
        }
    }
    Ok(Sought::Nothing)
}

// Tries all pairs of an earlier and a later reduct, by the earlier, then the later.
fn try_pairs(
    alloc: Global,
    cond: u32,
    reducts: &[Reduct<'_>],
    budget: &mut Budget,
) -> Result<Sought<PairEvidence>, NoMemory>
    ensures answer { PairsAnswer cond reducts.now (pairs_of (reducts_view reducts.now)) budget.old budget.new result }
    ensures kept { (n : ℕ) × Spends budget.old n budget.new }
{
    'firsts: for (i, first) in reducts.iter().enumerate() {
        let later = &reducts[i + 1..];
        match try_with(alloc, cond, first, later, budget)? {
            Sought::Nothing => {}
            end => return Ok(end),
        }
    }
    Ok(Sought::Nothing)
}

// Lists the terms that the left side of a condition leads to, and tries their pairs.
fn try_condition(
    alloc: Global,
    sys: &PreparedSystem<'_>,
    overlap: &Overlap,
    number: u32,
    cond: &Cond,
    budget: &mut Budget,
) -> Result<Sought<PairEvidence>, NoMemory>
    requires overlap { IsOverlapOf sys.now (overlap_view overlap.now) }
    requires cond { hypothesis_at (map condition_view overlap.now.conds.items) number ≡ Some (condition_view cond.now) }
    ensures answer { WalkAnswers quasi_item_cost (GivesQuasi sys.now (overlap_view overlap.now)) (condition_items sys.now (overlap_view overlap.now) number (view cond.now.left)) budget.old budget.new result }
    ensures kept { (n : ℕ) × Spends budget.old n budget.new }
{
    // The law tells that conditions are small.
    sys.rules_are_sound();
    let Some(list) = listed_under(alloc, sys, overlap, &cond.left, budget)? else {
        return Ok(Sought::Spent);
    };
    let reducts = reducts_of(alloc, sys, &list)?;
    try_pairs(alloc, number, &reducts, budget)
}

/// Tries the conditions in order, each with all pairs of an earlier and a later listed term of its left side.
pub fn try_reducts(
    alloc: Global,
    sys: &PreparedSystem<'_>,
    overlap: &Overlap,
    budget: &mut Budget,
) -> Result<Sought<PairEvidence>, NoMemory>
    requires overlap { IsOverlapOf sys.now (overlap_view overlap.now) }
    ensures answer { WalkAnswers quasi_item_cost (GivesQuasi sys.now (overlap_view overlap.now)) (reduct_items sys.now (map condition_view overlap.now.conds.items) 1 (map condition_view overlap.now.conds.items)) budget.old budget.new result }
    ensures kept { (n : ℕ) × Spends budget.old n budget.new }
{
    // The law tells that conditions are few.
    sys.rules_are_sound();
    'conds: for (i, cond) in overlap.conds.iter().enumerate() {
        let number = i as u32 + 1;
        match try_condition(alloc, sys, overlap, number, cond, budget)? {
            Sought::Nothing => {}
            end => return Ok(end),
        }
    }
    Ok(Sought::Nothing)
}
