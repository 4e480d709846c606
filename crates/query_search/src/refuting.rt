//! Evidence that the conditions are never met, tried in order up to the first that is valid.
ghost use Rattle.std.specs.Prelude.{◌≤◌, ◌∷◌, ◌*◌, [], length, map};
ghost use Rattle.certificates.specs.Sizes.{DoConditionsFit};
ghost use Rattle.term_core.specs.RuleView.{condition_view};
ghost use Rattle.search_spaces.specs.Refuting.{growths};
ghost use Rattle.evidence_offers.specs.RefutingView.{refuting_view};
ghost use Rattle.query_space.specs.Items as items;
ghost use Rattle.query_search.specs.Answers.{EvidenceAnswers, WalkAnswers};

use crate::reply::Reply;
use cc_count::Budget;
use cert_model::InfEvidence;
use evidence_offers::{Refuting, offer};
use infeasible::{Refusal, check_infeasible_in};
use rule_index::IndexedSystem;
use std::alloc::Global;
use term_core::{Cond, MAX_CONDITIONS, NoMemory};

// The evidence that is tried, where it is valid.
fn valid(
    alloc: Global,
    sys: &IndexedSystem<'_>,
    conds: &[Cond],
    refuting: Refuting,
) -> Result<Option<InfEvidence>, NoMemory>
    requires few { length conds.now ≤ 2 * MAX_CONDITIONS }
    requires fit { DoConditionsFit (map condition_view conds.now) }
    ensures { EvidenceAnswers sys.now (map condition_view conds.now) (refuting_view refuting) result }
{
    let Some(evidence) = offer(alloc, sys.system(), conds, refuting)? else {
        return Ok(None);
    };
    match check_infeasible_in(alloc, sys, conds, &evidence) {
        Ok(()) => Ok(Some(evidence)),
        Err(Refusal::Reason(_)) => Ok(None),
        Err(Refusal::NoMemory) => Err(NoMemory),
    }
}

// Tries an evidence, for a unit.
fn try_evidence(
    alloc: Global,
    sys: &IndexedSystem<'_>,
    conds: &[Cond],
    refuting: Refuting,
    budget: &mut Budget,
) -> Result<Reply, NoMemory>
    requires few { length conds.now ≤ 2 * MAX_CONDITIONS }
    requires fit { DoConditionsFit (map condition_view conds.now) }
    ensures { WalkAnswers sys.now (map condition_view conds.now) (items.try_refuting (refuting_view refuting) ∷ []) budget.old budget.new result }
{
    if !budget.take() {
        return Ok(Reply::Spent);
    }
    match valid(alloc, sys, conds, refuting)? {
        Some(evidence) => Ok(Reply::Infeasible(evidence)),
        None => Ok(Reply::Exhausted),
    }
}

// Tries the automata that grow from the conditions, in order.
fn try_growths(
    alloc: Global,
    sys: &IndexedSystem<'_>,
    conds: &[Cond],
    budget: &mut Budget,
) -> Result<Reply, NoMemory>
    requires few { length conds.now ≤ 2 * MAX_CONDITIONS }
    requires fit { DoConditionsFit (map condition_view conds.now) }
    ensures { WalkAnswers sys.now (map condition_view conds.now) (map items.try_refuting (growths (length conds.now))) budget.old budget.new result }
{
    let count = conds.len() as u32;
    'growths: for before in 0..count {
        let refuting = Refuting::Growth { cond: before + 1 };
        match try_evidence(alloc, sys, conds, refuting, budget)? {
            Reply::Exhausted => {}
            end => return Ok(end),
        }
    }
    Ok(Reply::Exhausted)
}

/// Tries all evidences: caps, then the automata.
pub(crate) fn try_evidences(
    alloc: Global,
    sys: &IndexedSystem<'_>,
    conds: &[Cond],
    budget: &mut Budget,
) -> Result<Reply, NoMemory>
    requires few { length conds.now ≤ 2 * MAX_CONDITIONS }
    requires fit { DoConditionsFit (map condition_view conds.now) }
    ensures { WalkAnswers sys.now (map condition_view conds.now) (items.evidence_items (map condition_view conds.now)) budget.old budget.new result }
{
    match try_evidence(alloc, sys, conds, Refuting::Caps, budget)? {
        Reply::Exhausted => try_growths(alloc, sys, conds, budget),
        end => Ok(end),
    }
}
