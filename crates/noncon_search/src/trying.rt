//! What is tried for conditions, up to the first evidence that is valid: caps, then the automata that grow from conditions.
ghost use Rattle.std.specs.Prelude.{◌≤◌, ◌*◌, length, map};
ghost use Rattle.certificates.specs.Sizes.{DoConditionsFit};
ghost use Rattle.term_core.specs.RuleView.{condition_view};
ghost use Rattle.search_spaces.specs.Refuting.{growths, refutings, try_caps, try_growth};
ghost use Rattle.noncon_search.specs.Trying.{ItemAnswers, FirstAnswers};

use cert_model::InfEvidence;
use evidence_offers::valid_growth;
use infeasible::{Refusal, check_infeasible_in};
use rule_index::IndexedSystem;
use std::alloc::Global;
use term_core::{Cond, MAX_CONDITIONS, NoMemory};

// Evidence by caps, where it is valid.
fn by_caps(
    alloc: Global,
    sys: &IndexedSystem<'_>,
    conds: &[Cond],
) -> Result<Option<InfEvidence>, NoMemory>
    requires few { length conds.now ≤ 2 * MAX_CONDITIONS }
    requires fit { DoConditionsFit (map condition_view conds.now) }
    ensures { ItemAnswers sys.now (map condition_view conds.now) try_caps result }
{
    match check_infeasible_in(alloc, sys, conds, &InfEvidence::Tcap) {
        Ok(()) => Ok(Some(InfEvidence::Tcap)),
        Err(Refusal::Reason(_)) => Ok(None),
        Err(Refusal::NoMemory) => Err(NoMemory),
    }
}

// The automaton that grows from the condition with a number, where it is valid.
fn by_growth(
    alloc: Global,
    sys: &IndexedSystem<'_>,
    conds: &[Cond],
    cond: u32,
) -> Result<Option<InfEvidence>, NoMemory>
    requires few { length conds.now ≤ 2 * MAX_CONDITIONS }
    requires fit { DoConditionsFit (map condition_view conds.now) }
    ensures { ItemAnswers sys.now (map condition_view conds.now) (try_growth cond) result }
{
    match valid_growth(alloc, sys.system(), conds, cond)? {
        Some(automaton) => Ok(Some(InfEvidence::Auto { cond, automaton })),
        None => Ok(None),
    }
}

// The first valid automaton that grows from a condition, in order.
fn try_growths(
    alloc: Global,
    sys: &IndexedSystem<'_>,
    conds: &[Cond],
) -> Result<Option<InfEvidence>, NoMemory>
    requires few { length conds.now ≤ 2 * MAX_CONDITIONS }
    requires fit { DoConditionsFit (map condition_view conds.now) }
    ensures { FirstAnswers sys.now (map condition_view conds.now) (growths (length conds.now)) result }
{
    let count = conds.len() as u32;
    'growths: for before in 0..count {
        if let Some(evidence) = by_growth(alloc, sys, conds, before + 1)? {
            return Ok(Some(evidence));
        }
    }
    Ok(None)
}

/// The first valid evidence for the conditions: by caps, or by the automaton that grows from a condition.
pub(crate) fn first_valid(
    alloc: Global,
    sys: &IndexedSystem<'_>,
    conds: &[Cond],
) -> Result<Option<InfEvidence>, NoMemory>
    requires few { length conds.now ≤ 2 * MAX_CONDITIONS }
    requires fit { DoConditionsFit (map condition_view conds.now) }
    ensures { FirstAnswers sys.now (map condition_view conds.now) (refutings (length conds.now)) result }
{
    match by_caps(alloc, sys, conds)? {
        Some(evidence) => Ok(Some(evidence)),
        None => try_growths(alloc, sys, conds),
    }
}
