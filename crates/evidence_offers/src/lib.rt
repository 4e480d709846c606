//! What is tried, one after the other, to show that conditions are never met: evidence by caps, then evidence by the
//! automata that grow from the left sides of the conditions.
#![tactic(auto)]

mod growth;

ghost use Rattle.std.specs.Prelude.{map};
ghost use Rattle.certificates.specs.Sizes.{DoConditionsFit};
ghost use Rattle.term_core.specs.RuleView.{condition_view};
ghost use Rattle.search_spaces.specs.Refuting.{try_growth};
ghost use Rattle.evidence_offers.specs.Answers.{OfferAnswers};
ghost use Rattle.evidence_offers.specs.RefutingView.{refuting_view};

use crate::growth::grown;
use cert_model::{InfEvidence, condition};
pub use growth::valid_growth;
use std::alloc::Global;
use term_core::{Cond, NoMemory, System};

/// Evidence to be tried for conditions.
#[derive(Clone, Copy, Debug, PartialEq, Eq)]
pub enum Refuting {
    /// By caps.
    Caps,
    /// By the automaton that grows from the left side of the condition with this number, from 1.
    Growth { cond: u32 },
}

// The automaton that grows from the left side of a condition, as evidence.
fn offer_growth(
    alloc: Global,
    sys: &System,
    conds: &[Cond],
    cond: u32,
) -> Result<Option<InfEvidence>, NoMemory>
    requires fit { DoConditionsFit (map condition_view conds.now) }
    ensures { OfferAnswers sys.now (map condition_view conds.now) (try_growth cond) result }
{
    let Some(asked) = condition(conds, cond) else {
        return Ok(None);
    };
    match grown(alloc, sys, &asked.left)? {
        Some(automaton) => Ok(Some(InfEvidence::Auto { cond, automaton })),
        None => Ok(None),
    }
}

/// The evidence that is to be tried, valid or not; none where there is no such condition, or where growth passes a limit.
pub fn offer(
    alloc: Global,
    sys: &System,
    conds: &[Cond],
    refuting: Refuting,
) -> Result<Option<InfEvidence>, NoMemory>
    requires fit { DoConditionsFit (map condition_view conds.now) }
    ensures { OfferAnswers sys.now (map condition_view conds.now) (refuting_view refuting) result }
{
    match refuting {
        Refuting::Caps => Ok(Some(InfEvidence::Tcap)),
        Refuting::Growth { cond } => offer_growth(alloc, sys, conds, cond),
    }
}
