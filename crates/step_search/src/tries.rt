//! One try after the other: what it gives.
ghost use Rattle.std.specs.Prelude.{◌≡◌, ◌-◌, ◌<◌, ◌≤◌, ◌*◌, ◌+◌, Some, length, map, slice_get};
ghost use Rattle.certificates.specs.Certificates.{dropped, inlined};
ghost use Rattle.cert_model.specs.EvidenceView.{inf_evidence_view};
ghost use Rattle.evidence_offers.specs.RefutingView.{refuting_view};
ghost use Rattle.rewriting.specs.Rules.{rule_at};
ghost use Rattle.search_spaces.specs.Refuting.{try_growth};
ghost use Rattle.simplified_spaces.specs.Tries as math;
ghost use Rattle.simplified_spaces.specs.Tries.{tries_of};
ghost use Rattle.term_core.specs.RuleView.{condition_view, rule_view};
ghost use Rattle.step_search.specs.Answers.{GoodAnswers, TryAnswers};

use cert_model::{InfEvidence, Simp};
use evidence_offers::{Refuting, valid_growth};
use rule_index::IndexedSystem;
use simplify::{Change, StepError, drop_rule, inline_condition};
use std::alloc::Global;
use term_core::{MAX_CONDITIONS, NoMemory, Rule};

/// A good step, and what it changes.
#[derive(Debug, Drop)]
pub struct Made {
    pub step: Simp,
    pub change: Change,
}

// Dropping a rule, where the evidence is valid.
fn dropping(
    alloc: Global,
    sys: &IndexedSystem,
    rule: u32,
    evidence: InfEvidence,
) -> Result<Option<Made>, NoMemory>
    ensures { GoodAnswers sys.now (dropped rule (inf_evidence_view evidence)) result }
{
    match drop_rule(alloc, sys, rule, &evidence) {
        Ok(change) => {
            let step = Simp::Drop { rule, evidence };
            Ok(Some(Made { step, change }))
        }
        Err(StepError::Refused(_)) => Ok(None),
        Err(StepError::NoMemory) => Err(NoMemory),
    }
}

// Inlining a condition, where it only names its left side and the result fits.
fn inlining(
    alloc: Global,
    sys: &IndexedSystem,
    rule: u32,
    cond: u32,
) -> Result<Option<Made>, NoMemory>
    ensures { GoodAnswers sys.now (inlined rule cond) result }
{
    match inline_condition(alloc, sys.system(), rule, cond) {
        Ok(change) => {
            let step = Simp::Inline { rule, cond };
            Ok(Some(Made { step, change }))
        }
        Err(StepError::Refused(_)) => Ok(None),
        Err(StepError::NoMemory) => Err(NoMemory),
    }
}

// Dropping the rule with a number by the automaton that grows from one of its conditions.
fn drop_by_growth(
    alloc: Global,
    sys: &IndexedSystem,
    number: u32,
    rule: &Rule,
    cond: u32,
) -> Result<Option<Made>, NoMemory>
    requires { rule_at sys.now number ≡ Some (rule_view rule.now) }
    ensures { TryAnswers sys.now (math.try_drop number (try_growth cond)) result }
{
    // The law tells that conditions are few and fit.
    sys.rules_are_sound();
    match valid_growth(alloc, sys.system(), &rule.conds, cond)? {
        Some(automaton) => {
            let evidence = InfEvidence::Auto { cond, automaton };
            dropping(alloc, sys, number, evidence)
        }
        None => Ok(None),
    }
}

// Dropping the rule with a number by evidence that is tried for its conditions.
fn try_drop(
    alloc: Global,
    sys: &IndexedSystem,
    number: u32,
    rule: &Rule,
    refuting: Refuting,
) -> Result<Option<Made>, NoMemory>
    requires { rule_at sys.now number ≡ Some (rule_view rule.now) }
    ensures { TryAnswers sys.now (math.try_drop number (refuting_view refuting)) result }
{
    match refuting {
        Refuting::Caps => dropping(alloc, sys, number, InfEvidence::Tcap),
        Refuting::Growth { cond } => drop_by_growth(alloc, sys, number, rule, cond),
    }
}

/// What the try behind the first `place` of the rule with a number gives: the rule has `count` conditions, first come caps, then
/// the automata grown from its conditions, then inlining them.
pub fn tried(
    alloc: Global,
    sys: &IndexedSystem,
    number: u32,
    rule: &Rule,
    place: u32,
) -> Result<Option<Made>, NoMemory>
    requires rule { rule_at sys.now number ≡ Some (rule_view rule.now) }
    requires few { length rule.now.conds.items ≤ MAX_CONDITIONS }
    ensures { (t : math.Try) → slice_get (tries_of number (map condition_view rule.now.conds.items)) place ≡ Some t → TryAnswers sys.now t result }
{
    let count = rule.conds.len() as u32;
    if place == 0 {
        try_drop(alloc, sys, number, rule, Refuting::Caps)
    } else if place <= count {
        try_drop(alloc, sys, number, rule, Refuting::Growth { cond: place })
    } else {
        inlining(alloc, sys, number, place - count)
    }
}
