//! Steps that simplify a system, judged one by one and made one after the other.
ghost use Rattle.std.specs.Prelude.{◌≡◌, ◌+◌, ◌<◌, ◌⊎◌, IfOk, IfSome, IfNone, map};
ghost use Rattle.cert_model.specs.CertificateView.{simp_view};
ghost use Rattle.cert_model.specs.EvidenceView.{inf_evidence_view};
ghost use Rattle.certificates.specs.Certificates.{dropped, inlined};
ghost use Rattle.simplifications.specs.Laws.{AreSameByLevels};
ghost use Rattle.simplify.specs.Answers.{StepAnswers, SimplifyAnswers};

use crate::changes::{Change, changed};
use crate::copies::copied;
use crate::inlining::inline;
use crate::names::name;
use cert_model::{InfEvidence, Simp, SimpReason};
use infeasible::{Refusal, check_infeasible_in};
use rule_index::IndexedSystem;
use std::alloc::Global;
use term_core::{NoMemory, System, TermError};

/// Why a system is not simplified.
#[derive(Debug, Drop)]
pub enum SimplifyError {
    /// The first step that is not good, from 1.
    Fails { step: u32, reason: SimpReason },
    NoMemory,
}

/// Why one step is not good.
#[derive(Debug, Drop)]
pub enum StepError {
    Refused(SimpReason),
    NoMemory,
}

impl From<NoMemory> for StepError {
    ghost use Rattle.simplify.specs.declared.steps.StepError.TheVariants.{NoMemory as no_memory};

    ghost from_gives = { λ _ e. e ≡ no_memory };

    fn from(_e: NoMemory) -> StepError {
        StepError::NoMemory
    }
}

// The place of what has a number, from 1, among so many.
fn place_of(number: u32, count: usize) -> Option<usize>
    ensures some { IfSome result (λ p. (number ≡ p + 1) × (p < count)) }
    ensures none { IfNone result ((number ≡ 0) ⊎ (count < number)) }
{
    if number == 0 || number as usize > count {
        return None;
    }
    Some(number as usize - 1)
}

/// What dropping a rule changes, where the evidence shows that its conditions are never met.
pub fn drop_rule(
    alloc: Global,
    sys: &IndexedSystem,
    number: u32,
    evidence: &InfEvidence,
) -> Result<Change, StepError>
    ensures { StepAnswers sys.now (dropped number (inf_evidence_view evidence.now)) result }
{
    let rules = sys.rules();
    let Some(place) = place_of(number, rules.len()) else {
        return Err(StepError::Refused(SimpReason::NoRule));
    };
    match check_infeasible_in(alloc, sys, &rules[place].conds, evidence) {
        Ok(()) => Ok(Change { place, rule: None }),
        Err(Refusal::Reason(reason)) => Err(StepError::Refused(SimpReason::Evidence(reason))),
        Err(Refusal::NoMemory) => Err(StepError::NoMemory),
    }
}

/// What inlining a condition of a rule changes, where the condition only names its left side and the result fits.
pub fn inline_condition(
    alloc: Global,
    sys: &System,
    number: u32,
    cond: u32,
) -> Result<Change, StepError>
    ensures { StepAnswers sys.now (inlined number cond) result }
{
    let rules = sys.rules();
    let Some(place) = place_of(number, rules.len()) else {
        return Err(StepError::Refused(SimpReason::NoRule));
    };
    let rule = &rules[place];
    let Some(k) = place_of(cond, rule.conds.len()) else {
        return Err(StepError::Refused(SimpReason::NoCond));
    };
    let Some(x) = name(rule, k) else {
        return Err(StepError::Refused(SimpReason::NotInline));
    };
    match inline(alloc, rule, k, x) {
        Ok(new) => Ok(Change {
            place,
            rule: Some(new),
        }),
        Err(TermError::TooLarge) => Err(StepError::Refused(SimpReason::TooLarge)),
        Err(TermError::NoPosition) => unreachable!(),
        Err(TermError::NoMemory) => Err(StepError::NoMemory),
    }
}

// What one step changes. Only a rule that is dropped asks for an index of the rules.
fn change_of(alloc: Global, sys: &System, step: &Simp) -> Result<Change, StepError>
    ensures { StepAnswers sys.now (simp_view step.now) result }
{
    match step {
        Simp::Drop { rule, evidence } => {
            let indexed = IndexedSystem::new(alloc, sys)?;
            drop_rule(alloc, &indexed, *rule, evidence)
        }
        Simp::Inline { rule, cond } => inline_condition(alloc, sys, *rule, *cond),
    }
}

/// The system that the steps leave, each speaking of the one that those before it leave; or the first step that is not good,
/// and why. What the system's terms reach at each level is the same before and after.
pub fn simplify(alloc: Global, sys: &System, steps: &[Simp]) -> Result<System, SimplifyError>
    ensures answer { SimplifyAnswers sys.now (map simp_view steps.now) result }
    ensures levels { IfOk result (AreSameByLevels sys.now) }
{
    let Ok(mut current) = copied(alloc, sys) else {
        return Err(SimplifyError::NoMemory);
    };
    'turns: for (i, step) in steps.iter().enumerate() {
        match change_of(alloc, &current, step) {
            Ok(change) => current = changed(current, change),
            // Each good step leaves fewer rules and conditions, of which there are less than 2^31.
            Err(StepError::Refused(reason)) => {
                return Err(SimplifyError::Fails {
                    step: i as u32 + 1,
                    reason,
                });
            }
            Err(StepError::NoMemory) => return Err(SimplifyError::NoMemory),
        }
    }
    Ok(current)
}
