//! Linear interpretations of the unraveled system as a measure.
#![tactic(auto)]

mod rules;
mod shape;
mod sums;

ghost use Rattle.std.specs.Prelude.{map};
ghost use Rattle.cert_model.specs.CertificateView.{linear_entry_view};
ghost use Rattle.interpretations.specs.Judged.{IsInterpretationJudged};
ghost use Rattle.measure.specs.Answers.{ShowsAnswers};
ghost use Rattle.unravel.specs.Answers.{IsUnraveled};

pub use crate::rules::does_fall;
use crate::rules::judge_rules;
use crate::shape::{first_bad, first_misshapen};
use cert_model::{Linear, LinearEntry, MeasureReason};
use measure::{Measure, MeasureError};
use std::alloc::Global;
use term_core::System;
use unravel::{UnravelError, Unraveled, unravel};

// Judges the entries of an interpretation for an unraveled system.
fn judge(
    alloc: Global,
    sys: &System,
    unraveled: &Unraveled,
    entries: &[LinearEntry],
) -> Result<(), MeasureError>
    requires { IsUnraveled sys.now unraveled.now }
    ensures { ShowsAnswers (IsInterpretationJudged sys.now (map linear_entry_view entries.now)) result }
{
    // The system's own rules are over its symbols: what the sums of the unraveled sides rest on.
    let own_rules = sys.rules();
    prove!(own_rules.len() < u32::MAX as usize);
    let rules = unraveled.system.rules();
    let arities = unraveled.system.arities();
    if let Some(k) = first_misshapen(&unraveled.heads, arities, entries) {
        return Err(MeasureError::Reason(MeasureReason::Shape {
            entry: k as u32 + 1,
        }));
    }
    if let Some(k) = first_bad(sys.arities().len(), entries) {
        return Err(MeasureError::Reason(MeasureReason::Coefficient {
            entry: k as u32 + 1,
        }));
    }
    judge_rules(alloc, entries, rules)
}

/// Judges an interpretation over the natural numbers for the unraveling of a system (Baader and Nipkow, Term Rewriting
/// and All That, chapter 5): good, or the first reason why it is not, or the first rule of which a side of the unraveled
/// system does not fit.
pub fn check_linear(alloc: Global, sys: &System, linear: &Linear) -> Result<(), MeasureError>
    ensures { ShowsAnswers (IsInterpretationJudged sys.now (map linear_entry_view linear.now.entries.items)) result }
{
    let unraveled = match unravel(alloc, sys) {
        Ok(unraveled) => unraveled,
        Err(UnravelError::TooLarge { rule }) => return Err(MeasureError::Unraveling { rule }),
        Err(UnravelError::NoMemory) => return Err(MeasureError::NoMemory),
    };
    judge(alloc, sys, &unraveled, &linear.entries)
}

/// A linear interpretation as a measure.
#[derive(Clone, Copy, Debug)]
pub struct LinearMeasure<'a> {
    pub linear: &'a Linear,
}

impl<'a> Measure for LinearMeasure<'a> {
    ghost use Rattle.interpretations.specs.Judged.{IsInterpretationJudged};
    ghost use Rattle.interpretations.proofs.Bound.{good_bounds};
    ghost use Rattle.interpretations.proofs.OneJudgement.{judgement_once};
    ghost use Rattle.interpretations.proofs.Total.{interpretation_total};
    ghost use Rattle.cert_model.specs.CertificateView.{linear_entry_view};
    ghost use Rattle.std.specs.Prelude.{map};

    ghost judged = { λ m s j. IsInterpretationJudged s (map linear_entry_view m.linear.now.entries.items) j };

    fn shows(&self, alloc: Global, sys: &System) -> Result<(), MeasureError> {
        check_linear(alloc, sys, self.linear)
    }

    ghost some_judgement = { λ m s. interpretation_total s (map linear_entry_view m.linear.now.entries.items) };

    ghost one_judgement = { λ m s j k h q. judgement_once s (map linear_entry_view m.linear.now.entries.items) j k h q };

    ghost bounds = { λ m s well h. good_bounds s (map linear_entry_view m.linear.now.entries.items) well h.1 };
}
