//! Measures that bound the descents of the unraveled system.
#![tactic(auto)]

ghost use Rattle.std.specs.Prelude.{◌≡◌};
ghost use Rattle.rewriting.specs.Rules as math;
ghost use Rattle.rewriting.specs.Prelude.{IsWellFormed, AreDescentsBounded};
ghost use Rattle.interpretations.specs.Judgement.{Judgement, good};
ghost use Rattle.measure.specs.Answers.{ShowsAnswers};

use cert_model::MeasureReason;
use std::alloc::Global;
use term_core::{NoMemory, System};

/// Why a measure does not show that descents are bounded.
#[derive(Clone, Copy, Debug, PartialEq, Eq)]
pub enum MeasureError {
    /// The measure is not good: the first reason.
    Reason(MeasureReason),
    /// A side of the unraveled system that comes from this rule of the conditional system does not fit; it is the first
    /// such rule, from 1.
    Unraveling { rule: u32 },
    NoMemory,
}

impl From<NoMemory> for MeasureError {
    ghost use Rattle.measure.specs.declared.MeasureError.TheVariants.{NoMemory as no_memory};

    ghost from_gives = { λ _ e. e ≡ no_memory };

    fn from(_e: NoMemory) -> MeasureError {
        MeasureError::NoMemory
    }
}

/// What the first part of a measure shows of all that extend it.
#[derive(Clone, Copy, Debug, PartialEq, Eq)]
pub enum Partial {
    /// Nothing good extends it.
    Dead,
    Unknown,
}

/// A measure of terms over the unraveled system.
pub trait Measure {
    /// What the measure is judged to be for a system: good, or the first reason, or that a side does not fit.
    ghost judged: { Self → math.System → Judgement → Type 0 };

    /// Judges the measure for a system.
    fn shows(&self, alloc: Global, sys: &System) -> Result<(), MeasureError>
        ensures { ShowsAnswers (judged self.now sys.now) result };

    /// The measure has a judgement for each system.
    ghost some_judgement: { (m : Self) (s : math.System) → (j : Judgement) × judged m s j };

    /// And no two, so that it is good or not, whichever judgement is named.
    ghost one_judgement: { (m : Self) (s : math.System) (j k : Judgement) → judged m s j → judged m s k → j ≡ k };

    /// Where the measure is good, each term over the symbols of the unraveled system has a number that no list of
    /// descents from it passes in length.
    ghost bounds: { (m : Self) (s : math.System) → IsWellFormed s → judged m s good → AreDescentsBounded s };
}
