//! Why a derivation has no end: its first bad step, by a path through steps and conditions and a reason; or want of memory.
ghost use Rattle.std.specs.Prelude.{◌≡◌};
ghost use Rattle.cert_model.specs.ReasonView.{step_reason_view};
ghost use Rattle.derivation.specs.Errors.{IsBelow, IsHere};

use cert_model::{BadStep, StepReason};
use std::alloc::Global;
use term_core::NoMemory;

/// Why a derivation has no end.
#[derive(Debug, Drop, PartialEq, Eq)]
pub enum ReplayError {
    /// Its first bad step.
    Bad(BadStep),
    NoMemory,
}

impl From<NoMemory> for ReplayError {
    ghost use Rattle.derivation.specs.declared.errors.ReplayError.TheVariants.{NoMemory as no_memory};

    ghost from_gives = { λ _ e. e ≡ no_memory };

    fn from(_e: NoMemory) -> ReplayError {
        ReplayError::NoMemory
    }
}

// The reason, found at the step or condition that is being judged.
pub fn here(alloc: Global, reason: StepReason) -> ReplayError
    ensures { IsHere (step_reason_view reason) result }
{
    ReplayError::Bad(BadStep {
        path: Vec::new(alloc),
        reason,
    })
}

// The error, found below the step or condition with a number.
pub fn below(number: u32, e: ReplayError) -> ReplayError
    ensures { IsBelow number e result }
{
    let ReplayError::Bad(mut bad) = e else {
        return ReplayError::NoMemory;
    };
    match bad.path.insert(0, number) {
        Ok(()) => ReplayError::Bad(bad),
        Err(_) => ReplayError::NoMemory,
    }
}
