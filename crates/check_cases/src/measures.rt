//! A measure that is no interpretation, and an interpretation.
use cert_model::{Linear, LinearEntry, MeasureReason};
use linear_interp::check_linear;
use measure::{Measure, MeasureError};
use std::alloc::Global;
use std::io;
use term_core::{Head, NoMemory, System};

/// Good for systems without rules: sizes fall.
pub struct NoRules;

impl Measure for NoRules {
    ghost use Rattle.measure.proofs.NoRules.{no_rules_bound};
    ghost use Rattle.check_cases.specs.NoRules.{IsJudgedWithoutRules, judged_once, judged_somehow};

    ghost judged = { λ m s j. IsJudgedWithoutRules s j };

    fn shows(&self, _alloc: Global, sys: &System) -> Result<(), MeasureError> {
        match sys.rules() {
            [] => Ok(()),
            _ => Err(MeasureError::Reason(MeasureReason::Constant { rule: 1 })),
        }
    }

    ghost some_judgement = { λ m s. judged_somehow s };

    ghost one_judgement = { λ m s j k h q. judged_once s j k h q };

    ghost bounds = { λ m s well h. no_rules_bound s well h };
}

// Symbol 0 of x is 1 + 1,000,000 x.
fn steep(alloc: Global) -> Result<Linear, NoMemory> {
    let f = LinearEntry {
        head: Head::File(0),
        coeffs: Vec::from_array(alloc, [1, 1_000_000])?,
    };
    Ok(Linear {
        entries: Vec::from_array(alloc, [f])?,
    })
}

/// What is said of a system with one steep interpretation.
pub fn print_linear(rt: &HostRuntime, sys: &System) -> io::Result<()> {
    match steep(rt.alloc()) {
        Ok(linear) => println!(rt; "{:?}", check_linear(rt.alloc(), sys, &linear)),
        Err(e) => println!(rt; "{e:?}"),
    }
}
