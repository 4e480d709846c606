//! Whether derivations can be spelt: how many steps they have, and how deep those for conditions are nested.
ghost use Rattle.std.specs.Prelude.{◌↔◌, IsTrue, map};
ghost use Rattle.certificates.specs.Derivations.{derivation_of, derivations_of};
ghost use Rattle.cert_model.specs.DerivationView.{derivation_view, step_view};
ghost use Rattle.cert_grammar.specs.Limits.{IsDerivation, IsStep, AreSteps, AreDerivations};

use crate::term_limits::{are_places, is_number};
use cert_grammar::MOST_STEPS;
use cert_model::{Derivation, Step};

/// Whether the derivation is short enough, and nested at most as deep as the levels.
#[cycle(is_derivation)]
#[tactic(auto, using(cert_model::proofs::DerivationViews::derivation_of_steps, crate::proofs::Spelt::steps_long))]
pub fn is_derivation(levels: u32, derivation: &Derivation) -> bool
    ensures { IsTrue result ↔ IsDerivation levels (derivation_view derivation.now) }
{
    if levels == 0 || derivation.steps.len() > MOST_STEPS as usize {
        return false;
    }
    are_steps(levels - 1, &derivation.steps)
}

#[cycle(is_derivation)]
fn are_steps(levels: u32, steps: &[Step]) -> bool
    ensures { IsTrue result ↔ AreSteps levels (derivation_of (map step_view steps.now)) }
{
    'each: for step in steps {
        if !is_step(levels, step) {
            return false;
        }
    }
    true
}

#[cycle(is_derivation)]
#[tactic(auto, using(cert_model::proofs::DerivationViews::step_of_rule, cert_model::proofs::DerivationViews::step_of_hypothesis, crate::proofs::Spelt::conditions_long))]
fn is_step(levels: u32, step: &Step) -> bool
    ensures { IsTrue result ↔ IsStep levels (step_view step.now) }
{
    match step {
        Step::Rule { rule, pos, conds } => {
            if !is_number(*rule) || !are_places(pos) || conds.len() > u32::MAX as usize {
                return false;
            }
            are_derivations(levels, conds)
        }
        Step::Hyp { number, pos } => is_number(*number) && are_places(pos),
    }
}

#[cycle(is_derivation)]
fn are_derivations(levels: u32, conds: &[Derivation]) -> bool
    ensures { IsTrue result ↔ AreDerivations levels (derivations_of (map derivation_view conds.now)) }
{
    'derivations: for cond in conds {
        if !is_derivation(levels, cond) {
            return false;
        }
    }
    true
}
