//! The rules that the standard steps leave as they are, and the overlaps of the last system, for which those of such rules are not made again.
ghost use Rattle.std.specs.Prelude.{◌≡◌, ◌<◌, ◌≤◌, IfOk, map, length};
ghost use Rattle.rewriting.specs.Rules as math;
ghost use Rattle.cert_model.specs.CertificateView.{simp_view};
ghost use Rattle.simplifications.specs.Simplifying.{AllSimplify};
ghost use Rattle.critical_pairs.specs.Kept.{AreOrigins};
ghost use Rattle.portfolio.specs.Following.{rule_of, followed};
ghost use Rattle.search_answers.specs.Given.{HasOverlaps};

use cert_model::Simp;
use critical_pairs::Overlap;
use prepared_system::PreparedSystem;
use search_answers::{overlaps_or_none, overlaps_or_none_with};
use std::alloc::Global;
use term_core::{NoMemory, System};

// Each rule is its own origin.
fn all_numbers(alloc: Global, sys: &System) -> Result<Vec<Option<u32>>, NoMemory>
    ensures { IfOk result (λ v. AreOrigins sys.now sys.now v.items) }
{
    let rules = sys.rules();
    let mut numbers = Vec::with_capacity(alloc, rules.len())?;
    for place in 0..rules.len() {
        numbers.push(Some(place as u32 + 1))?;
    }
    Ok(numbers)
}

// A rule that goes has no place any more, and one that changes no origin.
fn follow(step: &Simp, origins: &mut Vec<Option<u32>>)
    requires above { 0 < rule_of (simp_view step.now) }
    requires there { rule_of (simp_view step.now) ≤ length origins.old.items }
    ensures { origins.new.items ≡ followed (simp_view step.now) origins.old.items }
{
    match step {
        Simp::Drop { rule, .. } => {
            let _gone = origins.remove(*rule as usize - 1);
        }
        Simp::Inline { rule, .. } => origins[*rule as usize - 1] = None,
    }
}

// The number that each rule behind the steps has in the system, if no step touched it.
fn origins_of(alloc: Global, sys: &System, steps: &[Simp]) -> Result<Vec<Option<u32>>, NoMemory>
    requires { (last : math.System) × AllSimplify sys.now (map simp_view steps.now) last }
    ensures { (last : math.System) → AllSimplify sys.now (map simp_view steps.now) last → IfOk result (λ v. AreOrigins sys.now last v.items) }
{
    let mut origins = all_numbers(alloc, sys)?;
    for step in steps {
        follow(step, &mut origins);
    }
    Ok(origins)
}

/// The overlaps of the system that the steps leave, or none where they are refused. Those of two rules that no step touched are
/// moved out of the system's own list.
pub fn overlaps_behind(
    alloc: Global,
    sys: &System,
    known: Option<Vec<Overlap>>,
    steps: &[Simp],
    last: &PreparedSystem<'_>,
) -> Result<Option<Vec<Overlap>>, NoMemory>
    requires known { HasOverlaps sys.now known }
    requires steps { AllSimplify sys.now (map simp_view steps.now) last.now }
    ensures { IfOk result (HasOverlaps last.now) }
{
    let Some(known) = known else {
        return overlaps_or_none(alloc, last);
    };
    let origins = origins_of(alloc, sys, steps)?;
    overlaps_or_none_with(alloc, last, sys, &origins, known)
}
