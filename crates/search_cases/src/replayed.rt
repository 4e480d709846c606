//! Whether the derivations of an answer replay.
ghost use Rattle.std.specs.Prelude.{map};
ghost use Rattle.rewriting.specs.Terms as math;
ghost use Rattle.certificates.specs.Sizes.{IsShort, DoConditionsFit};
ghost use Rattle.reach_lists.specs.Laws.{EachOf};
ghost use Rattle.term_core.specs.Prelude.{view, condition_view};
ghost use Rattle.cert_model.specs.DerivationView.{derivation_view};

use cert_model::Derivation;
use derivation::replay;
use std::alloc::Global;
use term_core::{Cond, NoMemory, Subst, System, Term, equal, try_clone};

// The substitution of these values, by number.
fn by_number(alloc: Global, values: &[Term]) -> Result<Subst, NoMemory> {
    let mut all = Subst::new(alloc);
    for (i, value) in values.iter().enumerate() {
        let Ok(x) = u32::try_from(i) else {
            return Err(NoMemory);
        };
        all.bind(x, try_clone(alloc, value)?)?;
    }
    Ok(all)
}

// Whether the derivation leads from the instance of the left side to that of the right side.
fn is_replayed(alloc: Global, sys: &System, cond: &Cond, values: &Subst, d: &Derivation) -> bool
    requires left { math.Fits (view cond.now.left) }
    requires right { math.Fits (view cond.now.right) }
    requires short { IsShort (derivation_view d.now) }
{
    let Ok(start) = values.apply(alloc, &cond.left) else {
        return false;
    };
    let Ok(end) = values.apply(alloc, &cond.right) else {
        return false;
    };
    match replay(alloc, sys, &[], &start, d) {
        Ok(reached) => equal(&reached, &end),
        Err(_) => false,
    }
}

/// Whether there is a derivation for each condition, and each replays.
pub fn are_replayed(
    alloc: Global,
    sys: &System,
    conds: &[Cond],
    values: &[Term],
    ds: &[Derivation],
) -> bool
    requires fit { DoConditionsFit (map condition_view conds.now) }
    requires short { EachOf IsShort (map derivation_view ds.now) }
{
    let Ok(values) = by_number(alloc, values) else {
        return false;
    };
    let mut all = conds.len() == ds.len();
    'ds: for (i, d) in ds.iter().enumerate() {
        let Some(cond) = conds.get(i) else {
            return false;
        };
        if !is_replayed(alloc, sys, cond, &values, d) {
            all = false;
        }
    }
    all
}
