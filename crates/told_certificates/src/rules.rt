//! The rules of a system by their numbers.
ghost use Rattle.std.specs.Prelude.{IfSome};
ghost use Rattle.redex_conditions.specs.Judged.{IsOfSystem};

use crate::scene::Scene;
use term_core::Rule;

/// The rule with a number, from 1.
pub fn rule_of<'a>(scene: Scene<'a>, number: u32) -> Option<&'a Rule>
    ensures { IfSome result (λ r. IsOfSystem r.now) }
{
    let rules = scene.sys.rules();
    let place = (number as usize).checked_sub(1)?;
    rules.get(place)
}
