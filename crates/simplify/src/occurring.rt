//! Whether a variable occurs in conditions.
ghost use Rattle.std.specs.Prelude.{◌≡◌, map};
ghost use Rattle.rewriting.specs.Variables as math;
ghost use Rattle.rewriting.specs.Rules.{sides};
ghost use Rattle.term_core.specs.Prelude.{condition_view};

use term_core::{Cond, occurs};

/// Whether a variable occurs in a side of some conditions.
pub fn occurs_in_sides(x: u32, conds: &[Cond]) -> bool
    ensures { result ≡ math.occurs_in x (sides (map condition_view conds.now)) }
{
    for cond in conds {
        if occurs(x, &cond.left) || occurs(x, &cond.right) {
            return true;
        }
    }
    false
}
