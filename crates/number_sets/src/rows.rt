//! Relations between numbers, as a list of sets.
ghost use Rattle.std.specs.Prelude.{◌≤◌, vec_len};

use crate::words::NumberSet;

/// A relation between numbers: for each number on its left side, the set of those on its right side.
#[derive(Debug, Drop)]
pub struct NumberRelation {
    pub(crate) rows: Vec<NumberSet>,
    // Each row has a number of 32 bits.
    ghost few: { vec_len rows ≤ 4294967296 },
}
