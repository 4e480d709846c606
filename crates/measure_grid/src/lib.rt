//! The grid of linear interpretations that are tried, and the same grid walked entry by entry, where a prefix is left as
//! soon as a rule shows that nothing good extends it: definitions that contracts cite, and laws over them.
#![tactic(auto)]

ghost use Rattle.measure_grid.specs.Laws.{GridsAreInShape, DeadPrefixesAreBarren, PrunedFirstsAreFirsts, PrunedGridsAreBarren, PrunedGridsEndOnce};

/// Each interpretation of the grid has an entry for each symbol, and its numbers are good, so that its rules alone are left
/// to be judged.
pub fn grids_are_in_shape()
    ensures shape { GridsAreInShape }
{}

/// A dead prefix has no good extension.
pub fn dead_prefixes_are_barren()
    ensures barren { DeadPrefixesAreBarren }
{}

/// The first good interpretation that the pruned grid comes to is the first of the grid, and the units up to it are at most
/// its place there; where the pruned grid has none, the grid has none, and the units are at most the size of the grid. There
/// is one such number at most, and it cannot be that there is none.
pub fn pruned_grids_are_grids()
    ensures firsts { PrunedFirstsAreFirsts }
    ensures none { PrunedGridsAreBarren }
    ensures once { PrunedGridsEndOnce }
{}
