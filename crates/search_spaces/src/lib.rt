//! The spaces of certificates that are searched: which certificates they hold, in which order these are tried, and at what
//! cost. No program speaks here.
#![tactic(auto)]

ghost use Rattle.search_spaces.specs.Laws.{OrthoSpacesAreSearchable, OrthoSpacesCostFewUnits, PeakSpacesAreSearchable, WholeSpacesAreSearchable};

/// A listing has terms of so many steps.
pub const STEPS: u32 = 5;

/// Its condition depth.
pub const COND_DEPTH: u32 = 2;

/// What a space finds is valid, and nothing in it is valid where it finds nothing; it finds one certificate at most, at one
/// price, which is at most the cost of the whole; it has one price at most, and there is no space without one. The same holds of the two, one behind the other.
pub fn spaces_are_searchable()
    ensures ortho { OrthoSpacesAreSearchable }
    ensures peak { PeakSpacesAreSearchable }
    ensures whole { WholeSpacesAreSearchable }
    ensures few_units { OrthoSpacesCostFewUnits }
{}
