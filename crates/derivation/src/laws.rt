//! A law of replaying: the outcome of a derivation is unique.
ghost use Rattle.derivation.specs.Laws.{EndsAreUnique, BadStepsHaveNoEnd, FirstBadStepsAreUnique};

/// A derivation from a term has one outcome: at most one end, at most one first bad step, and not both.
pub fn outcomes_are_unique()
    ensures ends { EndsAreUnique }
    ensures not_both { BadStepsHaveNoEnd }
    ensures first { FirstBadStepsAreUnique }
{}
