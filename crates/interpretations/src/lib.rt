//! Linear interpretations of unraveled systems: when one is good, why one is not, and that a good one bounds descents.
#![tactic(auto)]

ghost use Rattle.interpretations.specs.Law.{
  EachInterpretationIsJudged,
  GoodInterpretationsBoundDescents,
  InterpretationsHaveOneJudgement,
};

/// The greatest number of an entry.
pub const MOST_COEFFICIENT: u32 = 1_000_000;

/// A good linear interpretation bounds the descents from each term by the term's value with variables at 0. This is a
/// law: the clause is the statement, and the call does nothing.
pub fn good_interpretations_bound_descents()
    ensures bound { GoodInterpretationsBoundDescents }
{}

/// An interpretation is judged in exactly one way: good, or not good for one reason, or not judged at one rule. This is a
/// law: the clause is the statement, and the call does nothing.
pub fn interpretations_have_one_judgement()
    ensures some { EachInterpretationIsJudged }
    ensures one { InterpretationsHaveOneJudgement }
{}
