//! Statements that are weaker than those which the crates prove, each with a case in which it holds and ours does not.
#![tactic(auto)]

ghost use Rattle.weaker_statements.specs.Peaks.{EndsMatter};
ghost use Rattle.weaker_statements.specs.Measures.{JudgementsMatter};

/// Why NO speaks of the ends of the two derivations, and why a measure has one judgement. This is a law: the clauses are
/// the counterexamples, and the call does nothing.
pub fn weaker_statements_hold_elsewhere()
    ensures ends { EndsMatter }
    ensures judgements { JudgementsMatter }
{}
