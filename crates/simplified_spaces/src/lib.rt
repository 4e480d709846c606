//! What is tried, in order, to simplify a system, and the standard steps: again and again the first try that gives a good step.
//! No program speaks here.
#![tactic(auto)]

ghost use Rattle.simplified_spaces.specs.Laws.{TriesAreCounted, StepsAreWithinTries, SystemsHaveStandardSteps};

/// The tries of a system are as many as its conditions tell, and a good step is found within them. Standard steps are good,
/// one list at most with one number, and no more than the rules and conditions that they remove; it cannot be that there are none.
pub fn systems_have_standard_steps()
    ensures counted { TriesAreCounted }
    ensures within { StepsAreWithinTries }
    ensures standard { SystemsHaveStandardSteps }
{}
