//! Caps of terms, what they show, and laws over them: definitions that contracts cite.
#![tactic(auto)]

ghost use Rattle.caps.specs.Laws.{CapsKeepReducts, RigidCapsKeepReducts, CapsRefute, CapsKeepApart, RigidCapsKeepApart, CapsAreUnique, JudgementsAreUnique, OutcomesAreUnique};
ghost use Rattle.caps.specs.Totality.{TermsHaveCaps, ConditionsAreJudged, PairsHaveOutcomes};

/// What a term or its instances reach are instances of its cap. So conditions whose caps clash are never met, and terms
/// whose rigid caps clash have no common reduct (after Giesl, Thiemann and Schneider-Kamp 2005).
pub fn laws_of_caps()
    ensures reducts { CapsKeepReducts }
    ensures rigid { RigidCapsKeepReducts }
    ensures refute { CapsRefute }
    ensures apart { CapsKeepApart }
    ensures rigid_apart { RigidCapsKeepApart }
{}

/// A term has at most one cap, conditions have at most one judgement, and two terms at most one outcome.
pub fn caps_are_unique()
    ensures caps { CapsAreUnique }
    ensures judgements { JudgementsAreUnique }
    ensures outcomes { OutcomesAreUnique }
{}

/// A term has a cap, or a run inside passes the size; so conditions have a judgement, and two terms an outcome.
pub fn caps_are_total()
    ensures caps { TermsHaveCaps }
    ensures judgements { ConditionsAreJudged }
    ensures outcomes { PairsHaveOutcomes }
{}
