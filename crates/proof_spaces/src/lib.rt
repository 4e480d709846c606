//! What is searched for a proof: the three spaces of a system, and behind them those of the system that its standard steps
//! leave, each certificate behind the steps. No program speaks here.
#![tactic(auto)]

ghost use Rattle.proof_spaces.specs.Laws.{SpacesHaveACost, ProofSpacesAreSearchable, PrunedProofSpacesAreSearchable, ProofsHaveTexts, PrunedProofsAreProofs};
ghost use Rattle.proof_spaces.specs.Laws.{PricesHaveThreeCases, CostsAreSums, PrunedCostsAreSums};

/// What the spaces find, behind steps or without, is valid and can be written, and nothing in them is valid where they find
/// nothing; they find one certificate at most, at one price.
pub fn proof_spaces_are_searchable()
    ensures cost { SpacesHaveACost }
    ensures whole { ProofSpacesAreSearchable }
    ensures pruned { PrunedProofSpacesAreSearchable }
    ensures texts { ProofsHaveTexts }
    ensures same { PrunedProofsAreProofs }
{}

/// What a proof costs is a sum of the parts, and what it takes to find the first valid certificate has three cases.
pub fn prices_have_three_cases()
    ensures cases { PricesHaveThreeCases }
    ensures sums { CostsAreSums }
    ensures pruned { PrunedCostsAreSums }
{}
