//! The terms that a term reaches in few steps, with their derivations, and what the list costs: definitions that
//! contracts cite, and laws over them.
#![tactic(auto)]

ghost use Rattle.reach_lists.specs.Laws.{StartsAre, ListedTermsAreDerived, ListedDerivationsAreShort, NoTermIsListedTwice, ListsAreShort, ListsCostTheirTerms, ListsGrow, RoundsExpandNewTerms, SuccessorsAreSettled, ListsAreThoseOfQueues};
ghost use Rattle.reach_lists.specs.DepthFirst.{SolutionsAreFollowed, PathsCostTheSame};

/// Most terms on a list.
pub const MOST_LISTED: usize = 2_000;

/// Most nodes of a term that is put on a list behind its start.
pub const MOST_LISTED_NODES: usize = 200;

/// A list begins with its start; each listed term is derived from the start by its derivation; no term is listed twice, and at
/// most 2,000 are.
pub fn laws_of_lists()
    ensures starts { StartsAre }
    ensures derived { ListedTermsAreDerived }
    ensures derivations_short { ListedDerivationsAreShort }
    ensures once { NoTermIsListedTwice }
    ensures short { ListsAreShort }
    ensures cost { ListsCostTheirTerms }
{}

/// One step more makes a list longer at its end, by successors of what the step before added; all successors of the terms of
/// smaller distance are listed, too large, or left out where 2,000 are listed.
pub fn lists_are_breadth_first()
    ensures grow { ListsGrow }
    ensures rounds { RoundsExpandNewTerms }
    ensures settled { SuccessorsAreSettled }
    ensures queue { ListsAreThoseOfQueues }
{}

/// Conditions have the same solutions depth first as breadth first, in the same order, and the lists that are made for them cost
/// as much together.
pub fn depth_first_finds_the_same()
    ensures solutions { SolutionsAreFollowed }
    ensures cost { PathsCostTheSame }
{}
