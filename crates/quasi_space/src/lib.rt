//! The space of certificates with a measure: which it holds, in which order they are tried, and at what cost; and this
//! space behind the two of `search_spaces`. No program speaks here.
#![tactic(auto)]

ghost use Rattle.quasi_space.specs.Laws.{JoinsAreSharedTerms, ClashingReductsAreUnfeasible, QuasiSpacesAreSearchable, PrunedSpacesAreSearchable, PrunedSearchesAreSearches};
ghost use Rattle.quasi_space.specs.Laws.{AllSpacesAreSearchable, AllPrunedSpacesAreSearchable, AllPrunedSearchesAreSearches};
ghost use Rattle.quasi_space.specs.MeasureListLaws.{PrunedFirstsAreFirsts, PrunedListsAreBarren, PrunedListsEndOnce};

/// Two listed terms join the sides of an overlap exactly where they are one term.
pub fn joins_are_shared_terms()
    ensures joins { JoinsAreSharedTerms }
{}

/// Two listed terms of the left side of a condition show that it is never met exactly where they are absolutely irreducible
/// and clash.
pub fn clashing_reducts_are_unfeasible()
    ensures reducts { ClashingReductsAreUnfeasible }
{}

/// What the space finds is valid, and nothing in it is valid where it finds nothing; it finds one certificate at most, at
/// one price; it has one price at most, and there is no space without one. The same holds where nothing behind a dead
/// prefix of the grid is tried, and of the three spaces, one behind the other.
pub fn quasi_spaces_are_searchable()
    ensures each { QuasiSpacesAreSearchable }
    ensures pruned { PrunedSpacesAreSearchable }
    ensures all { AllSpacesAreSearchable }
    ensures all_pruned { AllPrunedSpacesAreSearchable }
{}

/// A search that tries nothing behind a dead prefix of the grid answers what one that tries each measure may answer.
pub fn pruned_searches_are_searches()
    ensures quasi { PrunedSearchesAreSearches }
    ensures all { AllPrunedSearchesAreSearches }
{}

/// The first good measure that the pruned lists come to is the first of the lists, and the units up to it are at most its
/// place there; where the pruned lists have none, the lists have none, and the units are at most their length. There is one
/// such number at most, and it cannot be that there is none.
pub fn pruned_lists_are_lists()
    ensures firsts { PrunedFirstsAreFirsts }
    ensures none { PrunedListsAreBarren }
    ensures once { PrunedListsEndOnce }
{}
