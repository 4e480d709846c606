//! The three spaces of a system, searched one behind the other.
ghost use Rattle.std.specs.Prelude.{ℕ, ◌≡◌};
ghost use Rattle.certificates.specs.Certificates as math;
ghost use Rattle.cc_count.specs.Counts.{Spends};
ghost use Rattle.search_spaces.specs.Ortho.{ortho_space};
ghost use Rattle.quasi_space.specs.AllSpaces.{pruned_spaces};
ghost use Rattle.search_answers.specs.Given.{IsOverlapList};
ghost use Rattle.search_answers.specs.Answers.{Searches, ending_of, IfFound};
ghost use Rattle.quasi_space.specs.Endings.{MayEndLast};

use cc_count::Budget;
use cops_names::Names;
use critical_pairs::Overlap;
use noncon_search::search_peak_over;
use ortho_search::search_ortho_over;
use prepared_system::PreparedSystem;
use quasi_search::search_quasi_over;
use search_spaces::spaces_are_searchable;
use std::alloc::Global;
use term_core::NoMemory;
use validity::Search;

/// All three, one behind the other, over the system and the list of its overlaps.
pub fn search_whole(
    alloc: Global,
    sys: &PreparedSystem<'_>,
    names: &Names,
    overlaps: Option<&[Overlap]>,
    budget: &mut Budget,
) -> Result<Search, NoMemory>
    requires overlaps { IsOverlapList sys.now overlaps }
    ensures searched { Searches ending_of (MayEndLast (pruned_spaces names.now sys.now)) budget.old budget.new result }
    ensures ortho_first { (c : math.Certificate) (n : ℕ) → (ortho_space names.now sys.now).Finds c n → IfFound ending_of result (λ found. (found ≡ c) × Spends budget.old n budget.new) }
    ensures kept { (n : ℕ) × Spends budget.old n budget.new }
{
    spaces_are_searchable();
    match search_ortho_over(alloc, sys, names, overlaps, budget)? {
        Search::Nothing => match search_peak_over(alloc, sys.indexed(), names, overlaps, budget)? {
            Search::Nothing => search_quasi_over(alloc, sys, names, overlaps, budget),
            end => Ok(end),
        },
        end => Ok(end),
    }
}
