//! Shares of a budget: a part of a search gets at most so many of the units that are left, and what it spent is taken from the whole.
ghost use Rattle.std.specs.Prelude.{ℕ};
ghost use Rattle.cc_count.specs.Counts.{Spends};

use cc_count::Budget;
use validity::Search;

/// A budget of the units that are left, but of at most so many.
pub(crate) fn share_of(budget: &Budget, most: u64) -> Budget {
    let left = budget.left();
    Budget::new(if left < most { left } else { most })
}

/// A budget of one of so many parts of what is left.
pub(crate) fn part_of(budget: &Budget, parts: u64) -> Budget {
    let left = budget.left();
    Budget::new(if parts == 0 { left } else { left / parts })
}

/// Takes what a share spent from the whole.
pub(crate) fn settle(budget: &mut Budget, share: &Budget)
    ensures { (n : ℕ) × Spends budget.old n budget.new }
{
    let _enough = budget.take_many(share.spent());
}

/// How a search ends that found nothing: spent, where a part of it was cut short.
pub(crate) fn ended(is_cut: bool) -> Search {
    if is_cut {
        Search::Spent
    } else {
        Search::Nothing
    }
}
