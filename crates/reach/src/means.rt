//! What a search spends and keeps.
ghost use Rattle.std.specs.Prelude.{◌≡◌, List};
ghost use Rattle.rewriting.specs.Rules.{Condition, System};
ghost use Rattle.reach.specs.KeptView.{AreKept};

use crate::kept::Kept;
use cc_count::Budget;
use flatterm::Work;
use std::alloc::Global;
use std::mem;

// What a search spends and keeps: the units and the count of splices of its caller, which it holds until it ends, and its lists for conditions.
#[derive(Drop)]
pub(crate) struct Means {
    pub(crate) alloc: Global,
    pub(crate) kept: Kept,
    pub(crate) budget: Budget,
    pub(crate) work: Work,
}

impl Means {
    // The caller's, and no list.
    pub(crate) fn take(alloc: Global, budget: &mut Budget, work: &mut Work) -> Means
        ensures kept { (sys : System) (hyps : List Condition) → AreKept sys hyps result.kept.lists.entries }
        ensures budget { result.budget ≡ budget.old }
        ensures work { result.work ≡ work.old }
    {
        Means {
            alloc,
            kept: Kept::new(alloc),
            budget: mem::replace(budget, Budget::new(0)),
            work: mem::replace(work, Work::new()),
        }
    }

    // Gives the caller back what is left.
    pub(crate) fn give_back(self, budget: &mut Budget, work: &mut Work)
        ensures budget { budget.new ≡ self.budget }
        ensures work { work.new ≡ self.work }
    {
        *budget = self.budget;
        *work = self.work;
    }
}
