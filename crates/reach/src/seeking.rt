//! The first solution of conditions: each path is followed to its end, since all lists are paid, and the first that meets all conditions is kept.
ghost use Rattle.std.specs.Prelude.{◌≡◌, ◌<◌, ◌∷◌, [], OnOk, option_map, map};
ghost use Rattle.rewriting.specs.Terms as math;
ghost use Rattle.certificates.specs.Sizes.{DoConditionsFit};
ghost use Rattle.reach_lists.specs.Lists.{total, condition_list, condition_cost, unconditional};
ghost use Rattle.reach_lists.specs.Solutions as lists;
ghost use Rattle.flatterm.specs.Work.{HasRisen};
ghost use Rattle.term_core.specs.Prelude.{view, condition_view};
ghost use Rattle.reach.specs.Costs.{Costs};
ghost use Rattle.reach.specs.EntryView.{entry_view, table_view};
ghost use Rattle.reach.specs.PathView.{path_view, IsSamePath};
ghost use Rattle.reach.specs.Ready.{IsReady, HasKept, inner, price};
ghost use Rattle.reach.specs.Seeks.{Seeks, behind_goal, SeeksGoal, SeeksTerms, SeeksTerm};
ghost use Rattle.reach.specs.SolutionView.{solution_view, first_of, IsSought};

use crate::listed::{Entry, ReachStop};
use crate::means::Means;
use crate::sites::{Search, have_conditions};
use crate::solutions::{Path, start_of};
use cc_count::Budget;
use cert_model::Derivation;
use flatterm::Work;
use origins::derivations;
use rule_index::IndexedSystem;
use std::alloc::Global;
use term_core::{Cond, NoMemory, Subst};

/// Values under which conditions are met, each by a derivation.
#[derive(Drop)]
pub struct Solution {
    pub values: Subst,
    pub by: Vec<Derivation>,
}

// A condition that is to be met, and those behind it.
#[derive(Clone, Copy)]
pub(crate) struct Goal<'a> {
    pub(crate) cond: &'a Cond,
    pub(crate) later: &'a [Cond],
}

// Keeps the solution that a path stands for, where none is known yet.
fn keep_first(alloc: Global, path: &Path, first: &mut Option<Solution>) -> Result<(), NoMemory>
    ensures { OnOk result (IsSought first.old first.new (path_view path.now ∷ [])) }
{
    if first.is_some() {
        return Ok(());
    }
    *first = Some(Solution {
        values: path.values.try_clone(alloc)?,
        by: derivations(alloc, &path.by)?,
    });
    Ok(())
}

impl<'a> Search<'a> {
    // Follows the solutions in which one goes on, each to its end before the next, and keeps the first.
    #[cycle(seek)]
    fn seek(
        &self,
        means: &mut Means,
        conds: &[Cond],
        path: &mut Path,
        first: &mut Option<Solution>,
    ) -> Result<(), ReachStop>
        requires ready { IsReady self.now }
        requires store { HasKept self.now means.old }
        requires fit { DoConditionsFit (map condition_view conds.now) }
        ensures found { Seeks self.now (map condition_view conds.now) (path_view path.old) first.old first.new means.old.budget means.new.budget result }
        ensures restored { OnOk result (IsSamePath path.old path.new) }
        ensures never_less { OnOk result (HasRisen means.old.work 0 means.new.work) }
        ensures keeps { OnOk result (HasKept self.now means.new) }
    {
        let [cond, later @ ..] = conds else {
            return Ok(keep_first(means.alloc, path, first)?);
        };
        if self.depth == 0 {
            return Ok(());
        }
        self.seek_condition(means, Goal { cond, later }, path, first)
    }

    // The same, where a condition is to be met first.
    #[cycle(seek)]
    fn seek_condition(
        &self,
        means: &mut Means,
        goal: Goal<'_>,
        path: &mut Path,
        first: &mut Option<Solution>,
    ) -> Result<(), ReachStop>
        requires ready { IsReady self.now }
        requires store { HasKept self.now means.old }
        requires left { math.Fits (view goal.cond.now.left) }
        requires fit { DoConditionsFit (behind_goal goal) }
        requires deep { 0 < self.now.depth }
        ensures found { SeeksGoal self.now goal.entry (path_view path.old) first.old first.new means.old.budget means.new.budget result }
        ensures restored { OnOk result (IsSamePath path.old path.new) }
        ensures never_less { OnOk result (HasRisen means.old.work 0 means.new.work) }
        ensures keeps { OnOk result (HasKept self.now means.new) }
    {
        let Some(start) = start_of(means.alloc, goal.cond, path)? else {
            return Ok(());
        };
        let inner = self.list_for(means, start)?;
        self.seek_entries(means, goal, path, first, &inner.entries)
    }

    // The same, where the condition is met by the terms of its list.
    #[cycle(seek)]
    fn seek_entries(
        &self,
        means: &mut Means,
        goal: Goal<'_>,
        path: &mut Path,
        first: &mut Option<Solution>,
        entries: &[Entry],
    ) -> Result<(), ReachStop>
        requires ready { IsReady self.now }
        requires store { HasKept self.now means.old }
        requires fit { DoConditionsFit (behind_goal goal) }
        ensures found { SeeksTerms self.now goal.entry (path_view path.old) (table_view entries.now) first.old first.new means.old.budget means.new.budget result }
        ensures restored { OnOk result (IsSamePath path.old path.new) }
        ensures never_less { OnOk result (HasRisen means.old.work 0 means.new.work) }
        ensures keeps { OnOk result (HasKept self.now means.new) }
    {
        'entries: for w in entries {
            self.seek_entry(means, goal, path, first, w)?;
        }
        Ok(())
    }

    // The same, where the condition is met by one term, if it is.
    #[cycle(seek)]
    fn seek_entry(
        &self,
        means: &mut Means,
        goal: Goal<'_>,
        path: &mut Path,
        first: &mut Option<Solution>,
        w: &Entry,
    ) -> Result<(), ReachStop>
        requires ready { IsReady self.now }
        requires store { HasKept self.now means.old }
        requires fit { DoConditionsFit (behind_goal goal) }
        ensures found { SeeksTerm self.now goal.entry (path_view path.old) (entry_view w.now) first.old first.new means.old.budget means.new.budget result }
        ensures restored { OnOk result (IsSamePath path.old path.new) }
        ensures never_less { OnOk result (HasRisen means.old.work 0 means.new.work) }
        ensures keeps { OnOk result (HasKept self.now means.new) }
    {
        let (bound, met) = (path.trail.len(), path.by.len());
        if !path.enter(means.alloc, goal.cond, w)? {
            return Ok(());
        }
        self.seek(means, goal.later, path, first)?;
        path.leave(bound, met);
        Ok(())
    }

    // The first solution that extends some values.
    fn first(
        &self,
        means: &mut Means,
        conds: &[Cond],
        values: &Subst,
    ) -> Result<Option<Solution>, ReachStop>
        requires ready { IsReady self.now }
        requires store { HasKept self.now means.old }
        requires fit { DoConditionsFit (map condition_view conds.now) }
        ensures found { Costs (λ o. option_map solution_view o ≡ first_of (lists.solutions (inner self.now) (map condition_view conds.now) (unconditional values.now ∷ []))) (total (price self.now) (lists.asked (inner self.now) (map condition_view conds.now) (unconditional values.now ∷ []))) means.old.budget means.new.budget result }
        ensures never_less { OnOk result (HasRisen means.old.work 0 means.new.work) }
    {
        let mut path = Path {
            values: values.try_clone(means.alloc)?,
            trail: Vec::new(means.alloc),
            by: Vec::new(means.alloc),
        };
        let mut first = None;
        self.seek(means, conds, &mut path, &mut first)?;
        Ok(first)
    }
}

/// The first substitution that extends some values and under which conditions are met in turn, with a derivation for each condition, if there is one.
/// Each condition is met by the terms of its list, of 5 steps, onto which its right side matches; lists of conditions are nested at most `cond_depth`
/// deep. All lists that are asked for are paid, as in [`reach`](crate::reach), also those behind the first solution.
pub fn first_solution(
    alloc: Global,
    sys: &IndexedSystem<'_>,
    conds: &[Cond],
    values: &Subst,
    cond_depth: u32,
    budget: &mut Budget,
    work: &mut Work,
) -> Result<Option<Solution>, ReachStop>
    requires fit { DoConditionsFit (map condition_view conds.now) }
    ensures found { Costs (λ o. option_map solution_view o ≡ first_of (lists.solutions (condition_list sys.now [] cond_depth) (map condition_view conds.now) (unconditional values.now ∷ []))) (total (condition_cost sys.now [] cond_depth) (lists.asked (condition_list sys.now [] cond_depth) (map condition_view conds.now) (unconditional values.now ∷ []))) budget.old budget.new result }
    ensures never_less { OnOk result (HasRisen work.old 0 work.new) }
{
    let rules = sys.rules();
    let search = Search {
        sys,
        rules,
        hyps: &[],
        idle: have_conditions(rules),
        depth: cond_depth,
    };
    let mut means = Means::take(alloc, budget, work);
    let found = search.first(&mut means, conds, values);
    means.give_back(budget, work);
    found
}
