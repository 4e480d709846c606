//! Evidence that a condition is never met: an automaton, closed under the rules, that accepts its left side and excludes its right side.
ghost use Rattle.std.specs.Prelude.{◌≡◌, ◌≤◌, ◌*◌, None, IsTrue, length, map};
ghost use Rattle.rewriting.specs.Terms as math;
ghost use Rattle.certificates.specs.Sizes.{DoConditionsFit};
ghost use Rattle.automata.specs.Evidence.{IsClosureJudged, IsConditionJudged, JudgedByAutomaton};
ghost use Rattle.term_core.specs.Prelude.{view, condition_view};
ghost use Rattle.cert_model.specs.EvidenceView.{automaton_view};
ghost use Rattle.automaton_runs.specs.Counted.{under};
ghost use Rattle.refuter.specs.Answers.{RefutesAnswers};

use crate::accepts::{accepts_all, is_accepted};
use crate::closure::{index_under, judge_closure};
use crate::exclusion::judge_exclusion;
use automaton_runs::AutomatonIndex;
use cert_model::{Automaton, EvidenceReason, condition};
use refuter::{Refusal, Refuter};
use rule_index::IndexedSystem;
use std::alloc::Global;
use term_core::{Cond, MAX_CONDITIONS, System};

/// Evidence that conditions are never met: an automaton for the condition with a number, from 1.
#[derive(Clone, Copy, Debug)]
pub struct AutoEvidence<'a> {
    pub cond: u32,
    pub automaton: &'a Automaton,
}

// Judges whether an automaton is closed, where that is not known.
fn judge_unless_closed(
    alloc: Global,
    index: &AutomatonIndex<'_>,
    sys: &System,
    a: &Automaton,
    is_closed: bool,
) -> Result<(), Refusal>
    requires index { index.now ≡ under sys.now (automaton_view a.now) }
    requires closed { IsTrue is_closed → IsClosureJudged sys.now (automaton_view a.now) None }
    ensures { RefutesAnswers (λ o. IsClosureJudged sys.now (automaton_view a.now) o) result }
{
    if is_closed {
        return Ok(());
    }
    judge_closure(alloc, index, sys, a)
}

// Judges an automaton for one condition.
fn judge_condition(
    alloc: Global,
    sys: &System,
    cond: &Cond,
    a: &Automaton,
    is_closed: bool,
) -> Result<(), Refusal>
    requires left { math.Fits (view cond.now.left) }
    requires right { math.Fits (view cond.now.right) }
    requires closed { IsTrue is_closed → IsClosureJudged sys.now (automaton_view a.now) None }
    ensures { RefutesAnswers (λ o. IsConditionJudged sys.now (condition_view cond.now) (automaton_view a.now) o) result }
{
    let index = index_under(alloc, sys, a)?;
    if !accepts_all(&index, sys) {
        return Err(Refusal::Reason(EvidenceReason::AutoAny));
    }
    if !is_accepted(alloc, &index, a, &cond.left)? {
        return Err(Refusal::Reason(EvidenceReason::AutoMisses));
    }
    judge_unless_closed(alloc, &index, sys, a, is_closed)?;
    judge_exclusion(alloc, &index, a, &cond.right)
}

// Judges evidence for conditions of a system.
fn judge(
    alloc: Global,
    sys: &System,
    conds: &[Cond],
    evidence: &AutoEvidence<'_>,
    is_closed: bool,
) -> Result<(), Refusal>
    requires few { length conds.now ≤ 2 * MAX_CONDITIONS }
    requires fit { DoConditionsFit (map condition_view conds.now) }
    requires closed { IsTrue is_closed → IsClosureJudged sys.now (automaton_view evidence.now.automaton.now) None }
    ensures { RefutesAnswers (JudgedByAutomaton sys.now (map condition_view conds.now) evidence.now.cond (automaton_view evidence.now.automaton.now)) result }
{
    let Some(cond) = condition(conds, evidence.cond) else {
        return Err(Refusal::Reason(EvidenceReason::AutoNumber));
    };
    judge_condition(alloc, sys, cond, evidence.automaton, is_closed)
}

impl AutoEvidence<'_> {
    /// Judges the evidence for conditions of a system, where its automaton is known to be closed: that is not judged again.
    pub fn refutes_closed(&self, alloc: Global, sys: &System, conds: &[Cond]) -> Result<(), Refusal>
        requires few { length conds.now ≤ 2 * MAX_CONDITIONS }
        requires fit { DoConditionsFit (map condition_view conds.now) }
        requires closed { IsClosureJudged sys.now (automaton_view self.now.automaton.now) None }
        ensures { RefutesAnswers (JudgedByAutomaton sys.now (map condition_view conds.now) self.now.cond (automaton_view self.now.automaton.now)) result }
    {
        judge(alloc, sys, conds, self, true)
    }
}

impl Refuter for AutoEvidence<'_> {
    ghost use Rattle.automata.specs.Evidence.{JudgedByAutomaton};
    ghost use Rattle.automata.proofs.Kept.{refutes as never_met};

    ghost judged = { λ e s cs. JudgedByAutomaton s cs e.cond (automaton_view e.automaton.now) };

    fn refutes_in(
        &self,
        alloc: Global,
        sys: &IndexedSystem,
        conds: &[Cond],
    ) -> Result<(), Refusal> {
        judge(alloc, sys.system(), conds, self, false)
    }

    ghost law = { λ e s cs well h. never_met s cs e.cond (automaton_view e.automaton.now) h };
}
