//! Who judges evidence by its kind, and remembers what it last found valid.
ghost use Rattle.std.specs.Prelude.{◌≡◌, ◌≤◌, ◌*◌, None, Some, IfOk, IfSome, OnOk, length, map};
ghost use Rattle.certificates.specs.Sizes.{DoConditionsFit};
ghost use Rattle.automata.specs.Evidence.{IsConditionJudged, JudgedByAutomaton};
ghost use Rattle.term_core.specs.RuleView.{condition_view};
ghost use Rattle.cert_model.specs.EvidenceView.{automaton_view, inf_evidence_view};
ghost use Rattle.refuter.specs.Answers.{RefutesAnswers};
ghost use Rattle.judged_evidence.specs.Evidence.{IsInfeasibilityJudged};
ghost use Rattle.infeasible.specs.Known.{IsKnown};

use crate::check_infeasible_in;
use crate::same::{copied_condition, is_same, is_same_condition};
use cert_model::{Automaton, EvidenceReason, InfEvidence, condition};
use refuter::{Refusal, Refuter};
use rule_index::IndexedSystem;
use std::alloc::Global;
use std::marker::Model;
use term_core::{Cond, MAX_CONDITIONS, NoMemory};
use tree_automata::AutoEvidence;

// A condition that an automaton shows to be never met.
#[derive(Debug, Drop)]
struct NeverMet {
    cond: Cond,
    automaton: Automaton,
}

/// Judges evidence by its kind, as [`check_infeasible_in`] does. It remembers the last condition that an automaton showed to
/// be never met: an automaton that serves many entries is closed once, and that condition is not judged again. In contracts:
/// the condition and the automaton.
#[derive(Debug, Drop)]
pub struct JudgeByKind {
    last: Option<NeverMet>,
}

impl Model for JudgeByKind {
    ghost use Rattle.infeasible.specs.Known.{Known, coded_known, known_view};

    ghost Value = { Known };

    ghost coded = { coded_known };

    ghost view = { known_view };
}

// What is remembered.
fn copied(alloc: Global, cond: &Cond, automaton: &Automaton) -> Result<NeverMet, NoMemory>
    ensures condition { IfOk result (λ copy. condition_view copy.cond ≡ condition_view cond.now) }
    ensures automaton { IfOk result (λ copy. automaton_view copy.automaton ≡ automaton_view automaton.now) }
{
    Ok(NeverMet {
        cond: copied_condition(alloc, cond)?,
        automaton: automaton.try_clone(alloc)?,
    })
}

// Judges an automaton that showed that a condition is never met, for conditions.
fn judge_again(
    alloc: Global,
    sys: &IndexedSystem,
    conds: &[Cond],
    evidence: &AutoEvidence<'_>,
    known: &NeverMet,
) -> Result<(), Refusal>
    requires few { length conds.now ≤ 2 * MAX_CONDITIONS }
    requires fit { DoConditionsFit (map condition_view conds.now) }
    requires same { automaton_view known.now.automaton ≡ automaton_view evidence.now.automaton.now }
    requires known { IsConditionJudged sys.now (condition_view known.now.cond) (automaton_view known.now.automaton) None }
    ensures { RefutesAnswers (JudgedByAutomaton sys.now (map condition_view conds.now) evidence.now.cond (automaton_view evidence.now.automaton.now)) result }
{
    let Some(cond) = condition(conds, evidence.cond) else {
        return Err(Refusal::Reason(EvidenceReason::AutoNumber));
    };
    if is_same_condition(cond, &known.cond) {
        return Ok(());
    }
    evidence.refutes_closed(alloc, sys.system(), conds)
}

impl JudgeByKind {
    /// Remembers nothing.
    pub fn new() -> JudgeByKind
        ensures { result ≡ None }
    {
        JudgeByKind { last: None }
    }

    // Judges an automaton, and remembers the condition that it shows to be never met.
    fn judge_automaton(
        &mut self,
        alloc: Global,
        sys: &IndexedSystem,
        conds: &[Cond],
        evidence: &AutoEvidence<'_>,
    ) -> Result<(), Refusal>
        requires few { length conds.now ≤ 2 * MAX_CONDITIONS }
        requires fit { DoConditionsFit (map condition_view conds.now) }
        requires knows { IsKnown self.old sys.now }
        ensures judged { RefutesAnswers (JudgedByAutomaton sys.now (map condition_view conds.now) evidence.now.cond (automaton_view evidence.now.automaton.now)) result }
        ensures knows { IsKnown self.new sys.now }
    {
        match &self.last {
            Some(known) if is_same(&known.automaton, evidence.automaton) => {
                return judge_again(alloc, sys, conds, evidence, known);
            }
            _ => {}
        }
        evidence.refutes_in(alloc, sys, conds)?;
        if let Some(cond) = condition(conds, evidence.cond) {
            self.last = Some(copied(alloc, cond, evidence.automaton)?);
        }
        Ok(())
    }

    /// Judges evidence for conditions of a system: valid, or the first reason why not. What is remembered stays so of the system.
    pub fn judge(
        &mut self,
        alloc: Global,
        sys: &IndexedSystem,
        conds: &[Cond],
        evidence: &InfEvidence,
    ) -> Result<(), Refusal>
        requires few { length conds.now ≤ 2 * MAX_CONDITIONS }
        requires fit { DoConditionsFit (map condition_view conds.now) }
        requires knows { IsKnown self.old sys.now }
        ensures judged { RefutesAnswers (IsInfeasibilityJudged sys.now (map condition_view conds.now) (inf_evidence_view evidence.now)) result }
        ensures knows { IsKnown self.new sys.now }
    {
        match evidence {
            InfEvidence::Tcap => check_infeasible_in(alloc, sys, conds, evidence),
            InfEvidence::Auto { cond, automaton } => {
                let evidence = AutoEvidence {
                    cond: *cond,
                    automaton,
                };
                self.judge_automaton(alloc, sys, conds, &evidence)
            }
        }
    }
}
