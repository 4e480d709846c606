//! Evidence that conditions are never met, by its kind.
#![tactic(auto)]

mod by_kind;
mod same;

ghost use Rattle.std.specs.Prelude.{◌≤◌, ◌*◌, OnOk, length, map};
ghost use Rattle.rewriting.specs.Infeasibility.{IsInfeasible};
ghost use Rattle.certificates.specs.Sizes.{DoConditionsFit};
ghost use Rattle.term_core.specs.RuleView.{condition_view};
ghost use Rattle.cert_model.specs.EvidenceView.{inf_evidence_view};
ghost use Rattle.refuter.specs.Answers.{RefutesAnswers};
ghost use Rattle.judged_evidence.specs.Evidence.{IsInfeasibilityJudged};

pub use by_kind::JudgeByKind;
use cert_model::InfEvidence;
pub use refuter::Refusal;
use refuter::Refuter;
use rule_index::IndexedSystem;
pub use same::{copied_condition, is_same_condition};
use std::alloc::Global;
use tcap_infeasible::TcapEvidence;
use term_core::{Cond, MAX_CONDITIONS, System};
use tree_automata::AutoEvidence;

// What a refuter answers; where that is Ok, the conditions are never met.
fn refuted<R: Refuter>(
    alloc: Global,
    sys: &IndexedSystem,
    conds: &[Cond],
    refuter: &R,
) -> Result<(), Refusal>
    requires few { length conds.now ≤ 2 * MAX_CONDITIONS }
    requires fit { DoConditionsFit (map condition_view conds.now) }
    ensures judged { RefutesAnswers (R.judged refuter.now sys.now (map condition_view conds.now)) result }
    ensures sound { OnOk result (IsInfeasible sys.now (map condition_view conds.now)) }
{
    sys.rules_are_sound();
    refuter.refutes_in(alloc, sys, conds)
}

/// Judges evidence for conditions of a system that has its index, by caps or by an automaton. Where it is valid, no level and no substitution meet all of them.
pub fn check_infeasible_in(
    alloc: Global,
    sys: &IndexedSystem,
    conds: &[Cond],
    evidence: &InfEvidence,
) -> Result<(), Refusal>
    requires few { length conds.now ≤ 2 * MAX_CONDITIONS }
    requires fit { DoConditionsFit (map condition_view conds.now) }
    ensures judged { RefutesAnswers (IsInfeasibilityJudged sys.now (map condition_view conds.now) (inf_evidence_view evidence.now)) result }
    ensures sound { OnOk result (IsInfeasible sys.now (map condition_view conds.now)) }
{
    match evidence {
        InfEvidence::Tcap => refuted(alloc, sys, conds, &TcapEvidence),
        InfEvidence::Auto { cond, automaton } => {
            let evidence = AutoEvidence {
                cond: *cond,
                automaton,
            };
            refuted(alloc, sys, conds, &evidence)
        }
    }
}

/// Judges evidence for conditions of a system, with an index of its rules made for this one question.
pub fn check_infeasible(
    alloc: Global,
    sys: &System,
    conds: &[Cond],
    evidence: &InfEvidence,
) -> Result<(), Refusal>
    requires few { length conds.now ≤ 2 * MAX_CONDITIONS }
    requires fit { DoConditionsFit (map condition_view conds.now) }
    ensures judged { RefutesAnswers (IsInfeasibilityJudged sys.now (map condition_view conds.now) (inf_evidence_view evidence.now)) result }
    ensures sound { OnOk result (IsInfeasible sys.now (map condition_view conds.now)) }
{
    let indexed = IndexedSystem::new(alloc, sys)?;
    check_infeasible_in(alloc, &indexed, conds, evidence)
}
