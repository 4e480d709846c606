//! Evidence that the conditions of a rule are never met under the values of a match.
ghost use Rattle.std.specs.Prelude.{◌≤◌, map};
ghost use Rattle.rewriting.specs.Overlaps.{conditions_under};
ghost use Rattle.term_core.specs.Prelude.{condition_view};
ghost use Rattle.term_core.specs.SystemView.{IsSound};
ghost use Rattle.cert_model.specs.EvidenceView.{inf_evidence_view};
ghost use Rattle.refuter.specs.Answers.{RefutesAnswers};
ghost use Rattle.redex_conditions.specs.Judged.{match_or_new, AreJudged};

use cert_model::{EvidenceReason, InfEvidence};
use infeasible::{Refusal, check_infeasible_in};
use redex_conditions::conditions_at;
use rule_index::IndexedSystem;
use std::alloc::Global;
use term_core::{MAX_NODES, Rule, Subst};

/// Judges evidence for the conditions of a rule under the values of a match, with new variables from `own` on.
pub(crate) fn judge_conditions(
    alloc: Global,
    sys: &IndexedSystem,
    rule: &Rule,
    values: Subst,
    own: u32,
    evidence: &InfEvidence,
) -> Result<(), Refusal>
    requires sound { IsSound sys.now.arities rule.now }
    requires own { own ≤ MAX_NODES }
    ensures { RefutesAnswers (AreJudged sys.now (conditions_under (match_or_new own values) (map condition_view rule.now.conds.items)) (inf_evidence_view evidence.now)) result }
{
    match conditions_at(alloc, rule, values, own)? {
        Some(conds) => check_infeasible_in(alloc, sys, &conds, evidence),
        None => Err(Refusal::Reason(EvidenceReason::TcapLarge)),
    }
}
