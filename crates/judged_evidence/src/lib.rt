//! When evidence that conditions are never met is valid, whatever its kind, the first reason why it is not, and what valid
//! evidence shows. No program speaks here.
#![tactic(auto)]

ghost use Rattle.judged_evidence.specs.Laws.{JudgedEvidenceRefutes, EvidenceHasAJudgement, EvidenceHasOneJudgement};

/// Conditions for which there is valid evidence are never met, at any level and under any substitution.
pub fn judged_evidence_refutes()
    ensures { JudgedEvidenceRefutes }
{}

/// Evidence is valid, or there is one first reason why it is not; and never both.
pub fn evidence_has_one_judgement()
    ensures some { EvidenceHasAJudgement }
    ensures one { EvidenceHasOneJudgement }
{}
