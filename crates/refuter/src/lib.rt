//! Evidence that conditions are never met.
#![tactic(auto)]

ghost use Rattle.std.specs.Prelude.{◌≡◌, ◌≤◌, ◌*◌, Option, None, List, length, map};
ghost use Rattle.rewriting.specs.Rules as math;
ghost use Rattle.rewriting.specs.Prelude.{IsWellFormed, IsInfeasible};
ghost use Rattle.certificates.specs.Reasons as reasons;
ghost use Rattle.certificates.specs.Sizes.{DoConditionsFit};
ghost use Rattle.term_core.specs.RuleView.{condition_view};
ghost use Rattle.refuter.specs.Answers.{RefutesAnswers};

use cert_model::EvidenceReason;
use rule_index::IndexedSystem;
use std::alloc::Global;
use term_core::{Cond, MAX_CONDITIONS, NoMemory, System};

/// Why evidence does not show that conditions are never met.
#[derive(Debug, Drop)]
pub enum Refusal {
    /// The first reason, in the order of judging.
    Reason(EvidenceReason),
    NoMemory,
}

impl From<NoMemory> for Refusal {
    ghost use Rattle.refuter.specs.declared.Refusal.TheVariants.{NoMemory as no_memory};

    ghost from_gives = { λ _ e. e ≡ no_memory };

    fn from(_e: NoMemory) -> Refusal {
        Refusal::NoMemory
    }
}

/// Evidence that conditions are never met.
pub trait Refuter {
    /// What the evidence is judged to be for conditions of a system: valid, with no reason, or the first reason why not.
    ghost judged: { Self → math.System → List math.Condition → Option reasons.EvidenceReason → Type 0 };

    /// Judges the evidence for conditions of a system that has its index.
    fn refutes_in(&self, alloc: Global, sys: &IndexedSystem, conds: &[Cond]) -> Result<(), Refusal>
        requires few { length conds.now ≤ 2 * MAX_CONDITIONS }
        requires fit { DoConditionsFit (map condition_view conds.now) }
        ensures { RefutesAnswers (judged self.now sys.now (map condition_view conds.now)) result };

    /// The same for any system, with an index made for this one question.
    fn refutes(&self, alloc: Global, sys: &System, conds: &[Cond]) -> Result<(), Refusal>
        requires few { length conds.now ≤ 2 * MAX_CONDITIONS }
        requires fit { DoConditionsFit (map condition_view conds.now) }
        ensures { RefutesAnswers (judged self.now sys.now (map condition_view conds.now)) result }
    {
        let sys = IndexedSystem::new(alloc, sys)?;
        self.refutes_in(alloc, &sys, conds)
    }

    /// Where the evidence is valid, no level and no substitution meet all conditions.
    ghost law: { (e : Self) (s : math.System) (cs : List math.Condition) → IsWellFormed s → judged e s cs None → IsInfeasible s cs };
}
