//! Evidence that conditions are never met: the caps of their left sides do not unify with their right sides.
ghost use Rattle.std.specs.Prelude.{◌≤◌, ◌*◌, IfOk, length, map};
ghost use Rattle.rewriting.specs.Rules.{right_sides};
ghost use Rattle.caps.specs.Evidence.{JudgedByCaps};
ghost use Rattle.certificates.specs.Sizes.{DoConditionsFit};
ghost use Rattle.term_core.specs.Prelude.{views, condition_view};
ghost use Rattle.tcap_infeasible.specs.Comparing.{LeftsAnswer, HaveRow};

use crate::Cap;
use crate::capping::{FIRST_HOLE, Leaf, frozen_cap};
use cert_model::EvidenceReason;
use refuter::{Refusal, Refuter};
use renumbering::Numbering;
use rule_index::IndexedSystem;
use std::alloc::Global;
use term_core::{Cond, MAX_CONDITIONS, NoMemory, Term};
use unification::{Unified, unify};

// The caps of the left sides, whose holes are numbered one after the other.
fn left_caps(
    alloc: Global,
    sys: &IndexedSystem,
    conds: &[Cond],
) -> Result<Option<Vec<Term>>, NoMemory>
    requires few { length conds.now ≤ 2 * MAX_CONDITIONS }
    requires fit { DoConditionsFit (map condition_view conds.now) }
    ensures { LeftsAnswer sys.now (map condition_view conds.now) result }
{
    let mut next = FIRST_HOLE;
    let mut lefts = Vec::with_capacity(alloc, conds.len())?;
    for cond in conds {
        match frozen_cap(alloc, sys, &cond.left, Leaf::Hole, &mut next)? {
            Cap::Capped(u) => lefts.push(u)?,
            Cap::TooLarge => return Ok(None),
        }
    }
    Ok(Some(lefts))
}

// The right sides with numbers in place of their variables.
fn numbered_rights(alloc: Global, conds: &[Cond]) -> Result<Vec<Term>, NoMemory>
    requires few { length conds.now ≤ 2 * MAX_CONDITIONS }
    requires fit { DoConditionsFit (map condition_view conds.now) }
    ensures { IfOk result (λ us. HaveRow (right_sides (map condition_view conds.now)) (views us.items)) }
{
    let mut numbering = Numbering::new(alloc);
    let mut rights = Vec::with_capacity(alloc, conds.len())?;
    for cond in conds {
        rights.push(numbering.numbered(alloc, &cond.right)?)?;
    }
    Ok(rights)
}

/// Evidence that conditions are never met: the caps of their left sides do not unify with their right sides.
#[derive(Clone, Copy, Debug)]
pub struct TcapEvidence;

impl Refuter for TcapEvidence {
    ghost use Rattle.caps.proofs.Reducts.{never_met};

    ghost judged = { λ _ s cs. JudgedByCaps s cs };

    fn refutes_in(
        &self,
        alloc: Global,
        sys: &IndexedSystem,
        conds: &[Cond],
    ) -> Result<(), Refusal> {
        let Some(lefts) = left_caps(alloc, sys, conds)? else {
            return Err(Refusal::Reason(EvidenceReason::TcapLarge));
        };
        let rights = numbered_rights(alloc, conds)?;
        match unify(alloc, &lefts, &rights)? {
            Unified::Clash => Ok(()),
            Unified::Mgu(_) => Err(Refusal::Reason(EvidenceReason::TcapUnifies)),
            Unified::TooLarge => Err(Refusal::Reason(EvidenceReason::TcapLarge)),
        }
    }

    ghost law = { λ _ s cs well h. never_met s cs h };
}
