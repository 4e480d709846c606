//! Automata that grow from conditions. What grows is closed, so where one is judged, its closure is not.
ghost use Rattle.std.specs.Prelude.{◌≤◌, ◌*◌, None, length, map};
ghost use Rattle.rewriting.specs.Terms.{Fits};
ghost use Rattle.automata.specs.Evidence.{IsClosureJudged};
ghost use Rattle.certificates.specs.Sizes.{DoConditionsFit};
ghost use Rattle.term_core.specs.Prelude.{view, condition_view};
ghost use Rattle.cert_model.specs.EvidenceView.{automaton_view};
ghost use Rattle.evidence_offers.specs.Growth.{NoAutomatonAnswers, GrownAnswers, ShownAnswers, ValidGrowthAnswers};

use automaton_grow::{GrowError, grow};
use cert_model::{Automaton, condition};
use refuter::Refusal;
use std::alloc::Global;
use term_core::{Cond, MAX_CONDITIONS, NoMemory, System, Term};
use tree_automata::AutoEvidence;

// Growth that is refused gives no automaton.
fn no_automaton(e: GrowError) -> Result<Option<Automaton>, NoMemory>
    ensures { NoAutomatonAnswers e result }
{
    match e {
        GrowError::TooWide { .. } => Ok(None),
        GrowError::TooManyStates => Ok(None),
        GrowError::TooManyTransitions => Ok(None),
        GrowError::NoMemory => Err(NoMemory),
    }
}

// The automaton that grows from a term.
pub(crate) fn grown(alloc: Global, sys: &System, s: &Term) -> Result<Option<Automaton>, NoMemory>
    requires fits { Fits (view s.now) }
    ensures { GrownAnswers sys.now (view s.now) result }
{
    match grow(alloc, sys, s) {
        Ok(automaton) => Ok(Some(automaton)),
        Err(e) => no_automaton(e),
    }
}

// A closed automaton, where it shows that the condition with a number is never met.
fn shown(
    alloc: Global,
    sys: &System,
    conds: &[Cond],
    cond: u32,
    automaton: Automaton,
) -> Result<Option<Automaton>, NoMemory>
    requires few { length conds.now ≤ 2 * MAX_CONDITIONS }
    requires fit { DoConditionsFit (map condition_view conds.now) }
    requires closed { IsClosureJudged sys.now (automaton_view automaton) None }
    ensures { ShownAnswers sys.now (map condition_view conds.now) cond (automaton_view automaton) result }
{
    let evidence = AutoEvidence {
        cond,
        automaton: &automaton,
    };
    match evidence.refutes_closed(alloc, sys, conds) {
        Ok(()) => Ok(Some(automaton)),
        Err(Refusal::Reason(_)) => Ok(None),
        Err(Refusal::NoMemory) => Err(NoMemory),
    }
}

/// The automaton that grows from the left side of the condition with this number, from 1, where it shows that the condition is
/// never met; none where it does not, where there is no such condition, or where growth passes a limit.
pub fn valid_growth(
    alloc: Global,
    sys: &System,
    conds: &[Cond],
    cond: u32,
) -> Result<Option<Automaton>, NoMemory>
    requires few { length conds.now ≤ 2 * MAX_CONDITIONS }
    requires fit { DoConditionsFit (map condition_view conds.now) }
    ensures { ValidGrowthAnswers sys.now (map condition_view conds.now) cond result }
{
    let Some(asked) = condition(conds, cond) else {
        return Ok(None);
    };
    // A variable may be what the automaton accepts, so nothing needs to grow.
    if let Term::Var(_) = &asked.right {
        return Ok(None);
    }
    match grown(alloc, sys, &asked.left)? {
        Some(automaton) => shown(alloc, sys, conds, cond, automaton),
        None => Ok(None),
    }
}
