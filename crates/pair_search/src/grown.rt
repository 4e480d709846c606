//! Automata that grow from conditions, remembered for the overlaps that follow with the same condition.
ghost use Rattle.std.specs.Prelude.{◌≡◌, None, Some, IfOk, map, option_map};
ghost use Rattle.unifier_run.specs.Overlaps.{IsOverlapOf};
ghost use Rattle.certificates.specs.Prelude.{by_automaton, infeasible_pair, hypothesis_at};
ghost use Rattle.valid_certificates.specs.Kinds.{Kind};
ghost use Rattle.term_core.specs.RuleView.{condition_view};
ghost use Rattle.cert_model.specs.EvidenceView.{automaton_view, pair_evidence_view};
ghost use Rattle.critical_pairs.specs.View.{overlap_view};
ghost use Rattle.search_spaces.specs.Refuting.{try_growth};
ghost use Rattle.search_spaces.specs.PairItems.{try_refuting};
ghost use Rattle.pair_search.specs.Answers.{ItemAnswers};
ghost use Rattle.pair_search.specs.Grown.{IsGrown};

use cert_model::{Automaton, InfEvidence, PairEvidence, condition};
use critical_pairs::Overlap;
use evidence_offers::valid_growth;
use infeasible::{copied_condition, is_same_condition};
use prepared_system::PreparedSystem;
use std::alloc::Global;
use std::marker::Model;
use term_core::{Cond, NoMemory};

// A condition for which growth was tried, and the automaton that grew where it shows that the condition is never met.
#[derive(Debug, Drop)]
struct Tried {
    cond: Cond,
    automaton: Option<Automaton>,
}

/// Remembers the last condition for which growth was tried, and what came of it: the automaton that grows from its left side,
/// where that shows that the condition is never met. Overlaps that follow one another may have one condition, and an automaton
/// is grown and judged for it once.
#[derive(Debug, Drop)]
pub struct Grown {
    last: Option<Tried>,
}

impl Model for Grown {
    ghost use Rattle.pair_search.specs.Grown.{Remembered, coded_remembered, remembered_view};

    ghost Value = { Remembered };

    ghost coded = { coded_remembered };

    ghost view = { remembered_view };
}

// The evidence by what grew for the condition with a number.
fn evidence_by(
    alloc: Global,
    number: u32,
    automaton: &Option<Automaton>,
) -> Result<Option<PairEvidence>, NoMemory>
    ensures { IfOk result (λ e. option_map pair_evidence_view e ≡ option_map (λ a. infeasible_pair (by_automaton number (automaton_view a))) automaton.now) }
{
    match automaton {
        Some(automaton) => Ok(Some(PairEvidence::Infeasible(InfEvidence::Auto {
            cond: number,
            automaton: automaton.try_clone(alloc)?,
        }))),
        None => Ok(None),
    }
}

impl Grown {
    /// Remembers nothing.
    pub fn new() -> Grown
        ensures { result ≡ None }
    {
        Grown { last: None }
    }

    // The evidence by the automaton that grows from a condition, which is remembered.
    fn grow_anew(
        &mut self,
        alloc: Global,
        sys: &PreparedSystem<'_>,
        overlap: &Overlap,
        number: u32,
        cond: &Cond,
    ) -> Result<Option<PairEvidence>, NoMemory>
        requires overlap { IsOverlapOf sys.now (overlap_view overlap.now) }
        requires there { hypothesis_at (map condition_view overlap.now.conds.items) number ≡ Some (condition_view cond.now) }
        requires knows { IsGrown self.old sys.now }
        ensures answer { (kind : Kind) → ItemAnswers kind sys.now (overlap_view overlap.now) (try_refuting (try_growth number)) result }
        ensures knows { IsGrown self.new sys.now }
    {
        // The law tells that conditions are small.
        sys.rules_are_sound();
        let automaton = valid_growth(alloc, sys.system(), &overlap.conds, number)?;
        let answer = evidence_by(alloc, number, &automaton)?;
        self.last = Some(Tried {
            cond: copied_condition(alloc, cond)?,
            automaton,
        });
        Ok(answer)
    }

    // The evidence by the automaton that grows from the condition with a number, where it is valid.
    pub(crate) fn grow(
        &mut self,
        alloc: Global,
        sys: &PreparedSystem<'_>,
        overlap: &Overlap,
        number: u32,
    ) -> Result<Option<PairEvidence>, NoMemory>
        requires overlap { IsOverlapOf sys.now (overlap_view overlap.now) }
        requires knows { IsGrown self.old sys.now }
        ensures answer { (kind : Kind) → ItemAnswers kind sys.now (overlap_view overlap.now) (try_refuting (try_growth number)) result }
        ensures knows { IsGrown self.new sys.now }
    {
        let Some(cond) = condition(&overlap.conds, number) else {
            return Ok(None);
        };
        match &self.last {
            Some(tried) if is_same_condition(cond, &tried.cond) => {
                evidence_by(alloc, number, &tried.automaton)
            }
            _ => self.grow_anew(alloc, sys, overlap, number, cond),
        }
    }
}
