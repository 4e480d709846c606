//! The limit on the choices of states for a term, and the first rule whose left side passes it.
ghost use Rattle.cert_model.specs.EvidenceView.{automaton_view};
ghost use Rattle.refuter.specs.Answers.{RefutesAnswers};
ghost use Rattle.tree_automata.specs.Open.{IsWidthJudged};

pub(crate) use automata::MOST_CHOICES;
use automaton_runs::{has_more_choices, occurrences};
use cert_model::{Automaton, EvidenceReason};
use refuter::Refusal;
use std::alloc::Global;
use term_core::System;

// Whether no left side is wide, or the first rule whose left side is.
pub(crate) fn judge_widths(alloc: Global, sys: &System, a: &Automaton) -> Result<(), Refusal>
    ensures { RefutesAnswers (IsWidthJudged sys.now (automaton_view a.now)) result }
{
    let mut number: u32 = 0;
    'rules: for rule in sys.rules() {
        number += 1;
        let names = occurrences(alloc, &rule.left)?;
        if has_more_choices(a.states, names.len(), MOST_CHOICES) {
            return Err(Refusal::Reason(EvidenceReason::AutoWide { rule: number }));
        }
    }
    Ok(())
}
