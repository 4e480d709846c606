//! Exclusion of a term: no choice of states for its variable occurrences brings it to an accepting state.
ghost use Rattle.std.specs.Prelude.{◌≡◌, ◌↔◌, None, IfOk, IsTrue};
ghost use Rattle.rewriting.specs.Terms as math;
ghost use Rattle.automata.specs.Evidence.{IsExclusionJudged};
ghost use Rattle.automata.specs.Closed.{Excludes};
ghost use Rattle.term_core.specs.View.{view};
ghost use Rattle.cert_model.specs.EvidenceView.{automaton_view};
ghost use Rattle.refuter.specs.Answers.{RefutesAnswers};
ghost use Rattle.automaton_runs.specs.Choices.{AreChoices};

use crate::accepts::is_one_accepting;
use crate::width::MOST_CHOICES;
use automaton_runs::{
    AutomatonIndex, Choices, has_more_choices, occurrences, reached_by_occurrences,
};
use cert_model::{Automaton, EvidenceReason};
use refuter::Refusal;
use std::alloc::Global;
use term_core::{NoMemory, Term};

// Whether no choice of states for its variable occurrences brings a term to an accepting state.
fn is_excluded(
    alloc: Global,
    index: &AutomatonIndex<'_>,
    a: &Automaton,
    t: &Term,
    choices: &Choices,
) -> Result<bool, NoMemory>
    requires fits { math.Fits (view t.now) }
    requires index { index.now.automaton ≡ automaton_view a.now }
    requires choices { AreChoices index.now (view t.now) choices.now }
    ensures { IfOk result (λ yes. IsTrue yes ↔ Excludes index.now.symbols (automaton_view a.now) (view t.now)) }
{
    for front in choices.fronts() {
        let batch = choices.batch(alloc, front)?;
        let reached = reached_by_occurrences(alloc, index, &batch, t)?;
        if is_one_accepting(&reached, a) {
            return Ok(false);
        }
    }
    Ok(true)
}

// Judges whether the automaton excludes a term, by the symbols of the index.
pub(crate) fn judge_exclusion(
    alloc: Global,
    index: &AutomatonIndex<'_>,
    a: &Automaton,
    t: &Term,
) -> Result<(), Refusal>
    requires fits { math.Fits (view t.now) }
    requires index { index.now.automaton ≡ automaton_view a.now }
    ensures { RefutesAnswers (λ o. IsExclusionJudged index.now.symbols (automaton_view a.now) (view t.now) o) result }
{
    let length = occurrences(alloc, t)?.len();
    if has_more_choices(a.states, length, MOST_CHOICES) {
        return Err(Refusal::Reason(EvidenceReason::AutoWideRight));
    }
    let choices = Choices::new(alloc, index, t)?;
    if !is_excluded(alloc, index, a, t, &choices)? {
        return Err(Refusal::Reason(EvidenceReason::AutoReaches));
    }
    Ok(())
}

/// Whether no choice of states for its variable occurrences brings a term to an accepting state. Else
/// `AutoWideRight` where there are more than 1,000,000 choices, or `AutoReaches`. For a system over whose symbols the
/// term is, the transitions that lead somewhere are those that count.
pub fn excludes(alloc: Global, a: &Automaton, t: &Term) -> Result<(), Refusal>
    requires { math.Fits (view t.now) }
    ensures { RefutesAnswers (λ o. IsExclusionJudged None (automaton_view a.now) (view t.now) o) result }
{
    let index = AutomatonIndex::new(alloc, None, a)?;
    judge_exclusion(alloc, &index, a, t)
}
