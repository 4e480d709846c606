//! Closure of an automaton under the rules of a system: where a left side arrives at a state, the right side is kept there.
ghost use Rattle.std.specs.Prelude.{◌≡◌, ◌↔◌, ◌+◌, ℕ, List, IfOk, IfSome, IsTrue, length, map};
ghost use Rattle.rewriting.specs.Prelude.{IsAmong, variable_occurrences};
ghost use Rattle.rewriting.specs.Terms as math;
ghost use Rattle.automata.specs.Closed.{AreNarrow};
ghost use Rattle.automata.specs.Evidence.{IsClosureJudged};
ghost use Rattle.term_core.specs.Prelude.{view, rule_view};
ghost use Rattle.cert_model.specs.EvidenceView.{automaton_view};
ghost use Rattle.refuter.specs.Answers.{RefutesAnswers};
ghost use Rattle.number_sets.specs.Relation.{Relates};
ghost use Rattle.automaton_runs.specs.Counted.{under};
ghost use Rattle.automaton_runs.specs.Choices.{AreChoices, Holds, occurrences_of};
ghost use Rattle.automaton_runs.specs.Reached.{AreWhere};
ghost use Rattle.tree_automata.specs.Kept.{IsInclusion, IsVariable, IsKeptBy};
ghost use Rattle.tree_automata.specs.Batches.{IfAlways, LackingAtAnswers, FailureInAnswers, FailureAnswers};
ghost use Rattle.tree_automata.specs.Open.{HaveSides, AreClosed, OpenAnswers, IsOpenJudged};

use crate::sides::{inclusion_if_asked, kept};
use crate::width::judge_widths;
use automaton_runs::{
    Arrival, AutomatonIndex, Batch, Choices, occurrences, reached_by_occurrences,
};
use cert_model::{Automaton, EvidenceReason};
use number_sets::NumberRelation;
use refuter::Refusal;
use std::alloc::Global;
use term_core::{NoMemory, Rule, System, Term, equal};

// Whether two lists share a number.
fn do_share(first: &[u32], second: &[u32]) -> bool
    ensures { IsTrue result ↔ ((x : ℕ) × IsAmong x first.now × IsAmong x second.now) }
{
    for x in first {
        if second.contains(x) {
            return true;
        }
    }
    false
}

// The states at which a right side is kept, where none of its variables has its state in the fronts: they are the
// same with every front.
fn kept_always(
    alloc: Global,
    index: &AutomatonIndex<'_>,
    inclusion: &NumberRelation,
    choices: &Choices,
    names: &[u32],
    right: &Term,
) -> Result<Option<NumberRelation>, NoMemory>
    requires { (front : List ℕ) → IsAmong front choices.now.fronts → length front + choices.now.width ≡ length names.now }
    ensures { IfOk result (IfAlways choices.now (IsKeptBy inclusion.now index.now names.now (view right.now))) }
{
    let Some(front) = choices.fronts().first() else {
        return Ok(None);
    };
    if do_share(&names[..front.len()], &occurrences(alloc, right)?) {
        return Ok(None);
    }
    let batch = choices.batch(alloc, front)?;
    Ok(Some(kept(alloc, index, inclusion, &batch, names, right)?))
}

// The first pair of a choice and a state that one relation lacks.
fn first_lacking(
    alloc: Global,
    batch: &Batch<'_>,
    left: &NumberRelation,
    right: &NumberRelation,
) -> Result<Option<Arrival>, NoMemory>
    requires { (q k : ℕ) → Relates left.now q k → Holds batch.now k }
    ensures { IfOk result (LackingAtAnswers batch.now left.now right.now) }
{
    match left.first_lacking(alloc, right) {
        None => Ok(None),
        Some((state, k)) => {
            let choice = batch.choice(alloc, k)?;
            Ok(Some(Arrival { choice, state }))
        }
    }
}

// A rule, and which states include which, where its right side is a variable.
#[derive(Clone, Copy)]
struct Asked<'a> {
    inclusion: &'a NumberRelation,
    rule: &'a Rule,
}

// The first arrival of the left side, by the choices of a batch, at which the right side is not kept. It may be known
// where that is kept.
fn first_open_in(
    alloc: Global,
    index: &AutomatonIndex<'_>,
    asked: Asked<'_>,
    names: &[u32],
    batch: &Batch<'_>,
    known: Option<&NumberRelation>,
) -> Result<Option<Arrival>, NoMemory>
    requires fits { math.Fits (view asked.rule.now.left) }
    requires names { names.now ≡ variable_occurrences (view asked.rule.now.left) }
    requires length { occurrences_of batch.now ≡ length names.now }
    requires known { IfSome known (λ r. AreWhere batch.now (IsKeptBy asked.inclusion.now index.now names.now (view asked.rule.now.right)) r.now) }
    ensures { IfOk result (FailureInAnswers index.now (view asked.entry.rule.now.left) (IsKeptBy asked.entry.inclusion.now index.now names.now (view asked.entry.rule.now.right)) batch.now) }
{
    let Asked { inclusion, rule } = asked;
    let left = reached_by_occurrences(alloc, index, batch, &rule.left)?;
    // A left side may arrive nowhere with a front that is possible.
    if left.is_empty() {
        return Ok(None);
    }
    match known {
        Some(right) => first_lacking(alloc, batch, &left, right),
        None => {
            let right = kept(alloc, index, inclusion, batch, names, &rule.right)?;
            first_lacking(alloc, batch, &left, &right)
        }
    }
}

// The first arrival of the left side at which the right side is not kept.
fn first_open<'a>(
    alloc: Global,
    index: &AutomatonIndex<'_>,
    inclusion: &'a NumberRelation,
    rule: &'a Rule,
    choices: &Choices,
) -> Result<Option<Arrival>, NoMemory>
    requires fits { math.Fits (view rule.now.left) }
    requires choices { AreChoices index.now (view rule.now.left) choices.now }
    ensures { IfOk result (FailureAnswers index.now (view rule.now.left) (IsKeptBy inclusion.now index.now (variable_occurrences (view rule.now.left)) (view rule.now.right))) }
{
    let held = occurrences(alloc, &rule.left)?;
    let names: &[u32] = &held;
    let asked = Asked { inclusion, rule };
    let always = kept_always(alloc, index, inclusion, choices, names, &rule.right)?;
    let known = always.as_ref();
    for front in choices.fronts() {
        let batch = choices.batch(alloc, front)?;
        let open = first_open_in(alloc, index, asked, names, &batch, known)?;
        if open.is_some() {
            return Ok(open);
        }
    }
    Ok(None)
}

// Whether one of some rules has the sides of a rule.
fn have_sides(rules: &[Rule], rule: &Rule) -> bool
    ensures { IsTrue result ↔ HaveSides (map rule_view rules.now) (rule_view rule.now) }
{
    for other in rules {
        if equal(&other.left, &rule.left) && equal(&other.right, &rule.right) {
            return true;
        }
    }
    false
}

// The first arrival of a rule's left side at which its right side is not kept. Where that may take long, it is first
// looked for an earlier rule with the same sides, since the right sides of all earlier rules are kept.
fn first_open_of_rule(
    alloc: Global,
    index: &AutomatonIndex<'_>,
    inclusion: &NumberRelation,
    earlier: &[Rule],
    rule: &Rule,
) -> Result<Option<Arrival>, NoMemory>
    requires fits { math.Fits (view rule.now.left) }
    requires asked { IsVariable (view rule.now.right) → IsInclusion index.now inclusion.now }
    requires earlier { AreClosed index.now (map rule_view earlier.now) }
    ensures { IfOk result (OpenAnswers index.now (rule_view rule.now)) }
{
    let choices = Choices::new(alloc, index, &rule.left)?;
    if choices.fronts().len() > 1 && have_sides(earlier, rule) {
        return Ok(None);
    }
    first_open(alloc, index, inclusion, rule, &choices)
}

// The index of an automaton by the symbols of a system.
pub(crate) fn index_under<'a>(
    alloc: Global,
    sys: &'a System,
    a: &'a Automaton,
) -> Result<AutomatonIndex<'a>, NoMemory>
    ensures { IfOk result (λ index. index ≡ under sys.now (automaton_view a.now)) }
{
    AutomatonIndex::new(alloc, Some(sys.arities()), a)
}

// Whether every right side is kept, or the first that is not.
fn judge_rules(
    alloc: Global,
    index: &AutomatonIndex<'_>,
    sys: &System,
    a: &Automaton,
) -> Result<(), Refusal>
    requires index { index.now ≡ under sys.now (automaton_view a.now) }
    requires narrow { AreNarrow sys.now (automaton_view a.now) }
    ensures { RefutesAnswers (IsOpenJudged sys.now (automaton_view a.now)) result }
{
    let inclusion = inclusion_if_asked(alloc, index, sys)?;
    let rules = sys.rules();
    let mut number: u32 = 0;
    'rules: for rule in rules {
        let earlier = &rules[..number as usize];
        number += 1;
        match first_open_of_rule(alloc, index, &inclusion, earlier, rule)? {
            None => {}
            Some(arrival) => {
                return Err(Refusal::Reason(EvidenceReason::AutoNotClosed {
                    rule: number,
                    states: arrival.choice,
                    target: arrival.state,
                }));
            }
        }
    }
    Ok(())
}

/// What [`is_closed`] tells, asked of the automaton's index by the symbols of the system.
pub(crate) fn judge_closure(
    alloc: Global,
    index: &AutomatonIndex<'_>,
    sys: &System,
    a: &Automaton,
) -> Result<(), Refusal>
    requires { index.now ≡ under sys.now (automaton_view a.now) }
    ensures { RefutesAnswers (λ o. IsClosureJudged sys.now (automaton_view a.now) o) result }
{
    judge_widths(alloc, sys, a)?;
    judge_rules(alloc, index, sys, a)
}

/// Whether an automaton is closed under the rules of a system: where a left side reaches a state, so does the
/// right side. Else `AutoWide` for the first left side with more than 1,000,000 choices of states, or
/// `AutoNotClosed` for the first rule, choice and state at which the right side is not kept.
pub fn is_closed(alloc: Global, sys: &System, a: &Automaton) -> Result<(), Refusal>
    ensures { RefutesAnswers (λ o. IsClosureJudged sys.now (automaton_view a.now) o) result }
{
    let index = index_under(alloc, sys, a)?;
    judge_closure(alloc, &index, sys, a)
}
