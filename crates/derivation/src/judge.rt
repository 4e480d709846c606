//! Replaying a derivation step by step, where each condition of a rule is met by a nested derivation.
ghost use Rattle.std.specs.Prelude.{◌≡◌, ◌≤◌, [], length, IfOk, map};
ghost use Rattle.rewriting.specs.Matching.{IsLeastMatch, HasNoMatch};
ghost use Rattle.certificates.specs.Prelude.{condition_fails, derivation_of, derivations_of, Derives, StepsTo, AreMet, FailsFrom, StepFails, FailFrom, DoConditionsFit, IsShort, IsStepShort, AreShort};
ghost use Rattle.rewriting.specs.Terms as math;
ghost use Rattle.term_core.specs.Prelude.{view, condition_view};
ghost use Rattle.cert_model.specs.DerivationView.{derivation_view, step_view};
ghost use Rattle.derivation.specs.Answers.{ReplayAnswers, IsSound};
ghost use Rattle.derivation.specs.Errors.{Judged};
ghost use Rattle.derivation.specs.Judged.{IsCounted, IsInstance, HasNoInstance, Fulfils, Misses};

use crate::errors::{ReplayError, below, here};
use crate::instances::{found_at, instance, rule_at};
use crate::places::Counted;
use crate::steps::{by_hypothesis, contracted};
use cert_model::{Derivation, Step, StepReason};
use matching::{Match, match_owned};
use std::alloc::Global;
use term_core::{Cond, MAX_CONDITIONS, Subst, System, Term, size, try_clone};

// The term from which a condition's derivation starts.
fn condition_start(alloc: Global, values: &Subst, left: &Term) -> Result<Counted, ReplayError>
    requires { math.Fits (view left.now) }
    ensures { Judged (λ u. IsInstance values.now (view left.now) (view u.term) × IsCounted u) (λ path reason. (path ≡ []) × HasNoInstance values.now (view left.now) reason) result }
{
    let term = instance(alloc, values, left)?;
    let nodes = size(&term);
    Ok(Counted { term, nodes })
}

// The values with those that make the right side of a condition equal the end of its derivation.
fn values_after(alloc: Global, values: Subst, right: &Term, end: Term) -> Result<Subst, ReplayError>
    ensures { Judged (λ after. IsLeastMatch values after (view right.now) (view end)) (λ path reason. (path ≡ []) × (reason ≡ condition_fails) × HasNoMatch values (view right.now) (view end)) result }
{
    match match_owned(values, right, end)? {
        Match::Bound(after) => Ok(after),
        Match::Unmatched => Err(here(alloc, StepReason::ConditionFails)),
    }
}

// The values once a condition is met by its derivation.
#[cycle(judge)]
fn condition_met(
    alloc: Global,
    d: &Derivation,
    sys: &System,
    hyps: &[Cond],
    cond: &Cond,
    values: Subst,
) -> Result<Subst, ReplayError>
    requires hypotheses { DoConditionsFit (map condition_view hyps.now) }
    requires left { math.Fits (view cond.now.left) }
    requires short { IsShort (derivation_view d.now) }
    ensures { Judged (Fulfils sys.now (map condition_view hyps.now) (derivation_view d.now) values (condition_view cond.now))
        (Misses sys.now (map condition_view hyps.now) (derivation_view d.now) values (condition_view cond.now)) result }
{
    let from = condition_start(alloc, &values, &cond.left)?;
    let end = run(alloc, &d.steps, sys, hyps, from)?;
    values_after(alloc, values, &cond.right, end.term)
}

// The values once each condition in order is met by its derivation.
#[cycle(judge)]
fn values_met(
    alloc: Global,
    ds: &[Derivation],
    sys: &System,
    hyps: &[Cond],
    conds: &[Cond],
    start: Subst,
) -> Result<Subst, ReplayError>
    requires hypotheses { DoConditionsFit (map condition_view hyps.now) }
    requires conditions { DoConditionsFit (map condition_view conds.now) }
    requires few { length conds.now ≤ MAX_CONDITIONS }
    requires paired { length ds.now ≡ length conds.now }
    requires short { AreShort (derivations_of (map derivation_view ds.now)) }
    ensures { Judged (λ end. AreMet sys.now (map condition_view hyps.now) start (map condition_view conds.now) (derivations_of (map derivation_view ds.now)) end) (λ path reason. FailFrom sys.now (map condition_view hyps.now) 1 start (map condition_view conds.now) (derivations_of (map derivation_view ds.now)) path reason) result }
{
    let mut values = start;
    for k in 0..ds.len() {
        values = match condition_met(alloc, &ds[k], sys, hyps, &conds[k], values) {
            Ok(after) => after,
            Err(e) => return Err(below(k as u32 + 1, e)),
        };
    }
    Ok(values)
}

// The term after a step.
#[cycle(judge)]
fn after_step(
    alloc: Global,
    step: &Step,
    sys: &System,
    hyps: &[Cond],
    t: Counted,
) -> Result<Counted, ReplayError>
    requires hypotheses { DoConditionsFit (map condition_view hyps.now) }
    requires counted { IsCounted t }
    requires short { IsStepShort (step_view step.now) }
    ensures { Judged (λ u. StepsTo sys.now (map condition_view hyps.now) (view t.term) (step_view step.now) (view u.term) × IsCounted u) (λ path reason. StepFails sys.now (map condition_view hyps.now) (view t.term) (step_view step.now) path reason) result }
{
    match step {
        Step::Rule { rule, pos, conds } => {
            let Some(rule) = rule_at(sys, *rule) else {
                return Err(here(alloc, StepReason::NoSuchRule));
            };
            let found = found_at(alloc, &rule.left, t, pos)?;
            if conds.len() != rule.conds.len() {
                return Err(here(alloc, StepReason::WrongCount));
            }
            let values = values_met(alloc, conds, sys, hyps, &rule.conds, found.values)?;
            contracted(alloc, &rule.right, values, found.rest, pos)
        }
        Step::Hyp { number, pos } => by_hypothesis(alloc, hyps, t, *number, pos),
    }
}

// The term after all steps.
#[cycle(judge)]
fn run(
    alloc: Global,
    steps: &[Step],
    sys: &System,
    hyps: &[Cond],
    start: Counted,
) -> Result<Counted, ReplayError>
    requires hypotheses { DoConditionsFit (map condition_view hyps.now) }
    requires counted { IsCounted start }
    requires short { IsShort (derivation_of (map step_view steps.now)) }
    ensures { Judged (λ u. Derives sys.now (map condition_view hyps.now) (view start.term) (derivation_of (map step_view steps.now)) (view u.term) × IsCounted u) (λ path reason. FailsFrom sys.now (map condition_view hyps.now) 1 (view start.term) (derivation_of (map step_view steps.now)) path reason) result }
{
    let mut t = start;
    let mut number = 0;
    for step in steps {
        number += 1;
        t = match after_step(alloc, step, sys, hyps, t) {
            Ok(next) => next,
            Err(e) => return Err(below(number, e)),
        };
    }
    Ok(t)
}

/// The term to which the derivation leads from the start, under the hypotheses, or its first bad step.
/// Under each substitution that meets the hypotheses the instance of the start reduces to that of the
/// end.
pub fn replay(
    alloc: Global,
    sys: &System,
    hyps: &[Cond],
    start: &Term,
    d: &Derivation,
) -> Result<Term, ReplayError>
    requires start { math.Fits (view start.now) }
    requires hypotheses { DoConditionsFit (map condition_view hyps.now) }
    requires short { IsShort (derivation_view d.now) }
    ensures judged { ReplayAnswers sys.now (map condition_view hyps.now) (view start.now) (derivation_view d.now) result }
    ensures sound { IfOk result (λ end. IsSound sys.now (map condition_view hyps.now) (view start.now) (view end)) }
{
    // The law tells that the rules are over the system's symbols, on which soundness rests.
    sys.rules_are_sound();
    let term = try_clone(alloc, start)?;
    let nodes = size(&term);
    let end = run(alloc, &d.steps, sys, hyps, Counted { term, nodes })?;
    Ok(end.term)
}
