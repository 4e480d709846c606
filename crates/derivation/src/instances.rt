//! The rule that a step names, its match at the step's position, and instances of terms whose variables all have values.
ghost use Rattle.std.specs.Prelude.{◌≡◌, [], option_map, IfSome};
ghost use Rattle.rewriting.specs.Terms as math;
ghost use Rattle.rewriting.specs.Rules as rules;
ghost use Rattle.rewriting.specs.Substitutions.{apply};
ghost use Rattle.certificates.specs.Reasons.{no_redex};
ghost use Rattle.term_core.specs.Prelude.{view, rule_view};
ghost use Rattle.derivation.specs.Errors.{Judged};
ghost use Rattle.derivation.specs.Judged.{HasNoInstance, IsInstance, IsMatch, IsUnmatchedAt, IsCounted, IsJudgable};

use crate::errors::{ReplayError, here};
use crate::places::{Counted, Opened, open_at};
use cert_model::StepReason;
use matching::{Match, match_owned};
use std::alloc::Global;
use term_core::{Rule, Subst, System, Term, TermError};

// The rule with a number.
pub fn rule_at(sys: &System, number: u32) -> Option<&Rule>
    ensures rule { option_map (λ r. rule_view r.now) result ≡ rules.rule_at sys.now number }
    ensures good { IfSome result (λ r. IsJudgable (rule_view r.now)) }
{
    if number == 0 {
        return None;
    }
    sys.rules().get(number as usize - 1)
}

// The instance of a term whose variables all have values.
pub fn instance(alloc: Global, values: &Subst, t: &Term) -> Result<Term, ReplayError>
    requires { math.Fits (view t.now) }
    ensures { Judged (λ u. IsInstance values.now (view t.now) (view u)) (λ path reason. (path ≡ []) × HasNoInstance values.now (view t.now) reason) result }
{
    if !values.covers(t) {
        return Err(here(alloc, StepReason::Unbound));
    }
    match values.apply(alloc, t) {
        Ok(u) => Ok(u),
        Err(TermError::NoMemory) => Err(ReplayError::NoMemory),
        Err(_) => Err(here(alloc, StepReason::TooLarge)),
    }
}

// The same, into which the values are moved.
pub fn contractum(alloc: Global, values: Subst, right: &Term) -> Result<Term, ReplayError>
    requires { math.Fits (view right.now) }
    ensures { Judged (λ u. IsInstance values (view right.now) (view u)) (λ path reason. (path ≡ []) × HasNoInstance values (view right.now) reason) result }
{
    if !values.covers(right) {
        return Err(here(alloc, StepReason::Unbound));
    }
    match values.into_instance(alloc, right) {
        Ok(u) => Ok(u),
        Err(TermError::NoMemory) => Err(ReplayError::NoMemory),
        Err(_) => Err(here(alloc, StepReason::TooLarge)),
    }
}

// A rule's match at a position, and the term without what stood there.
#[derive(Drop)]
pub struct Found {
    pub values: Subst,
    pub rest: Counted,
}

// The match of a left side at a position.
pub fn found_at(alloc: Global, left: &Term, t: Counted, p: &[u32]) -> Result<Found, ReplayError>
    requires { IsCounted t }
    ensures { Judged (λ f. IsMatch (view left.now) (view t.term) p.now f) (λ path reason. (path ≡ []) × (reason ≡ no_redex) × IsUnmatchedAt (view left.now) (view t.term) p.now) result }
{
    let Some(Opened { part, rest }) = open_at(t, p) else {
        return Err(here(alloc, StepReason::NoRedex));
    };
    match match_owned(Subst::new(alloc), left, part)? {
        Match::Bound(values) => Ok(Found { values, rest }),
        Match::Unmatched => Err(here(alloc, StepReason::NoRedex)),
    }
}
