//! Whether a term is an instance of a pattern, decided without building the substitution.
ghost use Rattle.std.specs.Prelude.{◌≡◌, ◌↔◌, IsTrue, option_map, Option};
ghost use Rattle.rewriting.specs.Terms as math;
ghost use Rattle.rewriting.specs.Substitutions.{Matches};
ghost use Rattle.term_core.specs.View.{view, views};
ghost use Rattle.matching.specs.Values.{value_at, value_among, Agrees, AgreeAll, HasShape, HaveShape};

use term_core::{Term, equal};

// The subject's part at the first occurrence of a variable in the pattern.
#[cycle(value)]
#[tactic(auto, using(rewriting::proofs::Lengths::size_positive))]
fn value_of<'a>(x: u32, pattern: &Term, subject: &'a Term) -> Option<&'a Term>
    ensures { option_map (λ t. view t.now) result ≡ value_at x (view pattern.now) (view subject.now) }
{
    match (pattern, subject) {
        (Term::Var(y), _) => { if x == *y { Some(subject) } else { None } }
        (Term::Fun(_, patterns), Term::Fun(_, subjects)) => value_in(x, patterns, subjects),
        _ => None,
    }
}

#[cycle(value)]
#[tactic(auto, using(rewriting::proofs::Lengths::size_positive))]
fn value_in<'a>(x: u32, patterns: &[Term], subjects: &'a [Term]) -> Option<&'a Term>
    ensures { option_map (λ t. view t.now) result ≡ value_among x (views patterns.now) (views subjects.now) }
{
    let [pattern, patterns @ ..] = patterns else {
        return None;
    };
    let [subject, subjects @ ..] = subjects else {
        return None;
    };
    match value_of(x, pattern, subject) {
        Some(value) => Some(value),
        None => value_in(x, patterns, subjects),
    }
}

// Whether each variable of the pattern stands for the part that it has in the whole.
#[cycle(agrees)]
#[tactic(auto, using(rewriting::proofs::Lengths::size_positive))]
fn agrees(whole: &Term, onto: &Term, pattern: &Term, subject: &Term) -> bool
    ensures { IsTrue result ↔ Agrees (λ x. value_at x (view whole.now) (view onto.now)) (view pattern.now) (view subject.now) }
{
    match (pattern, subject) {
        (Term::Var(x), _) => match value_of(*x, whole, onto) {
            Some(value) => equal(value, subject),
            None => false,
        },
        (Term::Fun(f, patterns), Term::Fun(g, subjects)) => {
            if *f != *g {
                return false;
            }
            agree_all(whole, onto, patterns, subjects)
        }
        _ => false,
    }
}

#[cycle(agrees)]
#[tactic(auto, using(rewriting::proofs::Lengths::size_positive))]
fn agree_all(whole: &Term, onto: &Term, patterns: &[Term], subjects: &[Term]) -> bool
    ensures { IsTrue result ↔ AgreeAll (λ x. value_at x (view whole.now) (view onto.now)) (views patterns.now) (views subjects.now) }
{
    let [pattern, patterns @ ..] = patterns else {
        return subjects.is_empty();
    };
    let [subject, subjects @ ..] = subjects else {
        return false;
    };
    if !agrees(whole, onto, pattern, subject) {
        return false;
    }
    agree_all(whole, onto, patterns, subjects)
}

// Whether the symbols of the pattern stand in the subject, whatever stands at its variables.
#[cycle(shape)]
#[tactic(auto, using(rewriting::proofs::Lengths::size_positive))]
pub(crate) fn has_shape(pattern: &Term, subject: &Term) -> bool
    ensures { IsTrue result ↔ HasShape (view pattern.now) (view subject.now) }
{
    match (pattern, subject) {
        (Term::Var(_), _) => true,
        (Term::Fun(f, patterns), Term::Fun(g, subjects)) => {
            if *f != *g {
                return false;
            }
            have_shape(patterns, subjects)
        }
        _ => false,
    }
}

#[cycle(shape)]
#[tactic(auto, using(rewriting::proofs::Lengths::size_positive))]
fn have_shape(patterns: &[Term], subjects: &[Term]) -> bool
    ensures { IsTrue result ↔ HaveShape (views patterns.now) (views subjects.now) }
{
    let [pattern, patterns @ ..] = patterns else {
        return subjects.is_empty();
    };
    let [subject, subjects @ ..] = subjects else {
        return false;
    };
    if !has_shape(pattern, subject) {
        return false;
    }
    have_shape(patterns, subjects)
}

/// Whether the subject is an instance of the pattern. Nothing is built, and no memory is asked for.
pub fn matches(pattern: &Term, subject: &Term) -> bool
    ensures { IsTrue result ↔ Matches (view pattern.now) (view subject.now) }
{
    // The symbols come first, since what stands at variables may be large.
    if !has_shape(pattern, subject) {
        return false;
    }
    agrees(pattern, subject, pattern, subject)
}
