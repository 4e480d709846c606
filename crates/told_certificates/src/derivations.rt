//! Derivations as the terms that they lead through, one under the other.
use crate::breaks::break_off;
use crate::rules::rule_of;
use crate::scene::Scene;
use cert_model::{Derivation, Step, condition};
use lens_pages::{Naming, Page, Piece};
use matching::{Match, match_onto, match_term};
use term_core::{Cond, NoMemory, Subst, Term, TermError, equal, fits, replace, subterm};

/// What a derivation is told over: a system, how the variables of its terms are named, the conditions that it may use, and how
/// far from the left margin it is told.
#[derive(Clone, Copy)]
pub struct Stage<'a> {
    pub scene: Scene<'a>,
    pub naming: Naming,
    pub hyps: &'a [Cond],
    pub margin: usize,
}

impl<'a> Stage<'a> {
    /// The same, further from the margin.
    pub fn within(self, more: usize) -> Stage<'a> {
        Stage {
            margin: self.margin.saturating_add(more),
            ..self
        }
    }
}

// The instance of a term, or none where a variable has no value or the instance is too large, which is told.
fn instance(
    page: &mut Page<'_>,
    margin: usize,
    values: &Subst,
    naming: Naming,
    t: &Term,
) -> Option<Term> {
    if !values.covers(t) {
        break_off(
            page,
            margin,
            "here a variable of # has no value",
            &[Piece::Term(naming, t)],
        );
        return None;
    }
    let made = if fits(t) {
        values.apply(page.alloc, t)
    } else {
        Err(TermError::TooLarge)
    };
    match made {
        Ok(u) => Some(u),
        Err(TermError::NoMemory) => page.got(Err(NoMemory)),
        Err(_) => {
            break_off(
                page,
                margin,
                "here the instance of # is too large",
                &[Piece::Term(naming, t)],
            );
            None
        }
    }
}

// The term with another part at a position.
fn with_part(
    page: &mut Page<'_>,
    margin: usize,
    t: &Term,
    pos: &[u32],
    part: &Term,
) -> Option<Term> {
    let made = if fits(t) && fits(part) {
        replace(page.alloc, t, pos, part)
    } else {
        Err(TermError::TooLarge)
    };
    match made {
        Ok(u) => Some(u),
        Err(TermError::NoMemory) => page.got(Err(NoMemory)),
        Err(_) => {
            break_off(
                page,
                margin,
                "here the term after the step is too large",
                &[],
            );
            None
        }
    }
}

// What the left side's variables stand for at a position; none where it does not match there, which is told.
fn values_at<'x>(
    page: &mut Page<'_>,
    stage: Stage<'_>,
    t: &'x Term,
    number: u32,
    pos: &'x [u32],
    left: &'x Term,
) -> Option<Subst> {
    let Some(part) = subterm(t, pos) else {
        break_off(
            page,
            stage.margin,
            "here rule # is to be used #, which is no position of #",
            &[
                Piece::Number(number as usize),
                Piece::At(pos),
                Piece::Term(stage.naming, t),
            ],
        );
        return None;
    };
    let matched = match_term(page.alloc, left, part);
    if let Match::Bound(values) = page.got(matched)? {
        return Some(values);
    }
    break_off(
        page,
        stage.margin,
        "here rule # does not match #: its left side is #, and there stands #",
        &[
            Piece::Number(number as usize),
            Piece::At(pos),
            Piece::Term(stage.scene.naming(number), left),
            Piece::Term(stage.naming, part),
        ],
    );
    None
}

// The values with those that make the right side of a condition equal the end of its derivation.
fn values_after(
    page: &mut Page<'_>,
    stage: Stage<'_>,
    values: &Subst,
    number: u32,
    right: &Term,
    end: &Term,
) -> Option<Subst> {
    let matched = match_onto(page.alloc, values, right, end);
    if let Match::Bound(after) = page.got(matched)? {
        return Some(after);
    }
    break_off(
        page,
        stage.margin,
        "here the condition does not hold: # is no instance of # with what its variables stand for",
        &[
            Piece::Term(stage.naming, end),
            Piece::Term(stage.scene.naming(number), right),
        ],
    );
    None
}

// Tells that a condition of a rule is to be met.
fn tell_condition(page: &mut Page<'_>, stage: Stage<'_>, number: u32, k: usize, cond: &Cond) {
    page.line(
        stage.margin,
        "for condition # of rule #, #:",
        &[
            Piece::Number(k.saturating_add(1)),
            Piece::Number(number as usize),
            Piece::Cond(stage.scene.naming(number), cond),
        ],
    )
}

// The values once each condition in order is met by its derivation, which is told.
#[cycle(tell)]
fn conditions_met(
    page: &mut Page<'_>,
    ds: &[Derivation],
    stage: Stage<'_>,
    number: u32,
    conds: &[Cond],
    start: Subst,
) -> Option<Subst> {
    let inner = stage.within(2);
    let mut values = start;
    for (k, d) in ds.iter().enumerate() {
        let Some(cond) = conds.get(k) else {
            return Some(values);
        };
        tell_condition(page, stage, number, k, cond);
        let naming = stage.scene.naming(number);
        let from = instance(page, inner.margin, &values, naming, &cond.left)?;
        let end = tell_derivation(page, d, inner, from)?;
        let after = values_after(page, inner, &values, number, &cond.right, &end)?;
        values = after;
    }
    Some(values)
}

// Tells that the number of derivations is not that of a rule's conditions.
fn tell_wrong_count(page: &mut Page<'_>, margin: usize, number: u32, conds: usize, ds: usize) {
    break_off(
        page,
        margin,
        "here rule # has #, and the step has derivations for #",
        &[
            Piece::Number(number as usize),
            Piece::Count(conds, " condition", " conditions"),
            Piece::Number(ds),
        ],
    )
}

// The term after a step by a rule.
#[cycle(tell)]
fn after_rule(
    page: &mut Page<'_>,
    ds: &[Derivation],
    stage: Stage<'_>,
    t: &Term,
    number: u32,
    pos: &[u32],
) -> Option<Term> {
    let inner = stage.within(5);
    let Some(rule) = rule_of(stage.scene, number) else {
        break_off(
            page,
            inner.margin,
            "here there is no rule #",
            &[Piece::Number(number as usize)],
        );
        return None;
    };
    let values = values_at(page, inner, t, number, pos, &rule.left)?;
    if rule.conds.len() != ds.len() {
        tell_wrong_count(page, inner.margin, number, rule.conds.len(), ds.len());
        return None;
    }
    let values = conditions_met(page, ds, inner, number, &rule.conds, values)?;
    let naming = stage.scene.naming(number);
    let part = instance(page, inner.margin, &values, naming, &rule.right)?;
    let u = with_part(page, inner.margin, t, pos, &part)?;
    tell_after(page, stage, &u, "rule", number, pos);
    Some(u)
}

// Tells the term after a step.
fn tell_after<'x>(
    page: &mut Page<'_>,
    stage: Stage<'_>,
    u: &'x Term,
    by: &'x str,
    number: u32,
    pos: &'x [u32],
) {
    page.line(
        stage.margin,
        "-> #   by # # #",
        &[
            Piece::Term(stage.naming, u),
            Piece::Words(by),
            Piece::Number(number as usize),
            Piece::At(pos),
        ],
    )
}

// Whether a term stands at a position.
fn stands_at(t: &Term, pos: &[u32], left: &Term) -> bool {
    match subterm(t, pos) {
        Some(part) => equal(part, left),
        None => false,
    }
}

// The term after a step by a condition that may be used.
fn after_hypothesis<'x>(
    page: &mut Page<'_>,
    stage: Stage<'x>,
    t: &'x Term,
    number: u32,
    pos: &'x [u32],
) -> Option<Term> {
    let inner = stage.within(5);
    let Some(cond) = condition(stage.hyps, number) else {
        break_off(
            page,
            inner.margin,
            "here there is no condition # that may be used",
            &[Piece::Number(number as usize)],
        );
        return None;
    };
    if !stands_at(t, pos, &cond.left) {
        break_off(
            page,
            inner.margin,
            "here condition # cannot be used #, where its left side # does not stand",
            &[
                Piece::Number(number as usize),
                Piece::At(pos),
                Piece::Term(stage.naming, &cond.left),
            ],
        );
        return None;
    }
    let u = with_part(page, inner.margin, t, pos, &cond.right)?;
    tell_after(page, stage, &u, "condition", number, pos);
    Some(u)
}

/// The term after a step, which is told; none where it does not apply.
#[cycle(tell)]
pub fn after_step(page: &mut Page<'_>, step: &Step, stage: Stage<'_>, t: &Term) -> Option<Term> {
    match step {
        Step::Rule { rule, pos, conds } => after_rule(page, conds, stage, t, *rule, pos),
        Step::Hyp { number, pos } => after_hypothesis(page, stage, t, *number, pos),
    }
}

/// Tells a derivation from a term: the term to which it leads, or none where a step does not apply, which is told where it
/// should stand.
#[cycle(tell)]
pub fn tell_derivation(
    page: &mut Page<'_>,
    d: &Derivation,
    stage: Stage<'_>,
    start: Term,
) -> Option<Term> {
    page.line(
        stage.margin.saturating_add(3),
        "#",
        &[Piece::Term(stage.naming, &start)],
    );
    let mut t = start;
    for step in &d.steps {
        let next = after_step(page, step, stage, &t)?;
        t = next;
    }
    Some(t)
}
