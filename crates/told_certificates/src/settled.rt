//! Why an overlap is settled.
use crate::breaks::break_off;
use crate::derivations::{Stage, tell_derivation};
use crate::evidence::tell_infeasible;
use crate::scene::Scene;
use cert_model::{Derivation, PairEvidence, condition};
use critical_pairs::Overlap;
use lens_pages::{Naming, Page, Piece};
use term_core::{Cond, Term, equal, try_clone};

/// How derivations for an overlap are told.
pub fn stage_of<'a>(scene: Scene<'a>, overlap: &'a Overlap) -> Stage<'a> {
    Stage {
        scene,
        naming: scene.overlap_naming(overlap),
        hyps: &overlap.conds,
        margin: 4,
    }
}

/// Tells a derivation from a term, and answers its end.
pub fn tell_from(
    page: &mut Page<'_>,
    stage: Stage<'_>,
    start: &Term,
    d: &Derivation,
) -> Option<Term> {
    let copy = try_clone(page.alloc, start);
    let start = page.got(copy)?;
    tell_derivation(page, d, stage, start)
}

fn tell_differ(page: &mut Page<'_>, naming: Naming, first: &Term, second: &Term) {
    break_off(
        page,
        4,
        "here the ends # and # differ; one term is expected",
        &[Piece::Term(naming, first), Piece::Term(naming, second)],
    )
}

fn tell_join(
    page: &mut Page<'_>,
    stage: Stage<'_>,
    overlap: &Overlap,
    left: &Derivation,
    right: &Derivation,
) {
    page.line(2, "Both lead to one term:", &[]);
    let first = tell_from(page, stage, &overlap.left, left);
    page.line(2, "and", &[]);
    let second = tell_from(page, stage, &overlap.right, right);
    if let (Some(first), Some(second)) = (&first, &second)
        && !equal(first, second)
    {
        tell_differ(page, stage.naming, first, second);
    }
}

fn tell_conflict(page: &mut Page<'_>, stage: Stage<'_>, overlap: &Overlap, inner: u32, outer: u32) {
    let behind = outer.saturating_add(overlap.inner_conds);
    let found = (condition(stage.hyps, inner), condition(stage.hyps, behind));
    let (Some(first), Some(second)) = found else {
        return break_off(page, 2, "here a condition is named that there is not", &[]);
    };
    page.line(
        2,
        "Conditions # and # are never both met: # would have to lead to both # and #.",
        &[
            Piece::Number(inner as usize),
            Piece::Number(behind as usize),
            Piece::Term(stage.naming, &first.left),
            Piece::Term(stage.naming, &first.right),
            Piece::Term(stage.naming, &second.right),
        ],
    )
}

fn tell_unfeasible_head(page: &mut Page<'_>, naming: Naming, number: u32, cond: &Cond) {
    page.line(
        2,
        "The conditions are never all met: they would lead #, the left side of condition #,",
        &[
            Piece::Term(naming, &cond.left),
            Piece::Number(number as usize),
        ],
    );
    page.line(
        2,
        "to two terms that have no step under any values of their variables, and no common instance:",
        &[],
    )
}

fn tell_unfeasible(
    page: &mut Page<'_>,
    stage: Stage<'_>,
    number: u32,
    first: &Derivation,
    second: &Derivation,
) {
    let Some(cond) = condition(stage.hyps, number) else {
        return break_off(page, 2, "here a condition is named that there is not", &[]);
    };
    tell_unfeasible_head(page, stage.naming, number, cond);
    tell_from(page, stage, &cond.left, first);
    page.line(2, "and", &[]);
    tell_from(page, stage, &cond.left, second);
}

/// Tells why an overlap is settled.
pub fn tell_settled(
    page: &mut Page<'_>,
    scene: Scene<'_>,
    overlap: &Overlap,
    evidence: &PairEvidence,
) {
    let stage = stage_of(scene, overlap);
    match evidence {
        PairEvidence::Trivial => page.line(2, "Both are the same term.", &[]),
        PairEvidence::Infeasible(inner) => {
            tell_infeasible(page, 2, stage.naming, stage.hyps, inner)
        }
        PairEvidence::Conflict { inner, outer } => {
            tell_conflict(page, stage, overlap, *inner, *outer)
        }
        PairEvidence::Join { left, right } => tell_join(page, stage, overlap, left, right),
        PairEvidence::Unfeasible {
            cond,
            first,
            second,
        } => tell_unfeasible(page, stage, *cond, first, second),
    }
}
