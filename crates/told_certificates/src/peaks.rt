//! Peaks: one term, two ways from it, and why their ends have no common reduct.
use crate::breaks::break_off;
use crate::derivations::{Stage, tell_derivation};
use crate::redexes::tell_redexes;
use crate::scene::Scene;
use cert_model::{Derivation, NonJoin, Peak};
use lens_pages::{Naming, Page, Piece};
use term_core::{Term, equal, try_clone};

/// How a derivation of a peak is told.
pub fn stage_of<'a>(scene: Scene<'a>) -> Stage<'a> {
    Stage {
        scene,
        naming: Naming::Numbered,
        hyps: &[],
        margin: 0,
    }
}

// Tells one of the two ways, and where it ends.
fn tell_way(
    page: &mut Page<'_>,
    scene: Scene<'_>,
    way: &str,
    start: &Term,
    d: &Derivation,
) -> Option<Term> {
    page.line(
        0,
        "#, #:",
        &[
            Piece::Words(way),
            Piece::Count(d.steps.len(), " step", " steps"),
        ],
    );
    let copy = try_clone(page.alloc, start);
    let start = page.got(copy)?;
    let end = tell_derivation(page, d, stage_of(scene).within(2), start);
    page.words("\n");
    end
}

// Tells that the ends are two normal forms.
fn tell_normal(page: &mut Page<'_>, first: &Term, second: &Term, redexes: usize) {
    if equal(first, second) {
        return break_off(
            page,
            0,
            "here both ways end at #; two different terms are expected",
            &[Piece::Term(Naming::Numbered, first)],
        );
    }
    page.line(
        0,
        "# and # have no common reduct: they differ, and neither has a step,",
        &[
            Piece::Term(Naming::Numbered, first),
            Piece::Term(Naming::Numbered, second),
        ],
    );
    let why = if redexes == 0 {
        "as no left side of a rule matches a part of them."
    } else {
        "as the left side of a rule matches a part of them only here, where its conditions are never met:"
    };
    page.line(0, "#", &[Piece::Words(why)])
}

fn tell_caps(page: &mut Page<'_>, first: &Term, second: &Term) {
    page.line(
        0,
        "# and # have no common reduct, by their caps:",
        &[
            Piece::Term(Naming::Numbered, first),
            Piece::Term(Naming::Numbered, second),
        ],
    );
    page.line(
        0,
        "what no step can change of the one does not fit what no step can change of the other.",
        &[],
    )
}

// Tells why the ends have no common reduct.
fn tell_apart(page: &mut Page<'_>, scene: Scene<'_>, first: &Term, second: &Term, apart: &NonJoin) {
    match apart {
        NonJoin::Normal(redexes) => {
            tell_normal(page, first, second, redexes.len());
            tell_redexes(page, scene, first, second, redexes)
        }
        NonJoin::Caps => tell_caps(page, first, second),
    }
}

// Tells where the ways begin.
fn tell_start(page: &mut Page<'_>, start: &Term) {
    page.line(
        0,
        "From # two ways lead to terms without a common reduct.",
        &[Piece::Term(Naming::Numbered, start)],
    );
    page.words("\n")
}

/// Tells a peak.
pub fn tell_peak(page: &mut Page<'_>, scene: Scene<'_>, peak: &Peak) {
    tell_start(page, &peak.start);
    let first = tell_way(page, scene, "The one way", &peak.start, &peak.first);
    let second = tell_way(page, scene, "The other way", &peak.start, &peak.second);
    if let (Some(first), Some(second)) = (&first, &second) {
        tell_apart(page, scene, first, second, &peak.apart);
    }
}
