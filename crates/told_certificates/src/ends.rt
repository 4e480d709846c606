//! Why the ends of a rejected peak are not apart.
use crate::derivations::tell_derivation;
use crate::peaks::stage_of;
use crate::reasons::tell_reason;
use crate::redexes::tell_redexes;
use crate::rules::rule_of;
use crate::scene::Scene;
use cert_model::{Derivation, NonJoin, Peak, Redex, Rejected};
use lens_pages::{Naming, Page, Piece};
use term_core::{Term, try_clone};

// The end of one of the two ways.
fn end_of(page: &mut Page<'_>, scene: Scene<'_>, start: &Term, d: &Derivation) -> Option<Term> {
    let copy = try_clone(page.alloc, start);
    let start = page.got(copy)?;
    page.set_quiet(true);
    let end = tell_derivation(page, d, stage_of(scene), start);
    page.set_quiet(false);
    end
}

fn tell_ends(page: &mut Page<'_>, first: &Term, second: &Term) {
    page.line(
        0,
        "The two ways end at # and #.",
        &[
            Piece::Term(Naming::Numbered, first),
            Piece::Term(Naming::Numbered, second),
        ],
    )
}

// Tells that a rule matches a part of an end, for which there is no line.
fn tell_not_normal<'x>(
    page: &mut Page<'_>,
    scene: Scene<'x>,
    end: &'x Term,
    which: u32,
    pos: &'x [u32],
    number: u32,
) {
    if let Some(rule) = rule_of(scene, number) {
        page.line(
            0,
            "!! rule #, #, matches # in #,",
            &[
                Piece::Number(number as usize),
                Piece::Rule(scene.naming(number), rule),
                Piece::At(pos),
                Piece::Term(Naming::Numbered, end),
            ],
        );
    }
    page.line(
        0,
        "   and that its conditions are never met there is expected: redex # # # ..",
        &[
            Piece::Number(which as usize),
            Piece::Position(pos),
            Piece::Number(number as usize),
        ],
    )
}

// The redexes of the lines.
fn redexes_of(peak: &Peak) -> &[Redex] {
    match &peak.apart {
        NonJoin::Normal(redexes) => redexes,
        NonJoin::Caps => &[],
    }
}

// The redex of one line.
fn redex_at(peak: &Peak, number: u32) -> &[Redex] {
    let redexes = redexes_of(peak);
    let place = (number as usize).saturating_sub(1);
    match redexes.get(place..place.saturating_add(1)) {
        Some(found) => found,
        None => &[],
    }
}

fn tell_apart_reason(
    page: &mut Page<'_>,
    scene: Scene<'_>,
    peak: &Peak,
    first: &Term,
    second: &Term,
    reason: &Rejected,
) {
    match reason {
        Rejected::NotNormal { which, pos, rule } => {
            let end = if *which == 1 { first } else { second };
            tell_not_normal(page, scene, end, *which, pos, *rule)
        }
        Rejected::RedexExtra { entry } => {
            page.line(0, "!! the line of this redex is one too many:", &[]);
            tell_redexes(page, scene, first, second, redex_at(peak, *entry))
        }
        Rejected::RedexFails { entry, reason } => {
            tell_redexes(page, scene, first, second, redex_at(peak, *entry));
            page.words("!! this is not shown: ");
            tell_reason(page, 0, reason)
        }
        Rejected::CapsUnify => page.line(
            0,
            "!! their caps do not keep them apart: what no step can change of them fits together.",
            &[],
        ),
        Rejected::CapsLarge => page.line(
            0,
            "!! their caps, or the terms that unification makes of them, are too large.",
            &[],
        ),
        Rejected::Foreign { .. } => page.line(
            0,
            "!! a symbol that the file does not have stands in the start or in an end.",
            &[],
        ),
        _ => {}
    }
}

/// Tells what is wrong with the ends of a peak.
pub fn tell_end_reason(page: &mut Page<'_>, scene: Scene<'_>, peak: &Peak, reason: &Rejected) {
    let first = end_of(page, scene, &peak.start, &peak.first);
    let second = end_of(page, scene, &peak.start, &peak.second);
    if let (Some(first), Some(second)) = (&first, &second) {
        tell_ends(page, first, second);
        tell_apart_reason(page, scene, peak, first, second, reason);
    }
}
