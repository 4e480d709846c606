//! The overlaps in order, each with what settles it or what each kind of evidence fails by.
ghost use Rattle.std.specs.Prelude.{map};
ghost use Rattle.unifier_run.specs.Overlaps.{AreOverlaps, IsOverlapOf};
ghost use Rattle.critical_pairs.specs.View.{overlap_view};

use crate::failures::{put_ortho_failures, put_quasi_failures};
use crate::findings::Findings;
use crate::subject::Subject;
use crate::walks::{SHOWN, Walked};
use cc_count::Sought;
use cert_model::{Derivation, InfEvidence, PairEvidence};
use cert_writing::write_deriv;
use critical_pairs::Overlap;
use lens_pages::{Naming, Page, Piece};
use term_core::NoMemory;

/// What the line of a certificate for an overlap begins with behind `pair`.
pub fn pair_pieces<'a>(overlap: &'a Overlap) -> [Piece<'a>; 3] {
    [
        Piece::Number(overlap.inner as usize),
        Piece::Position(&overlap.pos),
        Piece::Number(overlap.outer as usize),
    ]
}

// The head of an overlap.
fn put_head(page: &mut Page<'_>, overlap: &Overlap) {
    page.put("  pair # # #", &pair_pieces(overlap));
    page.put(
        "   (rule # # of rule #)\n",
        &[
            Piece::Number(overlap.inner as usize),
            Piece::At(&overlap.pos),
            Piece::Number(overlap.outer as usize),
        ],
    );
}

fn put_conditions(page: &mut Page<'_>, naming: Naming, overlap: &Overlap) {
    let inner = overlap.inner_conds as usize;
    'conds: for (i, cond) in overlap.conds.iter().enumerate() {
        let rule = if i < inner {
            overlap.inner
        } else {
            overlap.outer
        };
        page.line(
            4,
            "where  #   (rule #)",
            &[Piece::Cond(naming, cond), Piece::Number(rule as usize)],
        );
    }
}

// The source of an overlap, its two results and its conditions.
fn put_terms(page: &mut Page<'_>, naming: Naming, overlap: &Overlap) {
    page.put(
        "    source #\n    left   #   (by rule #)\n    right  #   (by rule #)\n",
        &[
            Piece::Term(naming, &overlap.source),
            Piece::Term(naming, &overlap.left),
            Piece::Number(overlap.inner as usize),
            Piece::Term(naming, &overlap.right),
            Piece::Number(overlap.outer as usize),
        ],
    );
    put_conditions(page, naming, overlap);
}

// The lines of two derivations, each behind blanks.
fn put_derivations(
    page: &mut Page<'_>,
    first: &Derivation,
    second: &Derivation,
) -> Result<(), NoMemory> {
    let mut text = Vec::new(page.alloc);
    write_deriv(page.alloc, page.names, first, &mut text)?;
    write_deriv(page.alloc, page.names, second, &mut text)?;
    let mut is_begin = true;
    'bytes: for byte in &text {
        page.words(if is_begin { "      " } else { "" });
        page.bytes(&[*byte]);
        is_begin = *byte == b'\n';
    }
    Ok(())
}

fn put_refuting(page: &mut Page<'_>, evidence: &InfEvidence) {
    match evidence {
        InfEvidence::Tcap => page.words("tcap (by their caps the conditions are never met)\n"),
        InfEvidence::Auto { cond, automaton } => page.put(
            "auto # (condition # is never met, by an automaton of # states that grows from its left side)\n",
            &[
                Piece::Number(*cond as usize),
                Piece::Number(*cond as usize),
                Piece::Number(automaton.states as usize),
            ],
        ),
    }
}

// The evidence that settles an overlap.
fn put_evidence(page: &mut Page<'_>, evidence: &PairEvidence) -> Result<(), NoMemory> {
    match evidence {
        PairEvidence::Trivial => page.words("trivial (both results are equal)\n"),
        PairEvidence::Infeasible(inner) => put_refuting(page, inner),
        PairEvidence::Conflict { inner, outer } => page.put(
            "conflict # # (the two conditions ask for two results of one term)\n",
            &[
                Piece::Number(*inner as usize),
                Piece::Number(*outer as usize),
            ],
        ),
        PairEvidence::Join { left, right } => {
            page.words("join\n");
            put_derivations(page, left, right)?;
        }
        PairEvidence::Unfeasible {
            cond,
            first,
            second,
        } => {
            page.put("unfeasible #\n", &[Piece::Number(*cond as usize)]);
            put_derivations(page, first, second)?;
        }
    }
    Ok(())
}

// What a walk gave for an overlap; true where nothing settles it.
fn put_walk(page: &mut Page<'_>, name: &str, walk: Option<&Sought<PairEvidence>>) -> bool {
    page.words(name);
    match walk {
        Some(Sought::Found(evidence)) => {
            let put = put_evidence(page, evidence);
            let _put = page.got(put);
        }
        Some(Sought::Nothing) => page.words("open, since nothing that is tried settles it\n"),
        Some(Sought::Spent) | None => page.words("not tried to the end, the units were spent\n"),
    }
    matches!(walk, Some(Sought::Nothing))
}

fn walk_at(walked: &Option<Walked>, place: usize) -> Option<&Sought<PairEvidence>> {
    walked.as_ref()?.shown.get(place)
}

// An overlap, with what settles it in each kind of certificate.
fn put_overlap(
    page: &mut Page<'_>,
    subject: &Subject<'_>,
    findings: &Findings,
    place: usize,
    overlap: &Overlap,
)
    requires overlap { IsOverlapOf subject.now.prepared.now (overlap_view overlap.now) }
{
    put_head(page, overlap);
    put_terms(page, subject.in_overlap(overlap), overlap);
    let is_told = put_walk(page, "    ortho: ", walk_at(&findings.ortho, place));
    if is_told {
        put_ortho_failures(page, subject, overlap);
    }
    if put_walk(page, "    quasi: ", walk_at(&findings.quasi, place)) {
        put_quasi_failures(page, subject, overlap, is_told);
    }
}

fn put_heading(page: &mut Page<'_>, count: usize) {
    page.put("OVERLAPS: #", &[Piece::Number(count)]);
    if count > SHOWN {
        page.put(", of which the first # are shown", &[Piece::Number(SHOWN)]);
    }
    if count > 0 {
        page.words(" (variables of the inner rule, the first of a pair, have a mark: x')");
    }
    page.words("\n");
}

/// The overlaps, the first ones whole.
pub fn put_overlaps(
    page: &mut Page<'_>,
    subject: &Subject<'_>,
    findings: &Findings,
    overlaps: &[Overlap],
)
    requires overlaps { AreOverlaps subject.now.prepared.now (map overlap_view overlaps.now) }
{
    put_heading(page, overlaps.len());
    'overlaps: for (place, overlap) in overlaps.iter().enumerate() {
        if place >= SHOWN {
            page.words("\n");
            return;
        }
        put_overlap(page, subject, findings, place, overlap);
    }
    page.words("\n");
}
