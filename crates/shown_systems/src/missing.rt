//! What each space costs, and the first thing that is missing for each kind of certificate.
use crate::findings::Findings;
use crate::measures::{MeasureEnd, Measured};
use crate::peaks::{Counted, Peaks};
use crate::shown_classes::{class_name, put_blame, put_reducible};
use crate::shown_overlaps::pair_pieces;
use crate::subject::Subject;
use crate::walks::{WalkEnd, Walked};
use cert_model::{Blame, Class};
use critical_pairs::Overlap;
use ctrs_classes::why_not;
use lens_pages::{Page, Piece};
use validity::Search;

// The classes of almost orthogonal systems.
const ORTHO_CLASSES: [Class; 4] = [
    Class::LeftLinear,
    Class::Type3,
    Class::ExtendedOriented,
    Class::RightStable,
];

// The first class of almost orthogonal systems that fails.
fn first_blame(subject: &Subject<'_>) -> Option<Blame> {
    'classes: for class in ORTHO_CLASSES {
        if let Some(blame) = why_not(subject.prepared.system(), class) {
            return Some(blame);
        }
    }
    None
}

fn walk_units(walked: &Option<Walked>) -> usize {
    match walked {
        Some(walked) => walked.units as usize,
        None => 0,
    }
}

fn put_ortho_cost(page: &mut Page<'_>, subject: &Subject<'_>, findings: &Findings) {
    let text = if first_blame(subject).is_some() {
        "ortho: 0, since nothing is searched where a class fails (without that # for overlaps)"
    } else {
        "ortho: # for overlaps"
    };
    page.line(2, text, &[Piece::Number(walk_units(&findings.ortho))]);
}

fn put_peak_cost(page: &mut Page<'_>, peaks: &Peaks) {
    page.put("  peak:  #", &[Piece::Number(peaks.units as usize)]);
    if let Some(counted) = &peaks.counted {
        page.put(
            ", for # from # and # of them",
            &[
                Piece::Count(counted.terms, " term", " terms"),
                Piece::Count(counted.starts, " start", " starts"),
                Piece::Count(counted.pairs, " pair", " pairs"),
            ],
        );
    }
    page.words("\n");
}

// Whether the rules are none for a certificate with a measure.
fn are_rules_bad(subject: &Subject<'_>, findings: &Findings) -> bool {
    findings.reducible.is_some()
        || why_not(subject.prepared.system(), Class::Deterministic).is_some()
}

fn put_quasi_cost(page: &mut Page<'_>, subject: &Subject<'_>, findings: &Findings) {
    let text = if are_rules_bad(subject, findings) {
        "quasi: 0, since nothing is searched for such rules (without that # for overlaps, # for interpretations, # for precedences)"
    } else {
        "quasi: # for overlaps, # for interpretations, # for precedences"
    };
    page.line(
        2,
        text,
        &[
            Piece::Number(walk_units(&findings.quasi)),
            Piece::Number(findings.measured.grid.units as usize),
            Piece::Number(findings.measured.order.units as usize),
        ],
    );
}

/// What each space costs.
pub fn put_costs(page: &mut Page<'_>, subject: &Subject<'_>, findings: &Findings) {
    page.put(
        "UNITS SPENT, of # for each space",
        &[Piece::Number(subject.units as usize)],
    );
    if subject.units_for_looks() < subject.units {
        page.put(
            ", and of # for `quasi`, since there are many rules",
            &[Piece::Number(subject.units_for_looks() as usize)],
        );
    }
    page.words("\n");
    put_ortho_cost(page, subject, findings);
    put_peak_cost(page, &findings.peaks);
    put_quasi_cost(page, subject, findings);
}

// An overlap by its number, from 1, and its line.
fn put_at_overlap(page: &mut Page<'_>, overlaps: &[Overlap], number: usize) {
    page.put("overlap #", &[Piece::Number(number)]);
    if let Some(overlap) = overlaps.get(number.saturating_sub(1)) {
        page.put(" (`pair # # #`)", &pair_pieces(overlap));
    }
}

// What a walk over the overlaps lacks, or the other words where it lacks nothing.
fn put_walk_end(page: &mut Page<'_>, walked: &Option<Walked>, overlaps: &[Overlap], words: &str) {
    let Some(walked) = walked else {
        page.words("a list of the overlaps, which is refused\n");
        return;
    };
    match walked.end {
        None => page.words(words),
        Some(WalkEnd::Open(number)) => {
            page.words("evidence for ");
            put_at_overlap(page, overlaps, number);
            page.words(": nothing that is tried settles it\n");
        }
        Some(WalkEnd::Spent(number)) => {
            page.words("units, which were spent at ");
            put_at_overlap(page, overlaps, number);
            page.words(": more of them may find more\n");
        }
    }
}

// That a class fails.
fn put_class_missing(page: &mut Page<'_>, subject: &Subject<'_>, blame: &Blame) {
    page.put("the class #: ", &[Piece::Words(class_name(blame.class))]);
    put_blame(page, subject, blame);
    page.words("\n");
}

fn put_ortho_missing(
    page: &mut Page<'_>,
    subject: &Subject<'_>,
    findings: &Findings,
    overlaps: &[Overlap],
) {
    page.words("  for `ortho`: ");
    match first_blame(subject) {
        Some(blame) => put_class_missing(page, subject, &blame),
        None => put_walk_end(
            page,
            &findings.ortho,
            overlaps,
            "nothing: the classes hold and each overlap is settled\n",
        ),
    }
}

fn measure_words(measured: &Measured) -> &'static str {
    match (measured.grid.end, measured.order.end) {
        (MeasureEnd::Good, _) =>
            "nothing: each overlap is settled and a linear interpretation is good\n",
        (_, MeasureEnd::Good) => "nothing: each overlap is settled and a precedence is good\n",
        (MeasureEnd::Spent, MeasureEnd::Spent) =>
            "a measure: the units were spent before all of the grid was tried, and before all precedences were; more of them may find one\n",
        (MeasureEnd::Spent, _) =>
            "a measure: the units were spent before all of the grid was tried, and more of them may find one; no precedence is good\n",
        (_, MeasureEnd::Spent) =>
            "a measure: no interpretation of the grid is good, and the units were spent before all precedences were tried; more of them may find one\n",
        _ => "a measure: no interpretation of the grid is good, and no precedence\n",
    }
}

fn put_quasi_missing(
    page: &mut Page<'_>,
    subject: &Subject<'_>,
    findings: &Findings,
    overlaps: &[Overlap],
) {
    page.words("  for `quasi`: ");
    if let Some(blame) = why_not(subject.prepared.system(), Class::Deterministic) {
        put_class_missing(page, subject, &blame);
    } else if let Some(asked) = findings.reducible {
        page.words("irreducible right sides of conditions: ");
        put_reducible(page, subject, asked);
        page.words("\n");
    } else {
        let words = measure_words(&findings.measured);
        put_walk_end(page, &findings.quasi, overlaps, words);
    }
}

fn put_unmoved(page: &mut Page<'_>, counted: &Counted) {
    if counted.moving == 0 {
        page.words(
            "two ends: no start reaches another term, so that no pair was tried; instances of left sides, whose conditions may hold, are no starts\n",
        );
        return;
    }
    page.put(
        "two ends that are apart: of # of terms from # of # none is; other instances of left sides, and terms further away, were not tried; lens seek tries more\n",
        &[
            Piece::Count(counted.pairs, " pair", " pairs"),
            Piece::Count(counted.moving, " start", " starts"),
            Piece::Number(counted.starts),
        ],
    );
}

fn put_peak_missing(page: &mut Page<'_>, peaks: &Peaks) {
    page.words("  for `peak`:  ");
    match (&peaks.end, &peaks.counted) {
        (Search::Found(_), _) => page.words("nothing: two ends are apart\n"),
        (Search::Nothing, Some(counted)) => put_unmoved(page, counted),
        (Search::Nothing, None) => page.words(
            "two ends that are apart: none is among those that were tried\n",
        ),
        (Search::Spent, _) => page.words(
            "units, which were spent before all pairs of terms were tried: more of them may find more\n",
        ),
    }
}

/// The first thing that is missing for each kind of certificate.
pub fn put_missing(
    page: &mut Page<'_>,
    subject: &Subject<'_>,
    findings: &Findings,
    overlaps: &[Overlap],
) {
    put_ortho_missing(page, subject, findings, overlaps);
    put_quasi_missing(page, subject, findings, overlaps);
    put_peak_missing(page, &findings.peaks);
}
