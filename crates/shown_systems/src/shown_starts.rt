//! The starts of peaks, with the terms that they reach.
use crate::failures::put_entries;
use crate::peaks::listed;
use crate::subject::Subject;
use cc_count::Budget;
use critical_pairs::Overlap;
use lens_pages::{Naming, Page, Piece};
use reach::Entry;
use term_core::Term;

// How many left sides are shown, and how many sources of overlaps.
const SHOWN_STARTS: usize = 20;

fn put_list(page: &mut Page<'_>, naming: Naming, list: &[Entry]) {
    let [start, rest @ ..] = list else {
        return;
    };
    page.put("#", &[Piece::Term(naming, &start.term)]);
    if rest.is_empty() {
        page.words(" reaches no other term\n");
    } else {
        page.words(" reaches ");
        put_entries(page, naming, rest);
    }
}

// A start, behind what it is the start of.
fn put_start(
    page: &mut Page<'_>,
    subject: &Subject<'_>,
    naming: Naming,
    start: &Term,
    budget: &mut Budget,
) {
    match listed(page, subject.prepared.indexed(), &[], start, budget) {
        Some(list) => put_list(page, naming, &list),
        None => page.words("the units were spent\n"),
    }
}

fn put_rule_starts(page: &mut Page<'_>, subject: &Subject<'_>, budget: &mut Budget) {
    let mut number: u32 = 0;
    'rules: for rule in subject.prepared.rules().iter().take(SHOWN_STARTS) {
        number = number.saturating_add(1);
        page.put("  rule #: ", &[Piece::Number(number as usize)]);
        put_start(page, subject, subject.in_rule(number), &rule.left, budget);
    }
}

fn put_overlap_starts(
    page: &mut Page<'_>,
    subject: &Subject<'_>,
    overlaps: &[Overlap],
    budget: &mut Budget,
) {
    'overlaps: for (i, overlap) in overlaps.iter().take(SHOWN_STARTS).enumerate() {
        page.put("  overlap #: ", &[Piece::Number(i.saturating_add(1))]);
        put_start(
            page,
            subject,
            subject.in_overlap(overlap),
            &overlap.source,
            budget,
        );
    }
}

/// The first starts of both kinds, each with the terms that it reaches.
pub fn put_starts(page: &mut Page<'_>, subject: &Subject<'_>, overlaps: &[Overlap]) {
    let mut budget = Budget::new(subject.units);
    page.put(
        "STARTS OF PEAKS, with what they reach in five steps: #, # (at most 20 of each are shown)\n",
        &[
            Piece::Count(subject.prepared.rules().len(), " left side", " left sides"),
            Piece::Count(
                overlaps.len(),
                " source of an overlap",
                " sources of overlaps",
            ),
        ],
    );
    put_rule_starts(page, subject, &mut budget);
    put_overlap_starts(page, subject, overlaps, &mut budget);
    page.words("\n");
}
