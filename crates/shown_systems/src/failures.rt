//! What each kind of evidence fails by, where none settles an overlap.
ghost use Rattle.std.specs.Prelude.{◌≤◌, ◌*◌, length, map};
ghost use Rattle.certificates.specs.Sizes.{DoConditionsFit};
ghost use Rattle.term_core.specs.RuleView.{condition_view};
ghost use Rattle.unifier_run.specs.Overlaps.{IsOverlapOf};
ghost use Rattle.critical_pairs.specs.View.{overlap_view};

use crate::peaks::listed;
use crate::subject::Subject;
use cc_count::Budget;
use critical_pairs::Overlap;
use evidence_offers::{Refuting, offer};
use lens_pages::{Naming, Page, Piece};
use reach::Entry;
use term_core::{Cond, MAX_CONDITIONS, System, Term, equal};

// The terms of a list that are written.
const FEW_TERMS: usize = 6;

// The pairs of conditions that are written one by one.
const FEW_CONFLICTS: usize = 9;

// Why the automaton that grows from a condition's left side does not show that the condition is never met.
fn growth_words(page: &mut Page<'_>, sys: &System, conds: &[Cond], cond: u32) -> &'static str
    requires fit { DoConditionsFit (map condition_view conds.now) }
{
    let offered = offer(page.alloc, sys, conds, Refuting::Growth { cond });
    match page.got(offered) {
        Some(Some(_)) =>
            "the automaton that grows from the left side does not exclude the right side",
        _ =>
            "the automaton that grows from the left side passes a limit: 64 states, 5,000 transitions, 100,000 choices of states",
    }
}

fn put_growths(page: &mut Page<'_>, sys: &System, conds: &[Cond])
    requires fit { DoConditionsFit (map condition_view conds.now) }
    requires few { length conds.now ≤ 2 * MAX_CONDITIONS }
{
    let count = conds.len() as u32;
    'conds: for before in 0..count {
        let cond = before + 1;
        let words = growth_words(page, sys, conds, cond);
        page.line(
            6,
            "auto #: #",
            &[Piece::Number(cond as usize), Piece::Words(words)],
        );
    }
}

// Why caps and automata do not show that the conditions of an overlap are never met.
fn put_refutings(page: &mut Page<'_>, subject: &Subject<'_>, overlap: &Overlap)
    requires overlap { IsOverlapOf subject.now.prepared.now (overlap_view overlap.now) }
{
    // The law tells that conditions are few and fit.
    subject.prepared.rules_are_sound();
    page.words(if overlap.conds.is_empty() {
        "      tcap: there are no conditions\n"
    } else {
        "      tcap: by their caps the conditions may be met\n"
    });
    put_growths(page, subject.prepared.system(), &overlap.conds);
}

// Why two conditions are not in conflict.
fn conflict_words(first: &Cond, second: &Cond) -> &'static str {
    if equal(&first.left, &second.left) {
        "by their caps the two right sides may become equal"
    } else {
        "the two left sides differ"
    }
}

// A condition of the inner rule with those of the outer one.
fn put_conflicts_with(page: &mut Page<'_>, number: usize, cond: &Cond, outer: &[Cond]) {
    'outer: for (i, other) in outer.iter().enumerate() {
        page.line(
            6,
            "conflict # #: #",
            &[
                Piece::Number(number.saturating_add(1)),
                Piece::Number(i.saturating_add(1)),
                Piece::Words(conflict_words(cond, other)),
            ],
        );
    }
}

// The conditions of the inner rule with those of the outer one, if they are few.
fn put_conflicts(page: &mut Page<'_>, inner: &[Cond], outer: &[Cond]) {
    let count = inner.len().saturating_mul(outer.len());
    if count > FEW_CONFLICTS {
        page.line(
            6,
            "conflict: none of the # pairs of conditions has equal left sides, and right sides that are kept apart by their caps",
            &[Piece::Number(count)],
        );
        return;
    }
    'inner: for (i, cond) in inner.iter().enumerate() {
        put_conflicts_with(page, i, cond, outer);
    }
}

/// Why an overlap is not settled in a certificate of almost orthogonal systems, a line for each kind of evidence.
pub fn put_ortho_failures(page: &mut Page<'_>, subject: &Subject<'_>, overlap: &Overlap)
    requires overlap { IsOverlapOf subject.now.prepared.now (overlap_view overlap.now) }
{
    page.words(if overlap.pos.is_empty() {
        "      trivial: the two results differ\n"
    } else {
        "      trivial: the overlap is not at the root\n"
    });
    put_refutings(page, subject, overlap);
    let split = (overlap.inner_conds as usize).min(overlap.conds.len());
    let (inner, outer) = overlap.conds.split_at(split);
    put_conflicts(page, inner, outer);
}

/// The first terms of a list, and how many there are more.
pub fn put_entries(page: &mut Page<'_>, naming: Naming, list: &[Entry]) {
    'list: for (i, listed) in list.iter().take(FEW_TERMS).enumerate() {
        page.words(if i > 0 { ", " } else { "" });
        page.put("#", &[Piece::Term(naming, &listed.term)]);
    }
    if list.len() > FEW_TERMS {
        page.put(", and # more", &[Piece::Number(list.len() - FEW_TERMS)]);
    }
    page.words("\n");
}

// The terms that a term leads to under the conditions of an overlap.
fn put_list(
    page: &mut Page<'_>,
    subject: &Subject<'_>,
    overlap: &Overlap,
    start: &Term,
    budget: &mut Budget,
)
    requires overlap { IsOverlapOf subject.now.prepared.now (overlap_view overlap.now) }
{
    // The law tells that conditions are few and fit.
    subject.prepared.rules_are_sound();
    match listed(
        page,
        subject.prepared.indexed(),
        &overlap.conds,
        start,
        budget,
    ) {
        Some(list) => put_entries(page, subject.in_overlap(overlap), &list),
        None => page.words("the units were spent\n"),
    }
}

// Why the sides of an overlap do not join.
fn put_join(page: &mut Page<'_>, subject: &Subject<'_>, overlap: &Overlap, budget: &mut Budget)
    requires overlap { IsOverlapOf subject.now.prepared.now (overlap_view overlap.now) }
{
    page.words(
        "      join: no term is reached from both, under the conditions and in five steps\n        left:  ",
    );
    put_list(page, subject, overlap, &overlap.left, budget);
    page.words("        right: ");
    put_list(page, subject, overlap, &overlap.right, budget);
}

// Why no condition of an overlap is unfeasible.
fn put_reducts(page: &mut Page<'_>, subject: &Subject<'_>, overlap: &Overlap, budget: &mut Budget)
    requires overlap { IsOverlapOf subject.now.prepared.now (overlap_view overlap.now) }
{
    'conds: for (i, cond) in overlap.conds.iter().enumerate() {
        page.put(
            "      unfeasible #: of the terms that its left side reaches no two are irreducible and do not unify\n        ",
            &[Piece::Number(i.saturating_add(1))],
        );
        put_list(page, subject, overlap, &cond.left, budget);
    }
}

/// Why an overlap is not settled in a certificate with a measure. What shows that conditions are never met is told where it was not told before.
pub fn put_quasi_failures(
    page: &mut Page<'_>,
    subject: &Subject<'_>,
    overlap: &Overlap,
    is_told: bool,
)
    requires overlap { IsOverlapOf subject.now.prepared.now (overlap_view overlap.now) }
{
    if is_told {
        page.words("      tcap, auto: as above\n");
    } else {
        put_refutings(page, subject, overlap);
    }
    let mut budget = Budget::new(subject.units);
    put_join(page, subject, overlap, &mut budget);
    put_reducts(page, subject, overlap, &mut budget);
}
