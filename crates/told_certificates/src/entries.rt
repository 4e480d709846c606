//! The entries of a certificate of confluence: each with its overlap, and why this is settled.
use crate::breaks::break_off;
use crate::scene::Scene;
use crate::settled::tell_settled;
use cert_model::PairEntry;
use critical_pairs::{Overlap, OverlapError, OverlapSearch};
use lens_pages::{Naming, Page, Piece};
use prepared_system::PreparedSystem;
use rule_index::IndexedSystem;
use std::alloc::Global;
use term_core::{Cond, NoMemory, System};

// Whether the entry is for this overlap.
fn is_for(entry: &PairEntry, overlap: &Overlap) -> bool {
    entry.inner == overlap.inner
        && entry.outer == overlap.outer
        && entry.pos.as_slice() == overlap.pos.as_slice()
}

/// Tells which overlap an entry is for.
pub fn tell_head(page: &mut Page<'_>, number: usize, overlap: &Overlap) {
    page.line(
        0,
        "Overlap #, of rule # in rule # #:",
        &[
            Piece::Number(number),
            Piece::Number(overlap.inner as usize),
            Piece::Number(overlap.outer as usize),
            Piece::At(&overlap.pos),
        ],
    )
}

/// Tells the term of an overlap, what its two rules make of it, and under which conditions.
pub fn tell_overlap(page: &mut Page<'_>, scene: Scene<'_>, overlap: &Overlap) {
    let naming = scene.overlap_naming(overlap);
    page.line(2, "from   #", &[Piece::Term(naming, &overlap.source)]);
    page.line(
        2,
        "to     #   by rule # #",
        &[
            Piece::Term(naming, &overlap.left),
            Piece::Number(overlap.inner as usize),
            Piece::At(&overlap.pos),
        ],
    );
    page.line(
        2,
        "and    #   by rule # at the root",
        &[
            Piece::Term(naming, &overlap.right),
            Piece::Number(overlap.outer as usize),
        ],
    );
    tell_conditions(page, naming, &overlap.conds)
}

// Tells under which conditions an overlap is there.
fn tell_conditions(page: &mut Page<'_>, naming: Naming, conds: &[Cond]) {
    let mut number: usize = 0;
    for cond in conds {
        number = number.saturating_add(1);
        let word = if number == 1 { "where  " } else { "       " };
        page.line(
            2,
            "##  #",
            &[
                Piece::Words(word),
                Piece::Number(number),
                Piece::Cond(naming, cond),
            ],
        );
    }
}

// Tells that another overlap is due than that of the entry.
fn tell_other(page: &mut Page<'_>, scene: Scene<'_>, entry: &PairEntry, overlap: &Overlap) {
    break_off(
        page,
        0,
        "here stands the line of rule # in rule # #, and the next overlap is another one, which has no line:",
        &[
            Piece::Number(entry.inner as usize),
            Piece::Number(entry.outer as usize),
            Piece::At(&entry.pos),
        ],
    );
    tell_due(page, scene, overlap)
}

// The line that is expected for an overlap, and the overlap, even where the page is quiet.
fn tell_due(page: &mut Page<'_>, scene: Scene<'_>, overlap: &Overlap) {
    let was = page.set_quiet(false);
    tell_line(page, overlap);
    tell_overlap(page, scene, overlap);
    page.set_quiet(was);
}

fn tell_line(page: &mut Page<'_>, overlap: &Overlap) {
    page.line(
        2,
        "pair # # # ..   is expected, for",
        &[
            Piece::Number(overlap.inner as usize),
            Piece::Position(&overlap.pos),
            Piece::Number(overlap.outer as usize),
        ],
    )
}

// Tells an entry beside the overlap that is next, and answers whether it is for that.
fn tell_entry(
    page: &mut Page<'_>,
    scene: Scene<'_>,
    number: usize,
    entry: &PairEntry,
    overlap: &Overlap,
) -> bool {
    if !is_for(entry, overlap) {
        tell_other(page, scene, entry, overlap);
        return false;
    }
    if number > 1 {
        page.words("\n");
    }
    tell_head(page, number, overlap);
    tell_overlap(page, scene, overlap);
    tell_settled(page, scene, overlap, &entry.evidence);
    true
}

/// Tells why there is no list of overlaps.
pub fn tell_no_list(page: &mut Page<'_>, error: OverlapError) {
    match error {
        OverlapError::PairTooLarge { inner, pos, outer } => {
            break_off(
                page,
                0,
                "the overlap of rule # in rule # # is too large",
                &[
                    Piece::Number(inner as usize),
                    Piece::Number(outer as usize),
                    Piece::At(&pos),
                ],
            )
        }
        OverlapError::TooManyPairs => {
            break_off(page, 0, "there are more than 20,000 overlaps", &[])
        }
        OverlapError::NoMemory => page.refuse(),
    }
}

// Tells the overlap behind those of all entries, if there is one.
fn tell_rest(page: &mut Page<'_>, scene: Scene<'_>, search: &mut OverlapSearch<'_>, count: usize) {
    match search.next(page.alloc) {
        Ok(None) if count == 0 => page.line(0, "There is no overlap.", &[]),
        Ok(None) => {}
        Ok(Some(overlap)) => {
            break_off(
                page,
                0,
                "here the line of one more overlap is missing:",
                &[],
            );
            tell_due(page, scene, &overlap)
        }
        Err(error) => tell_no_list(page, error),
    }
}

fn prepare<'a>(alloc: Global, sys: &'a System) -> Result<PreparedSystem<'a>, NoMemory> {
    let indexed = IndexedSystem::new(alloc, sys)?;
    PreparedSystem::new(alloc, indexed)
}

// The overlap behind so many others.
fn overlap_behind(
    alloc: Global,
    sys: &System,
    passed: u32,
) -> Result<Option<Overlap>, OverlapError> {
    let prepared = prepare(alloc, sys)?;
    let mut search = OverlapSearch::new(alloc, &prepared);
    for _ in 0..passed {
        search.pass(alloc)?;
    }
    search.next(alloc)
}

/// The overlap with a number, from 1, or none where there is none or no list.
pub fn overlap_at(page: &mut Page<'_>, scene: Scene<'_>, number: u32) -> Option<Overlap> {
    match overlap_behind(page.alloc, scene.sys, number.saturating_sub(1)) {
        Ok(found) => found,
        Err(OverlapError::NoMemory) => page.got(Err(NoMemory)),
        Err(_) => None,
    }
}

// Tells an entry beside the overlap that is next, and answers whether it is for that.
fn tell_next(
    page: &mut Page<'_>,
    scene: Scene<'_>,
    search: &mut OverlapSearch<'_>,
    number: usize,
    entry: &PairEntry,
) -> bool {
    match search.next(page.alloc) {
        Ok(Some(overlap)) => return tell_entry(page, scene, number, entry, &overlap),
        Ok(None) => break_off(
            page,
            0,
            "here is a line for an overlap that there is not",
            &[],
        ),
        Err(error) => tell_no_list(page, error),
    }
    false
}

/// Tells the entries in order.
pub fn tell_entries(page: &mut Page<'_>, scene: Scene<'_>, pairs: &[PairEntry]) {
    let made = prepare(page.alloc, scene.sys);
    let Some(prepared) = page.got(made) else {
        return;
    };
    let mut search = OverlapSearch::new(page.alloc, &prepared);
    let mut number: usize = 0;
    for entry in pairs {
        number = number.saturating_add(1);
        if !tell_next(page, scene, &mut search, number, entry) {
            return;
        }
    }
    tell_rest(page, scene, &mut search, number);
}
