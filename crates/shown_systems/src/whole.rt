//! The pages as a whole.
ghost use Rattle.search_answers.specs.Given.{IsOverlapList};

use crate::findings::find;
use crate::missing::{put_costs, put_missing};
use crate::shown_classes::put_classes;
use crate::shown_measures::put_measure;
use crate::shown_overlaps::put_overlaps;
use crate::shown_rules::put_system;
use crate::shown_starts::put_starts;
use crate::shown_unraveling::put_unraveling;
use crate::simplified::{put_simplified, put_step_cost, simplify};
use crate::skeletons::{SkeletonKind, put_skeleton};
use crate::subject::Subject;
use cops_names::Names;
use critical_pairs::{Overlap, OverlapError, overlaps_in};
use lens_pages::{Page, Piece};
use prepared_system::PreparedSystem;
use rule_index::IndexedSystem;
use std::alloc::Global;
use term_core::{NoMemory, System};

// The page of a system, behind its rules.
fn put_found(
    page: &mut Page<'_>,
    subject: &Subject<'_>,
    list: Option<&[Overlap]>,
) -> Result<(), NoMemory>
    requires overlaps { IsOverlapList subject.now.prepared.now list }
{
    let findings = find(page, subject, list)?;
    put_classes(page, subject, findings.reducible);
    if let Some(found) = list {
        put_overlaps(page, subject, &findings, found);
    }
    put_unraveling(page, subject);
    put_measure(page, &findings.measured);
    put_starts(page, subject, list.unwrap_or(&[]));
    let simplified = simplify(page.alloc, subject)?;
    put_costs(page, subject, &findings);
    put_step_cost(page, &simplified);
    page.words("WHAT IS MISSING\n");
    put_missing(page, subject, &findings, list.unwrap_or(&[]));
    put_simplified(page, subject, &simplified)
}

// That an overlap is too large.
fn put_large(page: &mut Page<'_>, inner: u32, pos: &[u32], outer: u32) {
    page.put(
        "OVERLAPS: refused, since that of rule # # of rule # is too large\n\n",
        &[
            Piece::Number(inner as usize),
            Piece::At(pos),
            Piece::Number(outer as usize),
        ],
    );
}

fn put_subject(page: &mut Page<'_>, subject: &Subject<'_>) -> Result<(), NoMemory> {
    put_system(page, subject);
    match overlaps_in(page.alloc, subject.prepared) {
        Ok(list) => put_found(page, subject, Some(&list)),
        Err(OverlapError::PairTooLarge { inner, pos, outer }) => {
            put_large(page, inner, &pos, outer);
            put_found(page, subject, None)
        }
        Err(OverlapError::TooManyPairs) => {
            page.words("OVERLAPS: refused, since there are more than 20,000\n\n");
            put_found(page, subject, None)
        }
        Err(OverlapError::NoMemory) => Err(NoMemory),
    }
}

/// A page on a system: what it is, and what is missing for each kind of certificate. Each space is searched with so many units, that of certificates with a
/// measure with fewer where there are more than 100 rules.
pub fn show(alloc: Global, sys: &System, names: &Names, units: u64) -> Result<Vec<u8>, NoMemory> {
    let indexed = IndexedSystem::new(alloc, sys)?;
    let prepared = PreparedSystem::new(alloc, indexed)?;
    let subject = Subject {
        prepared: &prepared,
        is_file: true,
        units,
    };
    let mut page = Page::new(alloc, names);
    put_subject(&mut page, &subject)?;
    page.into_text()
}

/// A certificate of a kind with `?` for all that is to be found: the lines of its opening, and one for each overlap, unless these are refused.
pub fn skeleton(
    alloc: Global,
    sys: &System,
    names: &Names,
    kind: SkeletonKind,
) -> Result<Vec<u8>, NoMemory> {
    let mut page = Page::new(alloc, names);
    put_skeleton(&mut page, sys, kind);
    page.into_text()
}
