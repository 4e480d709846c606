//! Certificates to be filled by hand: all lines that are known beforehand, with `?` for what is to be found.
use crate::shown_overlaps::pair_pieces;
use critical_pairs::{Overlap, OverlapError, overlaps};
use lens_pages::{Page, Piece};
use term_core::System;
use unravel::{UnravelError, Unraveled, unravel};

/// The kinds of certificates.
#[derive(Clone, Copy)]
pub enum SkeletonKind {
    Ortho,
    Quasi,
    Peak,
}

fn put_pairs(page: &mut Page<'_>, list: &[Overlap]) {
    'overlaps: for overlap in list {
        page.put("pair # # # ?\n", &pair_pieces(overlap));
    }
}

// A line for each overlap; none where they are refused.
fn put_overlaps(page: &mut Page<'_>, sys: &System) {
    match overlaps(page.alloc, sys) {
        Ok(list) => put_pairs(page, &list),
        Err(OverlapError::NoMemory) => page.refuse(),
        Err(_) => {}
    }
}

// A line for each symbol, with a mark for the constant and each coefficient.
fn put_entries(page: &mut Page<'_>, unraveled: &Unraveled) {
    'symbols: for (head, arity) in unraveled
        .heads
        .iter()
        .zip(unraveled.system.arities().iter())
    {
        page.put("# ?", &[Piece::MeasureHead(*head)]);
        'arguments: for _ in 0..*arity {
            page.words(" ?");
        }
        page.words("\n");
    }
}

// A line for each symbol of the unraveled system; none where that is too large.
fn put_measure(page: &mut Page<'_>, sys: &System) {
    page.words("linear\n");
    match unravel(page.alloc, sys) {
        Ok(unraveled) => put_entries(page, &unraveled),
        Err(UnravelError::NoMemory) => page.refuse(),
        Err(UnravelError::TooLarge { .. }) => {}
    }
}

/// The lines of a certificate of a kind.
pub fn put_skeleton(page: &mut Page<'_>, sys: &System, kind: SkeletonKind) {
    page.words("concon 2\nshared 0\n");
    match kind {
        SkeletonKind::Ortho => {
            page.words("ortho\n");
            put_overlaps(page, sys);
        }
        SkeletonKind::Quasi => {
            page.words("quasi\n");
            put_measure(page, sys);
            put_overlaps(page, sys);
        }
        SkeletonKind::Peak => page.words("peak\nstart ?\nsteps ?\nsteps ?\nnormal\n"),
    }
    page.words("end\n");
}
