//! What is found out of a system, before it is written.
ghost use Rattle.search_answers.specs.Given.{IsOverlapList};

use crate::measures::{Measured, find_measure};
use crate::peaks::{Peaks, find_peaks};
use crate::shown_classes::{Asked, first_reducible};
use crate::subject::Subject;
use crate::walks::{Walked, Way, walk_overlaps};
use critical_pairs::Overlap;
use lens_pages::Page;
use term_core::NoMemory;

/// What is found out of a system. Where its overlaps are refused there are no walks over them.
#[derive(Drop)]
pub struct Findings {
    pub reducible: Option<Asked>,
    pub ortho: Option<Walked>,
    pub quasi: Option<Walked>,
    pub measured: Measured,
    pub peaks: Peaks,
}

/// What is found out of a system with the overlaps that it has.
pub fn find(
    page: &mut Page<'_>,
    subject: &Subject<'_>,
    overlaps: Option<&[Overlap]>,
) -> Result<Findings, NoMemory>
    requires overlaps { IsOverlapList subject.now.prepared.now overlaps }
{
    let looks = subject.units_for_looks();
    let (ortho, quasi) = match overlaps {
        Some(list) => (
            Some(walk_overlaps(
                page.alloc,
                subject.prepared,
                Way::Ortho,
                list,
                subject.units,
            )?),
            Some(walk_overlaps(page.alloc, subject.prepared, Way::Quasi, list, looks)?),
        ),
        None => (None, None),
    };
    Ok(Findings {
        reducible: first_reducible(page, subject)?,
        ortho,
        quasi,
        measured: find_measure(page.alloc, subject.prepared.system(), looks)?,
        peaks: find_peaks(page, subject.prepared, overlaps, subject.units)?,
    })
}
