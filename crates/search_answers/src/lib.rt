//! What searches answer, as endings of the spaces that they search, how far their lists go, and the list of overlaps that they are lent.
#![tactic(auto)]

ghost use Rattle.std.specs.Prelude.{IfOk, map};
ghost use Rattle.cert_model.specs.CertificateView.{certificate_view};
ghost use Rattle.critical_pairs.specs.Answers.{OverlapsAnswers};
ghost use Rattle.critical_pairs.specs.Kept.{AreKnown};
ghost use Rattle.critical_pairs.specs.View.{overlap_view};
ghost use Rattle.search_answers.specs.Given.{HasOverlaps};
ghost use Rattle.search_answers.specs.Answers.{WrittenAnswers};

use cert_limits::has_text;
use cert_model::Certificate;
use cops_names::Names;
use critical_pairs::{Overlap, OverlapError, overlaps_in, overlaps_with};
use prepared_system::PreparedSystem;
use std::alloc::Global;
use term_core::{NoMemory, System};
use validity::Search;

// The list of overlaps, or none where it is refused. The system is named for the contract alone.
fn listed_or_none(
    sys: &PreparedSystem<'_>,
    found: Result<Vec<Overlap>, OverlapError>,
) -> Result<Option<Vec<Overlap>>, NoMemory>
    requires { OverlapsAnswers sys.now found }
    ensures { IfOk result (HasOverlaps sys.now) }
{
    match found {
        Ok(found) => Ok(Some(found)),
        Err(OverlapError::PairTooLarge { .. }) => Ok(None),
        Err(OverlapError::TooManyPairs) => Ok(None),
        Err(OverlapError::NoMemory) => Err(NoMemory),
    }
}

/// The overlaps of a system, or none where they are refused.
pub fn overlaps_or_none(
    alloc: Global,
    sys: &PreparedSystem<'_>,
) -> Result<Option<Vec<Overlap>>, NoMemory>
    ensures { IfOk result (HasOverlaps sys.now) }
{
    listed_or_none(sys, overlaps_in(alloc, sys))
}

/// The same of a system that has rules of an earlier one, whose overlaps are known.
pub fn overlaps_or_none_with(
    alloc: Global,
    sys: &PreparedSystem<'_>,
    earlier: &System,
    origins: &[Option<u32>],
    known: Vec<Overlap>,
) -> Result<Option<Vec<Overlap>>, NoMemory>
    requires { AreKnown earlier.now sys.now origins.now (map overlap_view known.items) }
    ensures { IfOk result (HasOverlaps sys.now) }
{
    listed_or_none(sys, overlaps_with(alloc, sys, earlier, origins, known))
}

/// A certificate is found where it has a text with the names; else it counts as nothing.
pub fn found_if_written(alloc: Global, names: &Names, cert: Certificate) -> Result<Search, NoMemory>
    ensures { WrittenAnswers names.now (certificate_view cert) result }
{
    if has_text(alloc, names, &cert)? {
        Ok(Search::Found(cert))
    } else {
        Ok(Search::Nothing)
    }
}
