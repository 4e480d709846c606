//! The parts of the search, one behind the other, in a system that steps may have left.
ghost use Rattle.std.specs.Prelude.{◌≡◌, map};
ghost use Rattle.valid_certificates.specs.Certificates.{IsValid};
ghost use Rattle.search_spaces.specs.Texts.{HasText};
ghost use Rattle.search_answers.specs.Given.{IsOverlapList};
ghost use Rattle.search_answers.specs.Answers.{ending_of, IfFound};

use crate::accepted::accepted;
use crate::ground::Pool;
use crate::listed::Tried;
use crate::quasi::search_quasi_widely;
use crate::shares::{part_of, settle};
use crate::starts::Peaks;
use crate::steps::behind;
use cc_count::Budget;
use cert_model::Simp;
use cops_names::Names;
use critical_pairs::Overlap;
use ortho_search::search_ortho_over;
use prepared_system::PreparedSystem;
use rule_index::IndexedSystem;
use search_answers::overlaps_or_none;
use std::alloc::Global;
use term_core::{NoMemory, System};
use validity::Search;

// What is searched for.
#[derive(Clone, Copy, Debug, PartialEq, Eq)]
enum Part {
    /// That the system is almost orthogonal.
    Ortho,
    /// Peaks between such ends.
    Peaks(Tried),
    /// A measure.
    Quasi,
}

// The parts in order, and how many are left then, which share the units.
const PARTS: [(Part, u64); 4] = [
    (Part::Ortho, 4),
    (Part::Peaks(Tried::Refuted), 3),
    (Part::Quasi, 2),
    (Part::Peaks(Tried::All), 1),
];

// Searches for a certificate with a measure; where the overlaps have no list, there is nothing to search.
fn search_quasi(
    alloc: Global,
    last: &PreparedSystem<'_>,
    overlaps: Option<&[Overlap]>,
    budget: &mut Budget,
) -> Result<Search, NoMemory>
    requires overlaps { IsOverlapList last.now overlaps }
{
    match overlaps {
        Some(found) => search_quasi_widely(alloc, last, found, budget),
        None => Ok(Search::Nothing),
    }
}

// Searches for a peak.
fn search_peaks(
    alloc: Global,
    last: &PreparedSystem<'_>,
    names: &Names,
    overlaps: Option<&[Overlap]>,
    tried: Tried,
    budget: &mut Budget,
) -> Result<Search, NoMemory>
    requires overlaps { IsOverlapList last.now overlaps }
{
    let pool = Pool::new(alloc, last.system())?;
    let peaks = Peaks {
        sys: last.indexed(),
        names,
        pool: &pool,
        tried,
    };
    peaks.try_all(alloc, overlaps, budget)
}

// One part.
fn search_part(
    alloc: Global,
    last: &PreparedSystem<'_>,
    names: &Names,
    overlaps: Option<&[Overlap]>,
    part: Part,
    budget: &mut Budget,
) -> Result<Search, NoMemory>
    requires overlaps { IsOverlapList last.now overlaps }
{
    match part {
        Part::Ortho => search_ortho_over(alloc, last, names, overlaps, budget),
        Part::Peaks(tried) => search_peaks(alloc, last, names, overlaps, tried, budget),
        Part::Quasi => search_quasi(alloc, last, overlaps, budget),
    }
}

// What a part found, behind the steps, where the checker takes it for the system itself.
fn judged(
    alloc: Global,
    sys: &System,
    names: &Names,
    steps: &[Simp],
    found: Search,
) -> Result<Search, NoMemory>
    requires named { sys.now.arities ≡ map (λ s. s.1) names.now.symbols }
    ensures valid { IfFound ending_of result (IsValid sys.now) }
    ensures written { IfFound ending_of result (HasText names.now) }
{
    match found {
        Search::Found(body) => {
            let cert = behind(alloc, steps, body)?;
            match accepted(alloc, sys, names, cert)? {
                Some(cert) => Ok(Search::Found(cert)),
                None => Ok(Search::Nothing),
            }
        }
        Search::Nothing => Ok(Search::Nothing),
        Search::Spent => Ok(Search::Spent),
    }
}

// All parts, each with its share of what is left.
fn search_parts(
    alloc: Global,
    sys: &System,
    names: &Names,
    steps: &[Simp],
    last: &PreparedSystem<'_>,
    budget: &mut Budget,
) -> Result<Search, NoMemory>
    requires named { sys.now.arities ≡ map (λ s. s.1) names.now.symbols }
    ensures valid { IfFound ending_of result (IsValid sys.now) }
    ensures written { IfFound ending_of result (HasText names.now) }
{
    let found = overlaps_or_none(alloc, last)?;
    let overlaps = found.as_deref();
    let mut is_cut = false;
    'parts: for (part, left) in PARTS {
        let mut share = part_of(budget, left);
        let body = search_part(alloc, last, names, overlaps, part, &mut share)?;
        settle(budget, &share);
        match judged(alloc, sys, names, steps, body)? {
            Search::Nothing => {}
            Search::Spent => is_cut = true,
            Search::Found(cert) => return Ok(Search::Found(cert)),
        }
    }
    if is_cut {
        Ok(Search::Spent)
    } else {
        Ok(Search::Nothing)
    }
}

/// Searches the system that the steps leave for what shows something of the system itself, where it stands behind them.
pub(crate) fn search_behind(
    alloc: Global,
    sys: &System,
    names: &Names,
    steps: &[Simp],
    last: &System,
    budget: &mut Budget,
) -> Result<Search, NoMemory>
    requires named { sys.now.arities ≡ map (λ s. s.1) names.now.symbols }
    ensures valid { IfFound ending_of result (IsValid sys.now) }
    ensures written { IfFound ending_of result (HasText names.now) }
{
    let indexed = IndexedSystem::new(alloc, last)?;
    let prepared = PreparedSystem::new(alloc, indexed)?;
    search_parts(alloc, sys, names, steps, &prepared, budget)
}
