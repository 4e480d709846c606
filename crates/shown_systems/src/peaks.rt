//! The search for a peak, with how many starts, terms and pairs of terms it has.
ghost use Rattle.std.specs.Prelude.{◌≤◌, ◌*◌, length, map};
ghost use Rattle.certificates.specs.Sizes.{DoConditionsFit};
ghost use Rattle.term_core.specs.RuleView.{condition_view};
ghost use Rattle.search_answers.specs.Given.{IsOverlapList};

use cc_count::Budget;
use critical_pairs::Overlap;
use flatterm::Work;
use lens_pages::Page;
use noncon_search::search_peak_over;
use prepared_system::PreparedSystem;
use reach::{Entry, ReachStop, reach_in};
use rule_index::IndexedSystem;
use search_spaces::{COND_DEPTH, STEPS};
use term_core::{Cond, MAX_CONDITIONS, NoMemory, Term, fits};
use validity::Search;

/// How many starts there are, how many terms are listed for them, how many pairs these make, and for how many starts there are any.
#[derive(Clone, Copy)]
pub struct Counted {
    pub starts: usize,
    pub terms: usize,
    pub pairs: usize,
    pub moving: usize,
}

/// How the search ends, for how many units, and what was counted where nothing was found.
#[derive(Drop)]
pub struct Peaks {
    pub end: Search,
    pub units: u64,
    pub counted: Option<Counted>,
}

/// The terms that a term reaches in a few steps, where conditions are met by lists of the same kind or by hypotheses; none where the budget is spent before,
/// the term does not fit, or memory was refused, which the page notes.
pub fn listed(
    page: &mut Page<'_>,
    sys: &IndexedSystem<'_>,
    hypotheses: &[Cond],
    start: &Term,
    budget: &mut Budget,
) -> Option<Vec<Entry>>
    requires fit { DoConditionsFit (map condition_view hypotheses.now) }
    requires few { length hypotheses.now ≤ 2 * MAX_CONDITIONS }
{
    if !fits(start) {
        return None;
    }
    let mut work = Work::new();
    match reach_in(
        page.alloc, sys, hypotheses, start, STEPS, COND_DEPTH, budget, &mut work,
    ) {
        Ok(list) => Some(list),
        Err(ReachStop::Spent) => None,
        Err(ReachStop::NoMemory) => page.got(Err(NoMemory)),
    }
}

impl Counted {
    // Counts the list of a start.
    fn take(&mut self, length: usize) {
        self.starts = self.starts.saturating_add(1);
        self.terms = self.terms.saturating_add(length);
        let pairs = length.saturating_mul(length.saturating_sub(1)) / 2;
        self.pairs = self.pairs.saturating_add(pairs);
        if length > 1 {
            self.moving = self.moving.saturating_add(1);
        }
    }

    // Lists the terms of a start, and counts them; none where that is not done.
    fn list(
        &mut self,
        page: &mut Page<'_>,
        sys: &IndexedSystem<'_>,
        start: &Term,
        budget: &mut Budget,
    ) -> Option<()> {
        let list = listed(page, sys, &[], start, budget)?;
        self.take(list.len());
        Some(())
    }
}

// Lists the terms of all starts; none where the budget is spent before.
fn count(
    page: &mut Page<'_>,
    sys: &IndexedSystem<'_>,
    overlaps: &[Overlap],
    units: u64,
) -> Option<Counted> {
    let mut budget = Budget::new(units);
    let mut counted = Counted {
        starts: 0,
        terms: 0,
        pairs: 0,
        moving: 0,
    };
    'rules: for rule in sys.rules() {
        counted.list(page, sys, &rule.left, &mut budget)?;
    }
    'overlaps: for overlap in overlaps {
        counted.list(page, sys, &overlap.source, &mut budget)?;
    }
    Some(counted)
}

/// Searches for a peak, and counts what was tried where there is none.
pub fn find_peaks(
    page: &mut Page<'_>,
    sys: &PreparedSystem<'_>,
    overlaps: Option<&[Overlap]>,
    units: u64,
) -> Result<Peaks, NoMemory>
    requires overlaps { IsOverlapList sys.now overlaps }
{
    let mut budget = Budget::new(units);
    let end = search_peak_over(page.alloc, sys.indexed(), page.names, overlaps, &mut budget)?;
    let counted = match &end {
        Search::Nothing => count(page, sys.indexed(), overlaps.unwrap_or(&[]), units),
        _ => None,
    };
    Ok(Peaks {
        end,
        units: budget.spent(),
        counted,
    })
}
