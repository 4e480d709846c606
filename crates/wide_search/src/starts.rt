//! The starts of peaks: left sides of rules and sources of overlaps, and their instances by ground terms.
ghost use Rattle.rewriting.specs.Terms as math;
ghost use Rattle.reach_lists.specs.Laws.{EachOf};
ghost use Rattle.term_core.specs.View.{view};
ghost use Rattle.search_answers.specs.Given.{IsOverlapList};

use crate::ground::Pool;
use crate::listed::{Tried, try_start};
use crate::shares::{ended, part_of, settle, share_of};
use crate::turns::Turns;
use cc_count::Budget;
use cops_names::Names;
use critical_pairs::Overlap;
use noncon_search::HasStart;
use rule_index::IndexedSystem;
use std::alloc::Global;
use term_core::{NoMemory, Term, TermError, vars};
use validity::Search;

// What a start gets at most, so that no start eats the units of all.
fn most_of(tried: Tried) -> u64 {
    match tried {
        Tried::Refuted => 4_000,
        Tried::All => 60_000,
    }
}

/// What is the same for all starts of a search.
#[derive(Clone, Copy)]
pub(crate) struct Peaks<'a> {
    pub(crate) sys: &'a IndexedSystem<'a>,
    pub(crate) names: &'a Names,
    pub(crate) pool: &'a Pool,
    pub(crate) tried: Tried,
}

// Ground terms from number `before` on, up to number `last`.
#[derive(Clone, Copy)]
struct Level {
    before: usize,
    last: usize,
}

impl Peaks<'_> {
    // Tries the instance of a term under the values to which the numbers have turned.
    fn try_instance(
        &self,
        alloc: Global,
        term: &Term,
        vars: &[u32],
        turns: &Turns,
        budget: &mut Budget,
    ) -> Result<Search, NoMemory>
        requires fits { math.Fits (view term.now) }
    {
        let values = turns.values(alloc, vars, &self.pool.terms)?;
        match values.apply(alloc, term) {
            Ok(start) => try_start(alloc, self.sys, self.names, &start, self.tried, budget),
            Err(TermError::NoMemory) => Err(NoMemory),
            Err(_) => Ok(Search::Nothing),
        }
    }

    // Tries the instances by the first ground terms, up to the last of the level, but those by terms before it alone.
    fn try_level(
        &self,
        alloc: Global,
        term: &Term,
        vars: &[u32],
        level: Level,
        budget: &mut Budget,
    ) -> Result<Search, NoMemory>
        requires fits { math.Fits (view term.now) }
    {
        let mut turns = Turns::new(alloc, vars.len(), level.last)?;
        let mut is_cut = false;
        'instances: while budget.take() {
            if turns.is_above(level.before) {
                let mut share = share_of(budget, most_of(self.tried));
                let found = self.try_instance(alloc, term, vars, &turns, &mut share)?;
                settle(budget, &share);
                match found {
                    Search::Found(cert) => return Ok(Search::Found(cert)),
                    Search::Nothing => {}
                    Search::Spent => is_cut = true,
                }
            }
            if !turns.turn() {
                return Ok(ended(is_cut));
            }
        }
        Ok(Search::Spent)
    }

    // Tries the instances of a term by ground terms: by those of one symbol, then of two, then of three.
    fn try_instances(
        &self,
        alloc: Global,
        term: &Term,
        budget: &mut Budget,
    ) -> Result<Search, NoMemory>
        requires fits { math.Fits (view term.now) }
    {
        let vars = vars(alloc, term)?;
        let levels = [
            Level {
                before: 0,
                last: self.pool.single,
            },
            Level {
                before: self.pool.single,
                last: self.pool.double,
            },
            Level {
                before: self.pool.double,
                last: self.pool.terms.len(),
            },
        ];
        let mut is_cut = false;
        'levels: for level in levels {
            match self.try_level(alloc, term, &vars, level, budget)? {
                Search::Found(cert) => return Ok(Search::Found(cert)),
                Search::Nothing => {}
                Search::Spent => is_cut = true,
            }
        }
        Ok(ended(is_cut))
    }

    // Tries a term itself, and then its instances.
    fn try_term(&self, alloc: Global, term: &Term, budget: &mut Budget) -> Result<Search, NoMemory>
        requires fits { math.Fits (view term.now) }
    {
        let mut share = share_of(budget, most_of(self.tried));
        let found = try_start(alloc, self.sys, self.names, term, self.tried, &mut share)?;
        settle(budget, &share);
        match found {
            Search::Found(cert) => Ok(Search::Found(cert)),
            Search::Nothing => self.try_instances(alloc, term, budget),
            Search::Spent => match self.try_instances(alloc, term, budget)? {
                Search::Found(cert) => Ok(Search::Found(cert)),
                _ => Ok(Search::Spent),
            },
        }
    }

    // Tries the left sides of rules, or the sources of overlaps, each with its share of what is left.
    fn try_each<T: HasStart>(
        &self,
        alloc: Global,
        all: &[T],
        budget: &mut Budget,
    ) -> Result<Search, NoMemory>
        requires fit { EachOf (λ x. math.Fits (T.start x)) all.now }
    {
        let mut is_cut = false;
        'starts: for (i, one) in all.iter().enumerate() {
            let mut share = part_of(budget, (all.len() - i) as u64);
            let found = self.try_term(alloc, one.start(), &mut share)?;
            settle(budget, &share);
            match found {
                Search::Found(cert) => return Ok(Search::Found(cert)),
                Search::Nothing => {}
                Search::Spent => is_cut = true,
            }
        }
        Ok(ended(is_cut))
    }

    /// Tries all starts: half of the units are for the sources of overlaps, which come first, and all that are left for the
    /// left sides of rules.
    pub(crate) fn try_all(
        &self,
        alloc: Global,
        overlaps: Option<&[Overlap]>,
        budget: &mut Budget,
    ) -> Result<Search, NoMemory>
        requires overlaps { IsOverlapList self.now.sys.now overlaps }
    {
        let mut is_cut = false;
        if let Some(overlaps) = overlaps {
            let mut share = part_of(budget, 2);
            let found = self.try_each(alloc, overlaps, &mut share)?;
            settle(budget, &share);
            match found {
                Search::Found(cert) => return Ok(Search::Found(cert)),
                Search::Nothing => {}
                Search::Spent => is_cut = true,
            }
        }
        match self.try_each(alloc, self.sys.rules(), budget)? {
            Search::Found(cert) => Ok(Search::Found(cert)),
            Search::Nothing => Ok(ended(is_cut)),
            Search::Spent => Ok(Search::Spent),
        }
    }
}
