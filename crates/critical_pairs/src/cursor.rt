//! Where a search for overlaps stands: at an outer rule, a position of its left side, and an inner rule.
ghost use Rattle.std.specs.Prelude.{◌≡◌, ◌<◌, ◌^◌, [], length};
ghost use Rattle.rewriting.specs.Prelude.{Fits, IsSystem};
ghost use Rattle.rule_index.specs.Roots.{rules_with_root};
ghost use Rattle.term_core.specs.View.{view};
ghost use Rattle.critical_pairs.specs.Offers.{DoesPass};
ghost use Rattle.critical_pairs.specs.Cursors.{rest_of, IsCursor, IsTripleAt, CandidateAnswers, StandAnswers, EnterAnswers, SettleAnswers};

use crate::pairs::Triple;
use crate::places::{Place, places};
use prepared_system::PreparedSystem;
use std::alloc::Global;
use term_core::{NoMemory, Term};

/// An outer rule, one of its places, and one of the inner rules with the root there.
#[derive(Debug, Drop)]
pub struct Cursor {
    /// The outer rule's number, from 1; 0 before the first.
    pub outer: u32,
    /// The places of its left side.
    pub places: Vec<Place>,
    /// The number of the place, from 0.
    pub place: usize,
    /// The number of the inner rule among those with the root, from 0.
    pub candidate: usize,
}

// The inner rule with a number among the candidates at a place. At the root only those before the outer rule count.
fn candidate(sys: &PreparedSystem<'_>, place: &Place, outer: u32, number: usize) -> Option<u32>
    ensures { CandidateAnswers (rules_with_root sys.now place.now.root) place.now.pos.items outer number result }
{
    let inner = *sys.indexed().with_root(place.root).get(number)?;
    if place.pos.is_empty() && inner >= outer {
        None
    } else {
        Some(inner)
    }
}

impl Cursor {
    /// The cursor before the first outer rule.
    pub fn new(alloc: Global) -> Cursor
        ensures outer { result.outer ≡ 0 }
        ensures places { result.places.items ≡ [] }
    {
        Cursor {
            outer: 0,
            places: Vec::new(alloc),
            place: 0,
            candidate: 0,
        }
    }

    /// The triple of an inner rule, the place where the cursor stands, and the outer rule.
    pub fn triple(&self, inner: u32) -> Triple<'_>
        requires { self.now.place < length self.now.places.items }
        ensures { IsTripleAt self.now inner result }
    {
        Triple {
            inner,
            pos: &self.places[self.place].pos,
            outer: self.outer,
        }
    }

    // Goes on to the next inner rule that the outer rule may overlap with.
    fn settle_in_rule(&mut self, sys: &PreparedSystem<'_>) -> Option<u32>
        requires sound { IsSystem sys.now }
        requires cursor { IsCursor sys.now self.old }
        ensures outer { self.new.outer ≡ self.old.outer }
        ensures places { self.new.places ≡ self.old.places }
        ensures passes { DoesPass sys.now (rest_of sys.now self.old) (rest_of sys.now self.new) }
        ensures answer { StandAnswers sys.now self.new result }
    {
        while self.place < self.places.len() {
            let place = &self.places[self.place];
            if let Some(inner) = candidate(sys, place, self.outer, self.candidate) {
                return Some(inner);
            }
            self.place += 1;
            self.candidate = 0;
        }
        None
    }

    // Goes on to the places of the next outer rule.
    fn enter(&mut self, alloc: Global, left: &Term) -> Result<(), NoMemory>
        requires fits { Fits (view left.now) }
        requires few { self.old.outer < 2 ^ 31 }
        ensures { EnterAnswers self.old (view left.now) self.new result }
    {
        self.places = places(alloc, left)?;
        self.outer += 1;
        self.place = 0;
        self.candidate = 0;
        Ok(())
    }

    /// Goes on to the next inner rule whose left side has the root of a place: its number, or none where nothing is left.
    pub fn settle(
        &mut self,
        alloc: Global,
        sys: &PreparedSystem<'_>,
    ) -> Result<Option<u32>, NoMemory>
        requires sound { IsSystem sys.now }
        requires cursor { IsCursor sys.now self.old }
        ensures cursor { IsCursor sys.now self.new }
        ensures passes { DoesPass sys.now (rest_of sys.now self.old) (rest_of sys.now self.new) }
        ensures answer { SettleAnswers sys.now self.new result }
    {
        'rules: loop {
            if let Some(inner) = self.settle_in_rule(sys) {
                return Ok(Some(inner));
            }
            let Some(rule) = sys.rules().get(self.outer as usize) else {
                return Ok(None);
            };
            self.enter(alloc, &rule.left)?;
        }
    }
}
