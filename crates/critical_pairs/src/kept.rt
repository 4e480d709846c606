//! Overlaps that are known before a search, since an earlier system has both of their rules.
ghost use Rattle.std.specs.Prelude.{ℕ, ◌≡◌, ◌<◌, ◌≤◌, ◌^◌, ◌∷◌, ◌++◌, ◌↔◌, IsTrue, IfSome, IfOk, OnOk, List, flat_map, map, length, option_to_list};
ghost use Rattle.rewriting.specs.Rules as math;
ghost use Rattle.unifier_run.specs.Overlaps as triples;
ghost use Rattle.unifier_run.specs.Triples.{all_triples};
ghost use Rattle.critical_pairs.specs.View.{overlap_view};
ghost use Rattle.critical_pairs.specs.Spots.{IsSpotOf, SpotAnswers};
ghost use Rattle.critical_pairs.specs.Kept.{number_at as held_under, AreOrigins, AreKnown, AreNumbersNow, noted, renumbered as with_numbers_now, IsOld, AreKept, TakeAnswers};

use crate::pairs::Triple;
use crate::spots::{Made, unifier_at};
use crate::{Overlap, OverlapError};
use prepared_system::PreparedSystem;
use std::alloc::Global;
use std::collections::VecDeque;
use term_core::{NoMemory, System};

// What a list holds under a number, from 1.
fn number_at(numbers: &[Option<u32>], number: u32) -> Option<u32>
    ensures { result ≡ held_under numbers.now number }
{
    if number == 0 {
        return None;
    }
    *numbers.get(number as usize - 1)?
}

// The earlier rule that is the origin of a rule has its number now.
fn note(now: &mut Vec<Option<u32>>, origin: Option<u32>, number: u32)
    requires { IfSome origin (λ m. (0 < m) × (m ≤ length now.old.items)) }
    ensures { now.new.items ≡ noted now.old.items origin number }
{
    if let Some(earlier) = origin {
        now[earlier as usize - 1] = Some(number);
    }
}

// The number that each earlier rule has now, if it is still there.
fn numbers_now(
    alloc: Global,
    earlier: &System,
    origins: &[Option<u32>],
) -> Result<Vec<Option<u32>>, NoMemory>
    requires origins { (sys : math.System) × AreOrigins earlier.now sys origins.now }
    requires few { length origins.now < 2 ^ 31 }
    ensures { IfOk result (λ now. AreNumbersNow origins.now now.items) }
{
    let mut now = vec![in alloc; None; earlier.rules().len()]?;
    for (place, origin) in origins.iter().enumerate() {
        note(&mut now, *origin, place as u32 + 1);
    }
    Ok(now)
}

// The overlap with the numbers that its rules have now, if both are still there.
fn renumbered(overlap: Overlap, now: &[Option<u32>]) -> Option<Overlap>
    ensures { map overlap_view (option_to_list result) ≡ with_numbers_now now.now (overlap_view overlap) }
{
    let inner = number_at(now, overlap.inner)?;
    let outer = number_at(now, overlap.outer)?;
    Some(Overlap {
        inner,
        outer,
        ..overlap
    })
}

// Appends the overlap with the numbers of now, if both rules are still there.
fn keep(kept: &mut VecDeque<Overlap>, overlap: Overlap, now: &[Option<u32>]) -> Result<(), NoMemory>
    ensures { OnOk result (map overlap_view kept.new.items ≡ map overlap_view kept.old.items ++ with_numbers_now now.now (overlap_view overlap)) }
{
    if let Some(overlap) = renumbered(overlap, now) {
        kept.push_back(overlap)?;
    }
    Ok(())
}

// The overlaps whose rules are both still there, in their order.
fn all_renumbered(
    alloc: Global,
    known: Vec<Overlap>,
    now: &[Option<u32>],
) -> Result<VecDeque<Overlap>, NoMemory>
    ensures { IfOk result (λ kept. map overlap_view kept.items ≡ flat_map (with_numbers_now now.now) (map overlap_view known.items)) }
{
    let mut kept = VecDeque::new(alloc);
    for overlap in known {
        keep(&mut kept, overlap, now)?;
    }
    Ok(kept)
}

/// The overlaps that are known of old rules, which an earlier system has too.
#[derive(Debug, Drop)]
pub struct Kept<'a> {
    /// The number of each rule in the earlier system, if it is there.
    pub origins: &'a [Option<u32>],
    /// Those at triples that are still to come, with the numbers that their rules have now.
    pub overlaps: VecDeque<Overlap>,
}

impl<'a> Kept<'a> {
    /// The overlaps that the list of the earlier system has of old rules.
    pub fn new(
        alloc: Global,
        earlier: &System,
        origins: &'a [Option<u32>],
        known: Vec<Overlap>,
    ) -> Result<Kept<'a>, NoMemory>
        requires origins { (sys : math.System) × AreOrigins earlier.now sys origins.now }
        requires few { length origins.now < 2 ^ 31 }
        ensures { (sys : math.System) → AreKnown earlier.now sys origins.now (map overlap_view known.items) → IfOk result (AreKept sys (all_triples sys)) }
    {
        let now = numbers_now(alloc, earlier, origins)?;
        Ok(Kept {
            origins,
            overlaps: all_renumbered(alloc, known, &now)?,
        })
    }

    // Whether both rules of a triple are old.
    fn knows(&self, triple: &Triple) -> bool
        ensures { IsTrue result ↔ IsOld self.now.origins.now (triple.now.inner, (triple.now.pos.now, triple.now.outer)) }
    {
        number_at(self.origins, triple.inner).is_some()
            && number_at(self.origins, triple.outer).is_some()
    }

    // The next overlap, if it is at the triple.
    fn take(&mut self, triple: &Triple) -> Option<Overlap>
        ensures origins { self.new.origins ≡ self.old.origins }
        ensures overlaps { TakeAnswers (triple.now.inner, (triple.now.pos.now, triple.now.outer)) self.old.overlaps.items self.new.overlaps.items result }
    {
        let next = self.overlaps.front()?;
        if next.inner == triple.inner
            && next.outer == triple.outer
            && next.pos.as_slice() == triple.pos
        {
            self.overlaps.pop_front()
        } else {
            None
        }
    }
}

/// The overlap at a triple, or none where the run clashes there. Of two old rules this is known, and no run is made.
pub fn overlap_at(
    alloc: Global,
    sys: &PreparedSystem<'_>,
    kept: &mut Kept,
    triple: &Triple,
) -> Result<Option<Overlap>, OverlapError>
    requires { IsSpotOf sys.now triple.now.inner triple.now.pos.now triple.now.outer }
    ensures answer { (later : List triples.Triple) → AreKept sys.now ((triple.now.inner, (triple.now.pos.now, triple.now.outer)) ∷ later) kept.old → SpotAnswers sys.now triple.now.inner triple.now.pos.now triple.now.outer result }
    ensures kept { (later : List triples.Triple) → AreKept sys.now ((triple.now.inner, (triple.now.pos.now, triple.now.outer)) ∷ later) kept.old → OnOk result (AreKept sys.now later kept.new) }
{
    if kept.knows(triple) {
        return Ok(kept.take(triple));
    }
    match unifier_at(alloc, sys, triple)? {
        Some(unifier) => Ok(Some(Overlap::make_by(alloc, sys, &unifier, triple)?)),
        None => Ok(None),
    }
}
