//! The places of symbols in a precedence.
ghost use Rattle.std.specs.Prelude.{◌≡◌, ◌<◌, ◌^◌, ◌↔◌, IsTrue, IfOk, map, length};
ghost use Rattle.rewriting.specs.Lists.{IsSorted};
ghost use Rattle.term_core.specs.HeadView.{head_view};
ghost use Rattle.lpo.specs.Places.{ArePlaces, IsOneMissing, OneMoreAnswers, PlacingAnswers, before_by, place_in};
ghost use Rattle.lpo.specs.Symbols.{IsHeadBefore};

use crate::symbols::symbol_of;
use std::alloc::Global;
use term_core::{Head, NoMemory};

/// The place of a symbol in the precedence, from 1, or 0.
pub fn place(places: &[u32], symbol: u32) -> u32
    ensures { result ≡ place_in places.now symbol }
{
    match places.get(symbol as usize) {
        Some(place) => *place,
        None => 0,
    }
}

/// Whether a symbol stands before another.
pub fn is_before(places: &[u32], f: u32, g: u32) -> bool
    ensures { result ≡ before_by places.now f g }
{
    let first = place(places, f);
    first > 0 && first < place(places, g)
}

// Notes the place of an entry.
fn place_one(heads: &[Head], order: &[Head], k: usize, places: &mut [u32]) -> bool
    requires sorted { IsSorted IsHeadBefore (map head_view heads.now) }
    requires few { length heads.now < 2 ^ 31 }
    requires within { k < length order.now }
    requires so_far { ArePlaces (map head_view heads.now) (map head_view order.now) k places.old }
    ensures { OneMoreAnswers (map head_view heads.now) (map head_view order.now) k places.new result }
{
    match symbol_of(heads, order[k]) {
        Some(f) => {
            if places[f] != 0 {
                return false;
            }
            places[f] = k as u32 + 1;
            true
        }
        None => false,
    }
}

/// Notes the place, from 1, of each entry of a precedence at the number of its symbol. The first entry that is no symbol, or
/// stands there again, is told.
pub fn place_all(heads: &[Head], order: &[Head], places: &mut [u32]) -> Option<usize>
    requires sorted { IsSorted IsHeadBefore (map head_view heads.now) }
    requires few { length heads.now < 2 ^ 31 }
    requires so_far { ArePlaces (map head_view heads.now) (map head_view order.now) 0 places.old }
    ensures { PlacingAnswers (map head_view heads.now) (map head_view order.now) places.new result }
{
    for k in 0..order.len() {
        if !place_one(heads, order, k, places) {
            return Some(k);
        }
    }
    None
}

/// No symbol has a place.
pub fn no_places(alloc: Global, heads: &[Head], order: &[Head]) -> Result<Vec<u32>, NoMemory>
    ensures { IfOk result (λ places. ArePlaces (map head_view heads.now) (map head_view order.now) 0 places.items) }
{
    Ok(vec![in alloc; 0; heads.len()]?)
}

/// Whether some symbol has no place.
pub fn is_one_missing(places: &[u32]) -> bool
    ensures { IsTrue result ↔ IsOneMissing places.now }
{
    for place in places {
        if *place == 0 {
            return true;
        }
    }
    false
}
