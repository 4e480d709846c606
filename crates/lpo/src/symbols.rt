//! The numbers of symbols, by their heads.
ghost use Rattle.std.specs.Prelude.{◌≡◌, ◌↔◌, ℕ, IsTrue, Some, map, slice_get};
ghost use Rattle.rewriting.specs.Lists.{IsSorted};
ghost use Rattle.term_core.specs.HeadView.{head_view};
ghost use Rattle.lpo.specs.Symbols.{IsHeadBefore, SymbolAnswers};

use term_core::{Head, is_same_head};

fn is_head_before(a: Head, b: Head) -> bool
    ensures { IsTrue result ↔ IsHeadBefore (head_view a) (head_view b) }
{
    match (a, b) {
        (Head::File(f), Head::File(g)) => f < g,
        (Head::File(_), Head::Aux { .. }) => true,
        (Head::Aux { .. }, Head::File(_)) => false,
        (Head::Aux { rule: i, cond: k }, Head::Aux { rule: j, cond: l }) => {
            i < j || (i == j && k < l)
        }
    }
}

// Where a head stands in the order of heads, if it is among them.
fn place_of(heads: &[Head], head: Head) -> usize
    requires { IsSorted IsHeadBefore (map head_view heads.now) }
    ensures { (f : ℕ) → slice_get (map head_view heads.now) f ≡ Some (head_view head) → f ≡ result }
{
    let mut low = 0;
    let mut high = heads.len();
    'halves: while low < high {
        let middle = low + (high - low) / 2;
        if is_head_before(heads[middle], head) {
            low = middle + 1;
        } else {
            high = middle;
        }
    }
    low
}

/// The number of the symbol with a head, where heads stand in their order, as those of an unraveled system do.
pub fn symbol_of(heads: &[Head], head: Head) -> Option<usize>
    requires { IsSorted IsHeadBefore (map head_view heads.now) }
    ensures { SymbolAnswers (map head_view heads.now) (head_view head) result }
{
    let place = place_of(heads, head);
    let other = heads.get(place)?;
    if is_same_head(*other, head) {
        Some(place)
    } else {
        None
    }
}
