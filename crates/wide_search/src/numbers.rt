//! The entries that are tried for one symbol, in order, of which only one stands in memory: numbers up to 6.
ghost use Rattle.std.specs.Prelude.{ℕ, ◌≡◌, ◌≤◌, ◌+◌, IfOk, length};
ghost use Rattle.term_core.specs.HeadView.{head_view};
ghost use Rattle.wide_search.specs.Tried.{IsOneAtLeast, AreTried};

use cert_model::LinearEntry;
use std::alloc::Global;
use term_core::{Head, NoMemory};

// The greatest number that is tried.
const HIGHEST: u32 = 6;

// The least number at a place of an entry with a count of numbers: active arguments, and the constants of symbols with
// arguments, have 1 at least.
fn least_at(head: Head, count: usize, place: usize) -> u32
    ensures least { IsOneAtLeast (head_view head) count place → 1 ≤ result }
    ensures small { result ≤ 1 }
{
    match head {
        _ if count == 1 => 0,
        Head::Aux { .. } if place >= 2 => 0,
        _ => 1,
    }
}

/// The first entry of a symbol.
pub(crate) fn first_entry(alloc: Global, head: Head, arity: u32) -> Result<LinearEntry, NoMemory>
    ensures head { IfOk result (λ e. e.head ≡ head) }
    ensures count { IfOk result (λ e. length e.coeffs.items ≡ arity + 1) }
    ensures tried { IfOk result (λ e. AreTried (head_view head) e.coeffs.items) }
{
    let count = arity as usize + 1;
    let mut coeffs = Vec::with_capacity(alloc, count)?;
    'places: for place in 0..count {
        coeffs.push(least_at(head, count, place))?;
    }
    Ok(LinearEntry { head, coeffs })
}

/// Makes the next entry of the same symbol, or tells that this was the last one. The last number counts fastest.
pub(crate) fn advance(entry: &mut LinearEntry) -> bool
    ensures head { entry.new.head ≡ entry.old.head }
    ensures count { length entry.new.coeffs.items ≡ length entry.old.coeffs.items }
    ensures tried { AreTried (head_view entry.old.head) entry.old.coeffs.items → AreTried (head_view entry.old.head) entry.new.coeffs.items }
{
    let count = entry.coeffs.len();
    let mut place = count;
    'places: while place > 0 {
        place -= 1;
        let least = least_at(entry.head, count, place);
        let number = &mut entry.coeffs[place];
        if *number < HIGHEST {
            *number += 1;
            return true;
        }
        *number = least;
    }
    false
}
