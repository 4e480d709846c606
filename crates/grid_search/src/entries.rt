//! The entries that are tried for one symbol, in order, of which only one stands in memory.
ghost use Rattle.std.specs.Prelude.{ℕ, suc, ◌≡◌, ◌≤◌, ◌<◌, IfOk, length};
ghost use Rattle.term_core.specs.HeadView.{head_view};
ghost use Rattle.cert_model.specs.CertificateView.{linear_entry_view};
ghost use Rattle.grid_search.specs.Columns.{IsFirstOf, AdvanceAnswers, AreTriedAt};

use cert_model::LinearEntry;
use std::alloc::Global;
use term_core::{Head, NoMemory};

// The numbers that are tried at one place of an entry.
#[derive(Clone, Copy, Debug)]
struct Numbers {
    lowest: u32,
    highest: u32,
}

// Those of an entry with a count of numbers.
#[tactic(auto, using(crate::proofs::Tried::constant_tried, crate::proofs::Tried::passive_tried, crate::proofs::Tried::first_tried))]
fn numbers_at(head: Head, count: usize, place: usize) -> Numbers
    requires { place < count }
    ensures tried { (arity : ℕ) → count ≡ suc arity → AreTriedAt (head_view head) arity place result.lowest result.highest }
    ensures small { result.highest ≤ 3 }
{
    let (lowest, highest) = match head {
        _ if count == 1 => (0, 3),
        Head::Aux { .. } if place >= 2 => (0, 1),
        _ => (1, 3),
    };
    Numbers { lowest, highest }
}

/// The first entry of a symbol.
pub(crate) fn first_entry(alloc: Global, head: Head, arity: u32) -> Result<LinearEntry, NoMemory>
    ensures { IfOk result (λ e. IsFirstOf (head_view head) arity (linear_entry_view e)) }
{
    let count = arity as usize + 1;
    let mut coeffs = Vec::with_capacity(alloc, count)?;
    'places: for place in 0..count {
        coeffs.push(numbers_at(head, count, place).lowest)?;
    }
    Ok(LinearEntry { head, coeffs })
}

/// Makes the next entry of the same symbol, or tells that this was the last one. The last number counts fastest.
pub(crate) fn advance(entry: &mut LinearEntry) -> bool
    ensures head { entry.new.head ≡ entry.old.head }
    ensures count { length entry.new.coeffs.items ≡ length entry.old.coeffs.items }
    ensures next { AdvanceAnswers (linear_entry_view entry.old) (linear_entry_view entry.new) result }
{
    let count = entry.coeffs.len();
    let mut place = count;
    'places: while place > 0 {
        place -= 1;
        let numbers = numbers_at(entry.head, count, place);
        let number = &mut entry.coeffs[place];
        if *number < numbers.highest {
            *number += 1;
            return true;
        }
        *number = numbers.lowest;
    }
    false
}
