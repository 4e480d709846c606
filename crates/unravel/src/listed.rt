//! Lists of the numbers of rules, for each of some places.
ghost use Rattle.std.specs.Prelude.{◌≡◌, ℕ, [], IfOk, length};
ghost use Rattle.unravel.specs.Listed.{listed};

use std::alloc::Global;
use term_core::NoMemory;

/// So many lists without a number.
pub fn empty_lists(alloc: Global, count: usize) -> Result<Vec<Vec<u32>>, NoMemory>
    ensures empty { IfOk result (λ lists. (k : ℕ) → listed lists.items k ≡ []) }
    ensures count { IfOk result (λ lists. length lists.items ≡ count) }
{
    let mut lists = Vec::with_capacity(alloc, count)?;
    'lists: for _ in 0..count {
        lists.push(Vec::new(alloc))?;
    }
    Ok(lists)
}
