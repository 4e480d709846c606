//! Whether an interpretation has the right entry for each symbol, and whether the numbers in it are good.
ghost use Rattle.std.specs.Prelude.{◌≡◌, ◌<◌, ◌+◌, ◌↔◌, IsTrue, map, length};
ghost use Rattle.term_core.specs.HeadView.{head_view};
ghost use Rattle.cert_model.specs.CertificateView.{linear_entry_view};
ghost use Rattle.linear_interp.specs.Entries.{IsEntryAt, MisshapenAnswers, IsNumberGood, AreGoodBelow, BadAnswers};

use cert_model::LinearEntry;
use interpretations::MOST_COEFFICIENT;
use term_core::{Head, is_same_head};

// Whether the entry at a place is that of the symbol there.
#[tactic(auto, using(crate::proofs::EntryChecks::absent, crate::proofs::EntryChecks::present, crate::proofs::EntryChecks::shaped))]
fn is_entry(heads: &[Head], arities: &[u32], entries: &[LinearEntry], k: usize) -> bool
    ensures { IsTrue result ↔ IsEntryAt (map head_view heads.now) arities.now (map linear_entry_view entries.now) k }
{
    if k >= heads.len() || k >= arities.len() || k >= entries.len() {
        return false;
    }
    let entry = &entries[k];
    is_shaped(entry, heads[k], arities[k])
}

// Whether the entry is for a symbol, with one number more than its arity.
fn is_shaped(entry: &LinearEntry, head: Head, arity: u32) -> bool
    ensures { IsTrue result ↔ ((head_view entry.now.head ≡ head_view head) × (length entry.now.coeffs.items ≡ arity + 1)) }
{
    is_same_head(entry.head, head) && entry.coeffs.len() == arity as usize + 1
}

/// The first place at which the entry is wrong, missing or surplus.
pub fn first_misshapen(heads: &[Head], arities: &[u32], entries: &[LinearEntry]) -> Option<usize>
    ensures { MisshapenAnswers (map head_view heads.now) arities.now (map linear_entry_view entries.now) result }
{
    let mut places = 0..heads.len().max(entries.len());
    places.find(|k: &usize| !is_entry(heads, arities, entries, *k))
}

// Whether number k of a symbol with some count of numbers is good; the symbols below `symbols` are the conditional
// system's, all of whose arguments are active.
fn is_number_good(symbols: usize, symbol: usize, count: usize, k: usize, number: u32) -> bool
    ensures { IsTrue result ↔ IsNumberGood symbols symbol count k number }
{
    let is_active = if k == 0 {
        count >= 2
    } else {
        symbol < symbols || k == 1
    };
    number <= MOST_COEFFICIENT && (number >= 1 || !is_active)
}

// Whether all numbers of a symbol are good.
fn are_numbers_good(symbols: usize, symbol: usize, numbers: &[u32]) -> bool
    ensures { IsTrue result ↔ AreGoodBelow symbols symbol numbers.now (length numbers.now) }
{
    for (k, number) in numbers.iter().enumerate() {
        if !is_number_good(symbols, symbol, numbers.len(), k, *number) {
            return false;
        }
    }
    true
}

/// The first entry whose numbers are not good.
pub fn first_bad(symbols: usize, entries: &[LinearEntry]) -> Option<usize>
    ensures { BadAnswers symbols (map linear_entry_view entries.now) result }
{
    for (k, entry) in entries.iter().enumerate() {
        if !are_numbers_good(symbols, k, &entry.coeffs) {
            return Some(k);
        }
    }
    None
}
