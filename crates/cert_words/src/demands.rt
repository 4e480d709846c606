//! What words must meet.

ghost use Rattle.std.specs.Prelude.{◌≡◌, ◌≤◌, ◌<◌, None, Some, MatchOption};
ghost use Rattle.cops_names.specs.NameTable.{NameTable, number_of};
ghost use Rattle.cert_grammar.specs.Words.{largest, IsIdentifier};
ghost use Rattle.cert_grammar.specs.Marks as spec;
ghost use Rattle.cert_grammar.specs.Scans as scans;
ghost use Rattle.cert_words.specs.Words.{counted_view};

use crate::error::CertCount;
pub use cert_grammar::LARGEST;
use cert_grammar::{
    MOST_ENTRIES, MOST_NUMBERS, MOST_PAIRS, MOST_REDEXES, MOST_SHARED, MOST_STATES, MOST_STEPS,
    MOST_TRANSITIONS, MOST_UNFOLDED,
};
use cops_names::Names;
use std::str;
use term_core::MAX_NODES;

/// Each number is below it.
pub const BOUND: u64 = LARGEST + 1;

pub fn limit(what: CertCount) -> usize
    ensures { result ≡ spec.limit (counted_view what) }
{
    match what {
        CertCount::Pairs => MOST_PAIRS as usize,
        CertCount::Entries => MOST_ENTRIES as usize,
        CertCount::Numbers => MOST_NUMBERS,
        CertCount::Steps => MOST_STEPS as usize,
        CertCount::Redexes => MOST_REDEXES as usize,
        CertCount::States => MOST_STATES as usize,
        CertCount::Transitions => MOST_TRANSITIONS as usize,
        CertCount::Nodes => MAX_NODES as usize,
        CertCount::Shared => MOST_SHARED as usize,
        CertCount::Unfolded => MOST_UNFOLDED as usize,
    }
}

// the number that the digits spell, unless it is too great
pub fn value(digits: &[u8]) -> Option<u32>
    ensures { MatchOption result (largest < scans.value digits.now) (λ n. (n ≡ scans.value digits.now) × (n ≤ largest)) }
{
    let mut value: u64 = 0;
    'digits: for b in digits {
        value = 10 * value + (*b as u64).saturating_sub(48);
        if value > LARGEST {
            return None;
        }
    }
    Some(value as u32)
}

// the symbol that the name is of
pub fn symbol(names: &Names, name: &[u8]) -> Option<u32>
    ensures { MatchOption result (IsIdentifier name.now → number_of names.now.symbols name.now ≡ None) (λ f. number_of names.now.symbols name.now ≡ Some f) }
{
    match str::from_utf8(name) {
        Ok(text) => names.symbol_number(text),
        Err(_) => None,
    }
}
