//! The value of a term by its constant and coefficients: sums from left to right, up to a limit.
ghost use Rattle.std.specs.Prelude.{◌≡◌, ◌≤◌, ◌<◌, ◌+◌, ◌*◌, ◌^◌, ℕ, map, length, min, slice_index, slice_set, IfOk, MatchBool, IsTrue};
ghost use Rattle.term_core.specs.View.{view, views};
ghost use Rattle.cert_model.specs.CertificateView.{linear_entry_view};
ghost use Rattle.linear_interp.specs.Parts.{IsReady, AreReady, AreSmall, AddAnswers, SymbolAnswers, SumsAnswers};

use cert_model::LinearEntry;
use interpretations::MOST_COEFFICIENT;
use std::alloc::Global;
use term_core::{NoMemory, Term};

// No constant or coefficient of a good interpretation is above 2^100.
const LIMIT: u128 = 1_267_650_600_228_229_401_496_703_205_376;

// The factor of an argument: one above the limit stands for all above it.
fn inner_factor(factor: u128, number: u32) -> u128
    requires factor { factor ≤ 2 ^ 100 + 1 }
    requires number { number ≤ MOST_COEFFICIENT }
    ensures { result ≡ min (factor * number) (2 ^ 100 + 1) }
{
    (factor * u128::from(number)).min(LIMIT + 1)
}

// Raises a sum, and answers whether it is still within the limit.
fn raise(sums: &mut [u128], i: usize, by: u128) -> bool
    requires place { i < length sums.old }
    requires sums { AreSmall sums.old }
    requires by { by ≤ 2 ^ 121 }
    ensures sums { sums.new ≡ slice_set sums.old i (slice_index sums.old i + by) }
    ensures within { IsTrue result → slice_index sums.old i + by ≤ 2 ^ 100 }
    ensures above { MatchBool result (slice_index sums.old i + by ≤ 2 ^ 100) (2 ^ 100 < slice_index sums.old i + by) }
{
    sums[i] += by;
    sums[i] <= LIMIT
}

// Adds a term's constant and coefficients, times a factor, to the sums: the constant to the first, the coefficient of
// variable x to the one behind x others. Ends at the first sum above the limit.
#[cycle(add)]
fn add(entries: &[LinearEntry], factor: u128, t: &Term, sums: &mut [u128]) -> bool
    requires factor { factor ≤ 2 ^ 100 + 1 }
    requires term { IsReady (map linear_entry_view entries.now) (length sums.old) (view t.now) }
    requires sums { AreSmall sums.old }
    requires some { 0 < length sums.old }
    ensures { AddAnswers (map linear_entry_view entries.now) factor (view t.now) sums.old sums.new result }
{
    match t {
        Term::Var(x) => raise(sums, *x as usize + 1, factor),
        Term::Fun(f, args) => {
            let entry = &entries[*f as usize];
            add_symbol(entries, factor, &entry.coeffs, args, sums)
        }
    }
}

// The same for a symbol with these numbers, and its arguments.
#[cycle(add)]
fn add_symbol(
    entries: &[LinearEntry],
    factor: u128,
    numbers: &[u32],
    args: &[Term],
    sums: &mut [u128],
) -> bool
    requires factor { factor ≤ 2 ^ 100 + 1 }
    requires numbers { length numbers.now ≡ length args.now + 1 }
    requires small { (k : ℕ) → slice_index numbers.now k ≤ MOST_COEFFICIENT }
    requires args { AreReady (map linear_entry_view entries.now) (length sums.old) (views args.now) }
    requires sums { AreSmall sums.old }
    requires some { 0 < length sums.old }
    ensures { SymbolAnswers (map linear_entry_view entries.now) factor numbers.now (views args.now) sums.old sums.new result }
{
    if !raise(sums, 0, factor * u128::from(numbers[0])) {
        return false;
    }
    for (k, arg) in args.iter().enumerate() {
        if !add(entries, inner_factor(factor, numbers[k + 1]), arg, sums) {
            return false;
        }
    }
    true
}

/// The constant of a term, and the coefficients of the variables below a number, or none where one is above the limit.
pub fn sums_of(
    alloc: Global,
    entries: &[LinearEntry],
    variables: u32,
    t: &Term,
) -> Result<Option<Vec<u128>>, NoMemory>
    requires { IsReady (map linear_entry_view entries.now) (variables + 1) (view t.now) }
    ensures { IfOk result (λ o. SumsAnswers (map linear_entry_view entries.now) (variables + 1) (view t.now) o) }
{
    let mut sums = vec![in alloc; 0; variables as usize + 1]?;
    if add(entries, 1, t, &mut sums) {
        Ok(Some(sums))
    } else {
        Ok(None)
    }
}
