//! Whether numbers, symbols, terms and positions can be spelt.
ghost use Rattle.std.specs.Prelude.{◌≤◌, ◌↔◌, ℕ, List, IsTrue};
ghost use Rattle.term_core.specs.View.{view, views};
ghost use Rattle.cert_grammar.specs.Prelude.{largest, IsNamed, IsSpelt, AreSpelt, ArePlaces, IsName, AreAtMost};

use cert_grammar::is_identifier;
use cops_names::Names;
use term_core::Term;

/// Whether the number is at most the greatest one, as each of 32 bits is.
pub fn is_number(number: u32) -> bool
    ensures { IsTrue result ↔ (number ≤ largest) }
{
    number <= u32::MAX
}

/// Whether all numbers are.
pub fn are_numbers(numbers: &[u32]) -> bool
    ensures { IsTrue result ↔ AreAtMost largest numbers.now }
{
    'numbers: for number in numbers {
        if !is_number(*number) {
            return false;
        }
    }
    true
}

/// Whether the symbol has a name, by which it is found.
pub fn has_name(names: &Names, symbol: u32) -> bool
    ensures { IsTrue result ↔ ((name : List ℕ) × IsName names.now symbol name) }
{
    match names.symbol_name(symbol) {
        Some(name) => is_identifier(name.as_bytes()) && names.symbol_number(name) == Some(symbol),
        None => false,
    }
}

/// The same, with so many arguments.
pub fn has_name_for(names: &Names, symbol: u32, count: usize) -> bool
    ensures { IsTrue result ↔ ((name : List ℕ) × IsNamed names.now symbol name count) }
{
    match names.arity(symbol) {
        Some(arity) => arity as usize == count && has_name(names, symbol),
        None => false,
    }
}

/// Whether the symbols of the term have names. The recursion goes as deep as the term.
#[cycle(is_spelt)]
#[tactic(auto, using(crate::proofs::Spelt::variable_shown, crate::proofs::Spelt::function_shown, crate::proofs::Spelt::arguments_counted))]
pub fn is_spelt(names: &Names, term: &Term) -> bool
    ensures { IsTrue result ↔ IsSpelt names.now (view term.now) }
{
    match term {
        Term::Var(x) => is_number(*x),
        Term::Fun(f, args) => has_name_for(names, *f, args.len()) && are_spelt(names, args),
    }
}

#[cycle(is_spelt)]
fn are_spelt(names: &Names, args: &[Term]) -> bool
    ensures { IsTrue result ↔ AreSpelt names.now (views args.now) }
{
    'arguments: for arg in args {
        if !is_spelt(names, arg) {
            return false;
        }
    }
    true
}

/// Whether the numbers of a position count from 1.
pub fn are_places(pos: &[u32]) -> bool
    ensures { IsTrue result ↔ ArePlaces pos.now }
{
    'places: for place in pos {
        if *place == 0 {
            return false;
        }
    }
    true
}
