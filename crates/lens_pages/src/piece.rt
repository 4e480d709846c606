//! What stands in a line.
use term_core::{Cond, Head, Rule, Term};

/// What variables are called.
#[derive(Clone, Copy)]
pub enum Naming {
    /// By numbers, as in certificates.
    Numbered,
    /// By the names in the rule with this number.
    OfRule(u32),
    /// In an overlap: those of the inner rule by their names with a prime, those of the outer one by their names.
    OfOverlap { inner: u32, outer: u32 },
}

/// A piece of a line.
#[derive(Clone, Copy)]
pub enum Piece<'a> {
    Words(&'a str),
    Number(usize),
    /// A number with the first words behind it if it is one, and else with the others.
    Count(usize, &'a str, &'a str),
    /// A position as certificates have it: the root is `e`, the numbers of others stand with dots between them.
    Position(&'a [u32]),
    /// `at the root`, or `at position` with its numbers.
    At(&'a [u32]),
    Variable(Naming, u32),
    /// A symbol of an unraveled system.
    Head(Head),
    /// The same as a measure of a certificate begins its line.
    MeasureHead(Head),
    Term(Naming, &'a Term),
    Cond(Naming, &'a Cond),
    Rule(Naming, &'a Rule),
}
