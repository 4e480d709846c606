//! Lines of overlaps and of redexes.

ghost use Rattle.std.specs.Prelude.{[]};
ghost use Rattle.cert_reading.specs.Prelude.{NameTable, Reads};
ghost use Rattle.cert_reading.specs.Lines.{line_items, line_marks};

use cert_words::{BOUND, Reading, number, position, text};
use std::alloc::Global;

/// Two numbers and the position between them, from the line's word on up to its evidence.
pub(crate) fn between_numbers(alloc: Global, end: usize, at: &mut Reading) -> (u32, Vec<u32>, u32)
    ensures { (names : NameTable) → Reads names end line_items (λ u. line_marks result.0 result.1.items result.2) [] at.old at.new }
{
    text(end, at, b" ");
    let first = number(end, at, 0, BOUND);
    text(end, at, b" ");
    let pos = position(alloc, end, at);
    text(end, at, b" ");
    let second = number(end, at, 0, BOUND);
    text(end, at, b" ");
    (first, pos, second)
}
