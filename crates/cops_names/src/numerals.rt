//! Names that end in a number.
ghost use Rattle.std.specs.Prelude.{◌≡◌, ◌++◌, IfOk, decimal, string_bytes};

use itoa::Buffer;
use std::alloc::Global;
use term_core::NoMemory;

/// A word with a number behind it, in decimal digits.
pub fn numbered(alloc: Global, word: &str, n: u32) -> Result<String, NoMemory>
    ensures { IfOk result (λ name. string_bytes name ≡ word.now ++ decimal n) }
{
    let mut name = String::from_str(alloc, word)?;
    let mut buffer = Buffer::new();
    name.push_str(buffer.format(n))?;
    Ok(name)
}
