//! The parts of a text: words, numbers, one part before another, and lists of parts.
ghost use Rattle.std.specs.Prelude.{◌≡◌, List, ℕ, ◌++◌, length, min, decimal, IfOk};
ghost use Rattle.cops_names.specs.NameTable.{NameTable};
ghost use Rattle.cert_grammar.specs.Versions as versions;
ghost use Rattle.cert_writing.specs.Written.{each, greatest};
ghost use Rattle.cert_writing.specs.WrittenUses.{uses_view};

use crate::output::{Counter, Output};
use crate::written_evidence::Uses;
use cops_names::Names;
use itoa::Buffer;
use term_core::NoMemory;

/// A part of the text of a certificate.
pub trait Part {
    /// Its text, with the names of symbols, and as automata are written where they are used.
    ghost text: { NameTable → versions.Uses → Self → List ℕ };

    /// Puts the text.
    fn put<O: Output>(&self, to: &mut O, names: &Names, uses: &Uses<'_>)
        ensures { O.took to.old (text names.now (uses_view names.now uses.now) self.now) to.new };
}

/// A text stands for itself.
impl Part for &str {
    ghost text = { λ names uses s. s.now };

    fn put<O: Output>(&self, to: &mut O, _names: &Names, _uses: &Uses<'_>) {
        to.put(self.as_bytes());
    }
}

/// A number in decimal.
impl Part for usize {
    ghost text = { λ names uses n. decimal n };

    fn put<O: Output>(&self, to: &mut O, _names: &Names, _uses: &Uses<'_>) {
        let mut buffer = Buffer::new();
        to.put(buffer.format(*self).as_bytes());
    }
}

impl Part for u32 {
    ghost text = { λ names uses n. decimal n };

    fn put<O: Output>(&self, to: &mut O, names: &Names, uses: &Uses<'_>) {
        (*self as usize).put(to, names, uses);
    }
}

impl<T: Part> Part for &T {
    ghost text = { λ names uses part. T.text names uses part.now };

    fn put<O: Output>(&self, to: &mut O, names: &Names, uses: &Uses<'_>) {
        Part::put(*self, to, names, uses);
    }
}

/// One part before another.
impl<A: Part, B: Part> Part for (A, B) {
    ghost text = { λ names uses parts. A.text names uses parts.0 ++ B.text names uses parts.1 };

    fn put<O: Output>(&self, to: &mut O, names: &Names, uses: &Uses<'_>) {
        self.0.put(to, names, uses);
        self.1.put(to, names, uses);
    }
}

/// All parts of a list.
impl<T: Part> Part for Vec<T> {
    ghost text = { λ names uses parts. each (T.text names uses) parts.items };

    fn put<O: Output>(&self, to: &mut O, names: &Names, uses: &Uses<'_>) {
        'parts: for part in self {
            part.put(to, names, uses);
        }
    }
}

/// The number of bytes of a part's text, or the greatest number where there are more.
pub fn count<P: Part>(names: &Names, part: &P) -> Result<u64, NoMemory>
    ensures { IfOk result (λ n. n ≡ min (length (P.text names.now versions.in_full part.now)) greatest) }
{
    let mut counter = Counter {
        count: 0,
        refused: false,
    };
    part.put(&mut counter, names, &Uses::InFull);
    if counter.refused {
        return Err(NoMemory);
    }
    Ok(counter.count)
}
