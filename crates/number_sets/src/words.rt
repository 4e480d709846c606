//! Sets of numbers, as bit vectors.
ghost use Rattle.std.specs.Prelude.{◌≤◌, vec_len};

/// A set of numbers, as the bits of words: it takes an eighth of a byte for each number up to its largest.
#[derive(Debug, Drop)]
pub struct NumberSet {
    pub(crate) words: Vec<u64>,
    // 2^32 numbers have 2^26 words.
    ghost few: { vec_len words ≤ 67108864 },
}
