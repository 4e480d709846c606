//! A refusal with its texts.
ghost use Rattle.std.specs.Prelude.{◌≡◌};

/// The byte at which a text is refused, by its number from 0, why, and a sentence of what may stand there.
#[derive(Clone, Copy)]
pub struct Refusal {
    pub at: usize,
    pub why: &'static [u8],
    pub may_stand: &'static [u8],
}

/// A refusal at a byte.
pub fn refused(at: usize, why: &'static [u8], may_stand: &'static [u8]) -> Refusal
    ensures at { result.at ≡ at }
    ensures why { result.why.now ≡ why.now }
{
    Refusal { at, why, may_stand }
}
