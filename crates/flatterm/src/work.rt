//! How many splices were made.
ghost use Rattle.std.specs.Prelude.{◌≡◌, ℕ, ◌+◌, ◌-◌, ◌^◌, min};

use std::marker::Model;

/// How many splices were made, up to the greatest u64, at which it stays. There is no copy of it: so what is told of one value
/// is told of all splices that were given it.
#[derive(Drop)]
pub struct Work {
    splices: u64,
}

impl Model for Work {
    ghost Value = { ℕ };

    ghost view = { λ w. w.splices };
}

impl Work {
    /// No splice yet.
    pub fn new() -> Work
        ensures { result ≡ 0 }
    {
        Work { splices: 0 }
    }

    /// The number of splices.
    pub fn splices(&self) -> u64
        ensures { result ≡ self.now }
    {
        self.splices
    }

    // One more.
    pub(crate) fn raise(&mut self)
        ensures { self.new ≡ min (self.old + 1) (2 ^ 64 - 1) }
    {
        self.splices = self.splices.saturating_add(1);
    }
}
