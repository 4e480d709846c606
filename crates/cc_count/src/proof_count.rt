//! A count that proofs alone read. It takes no memory, nothing is done for it at run time, and it has no greatest number.
ghost use Rattle.std.specs.Prelude.{◌≡◌, ℕ, ◌+◌};
ghost use Rattle.std.specs.Borrow.{ftrue};

use std::marker::Model;

/// How often a call was made, or how many things stand before one. Nothing in memory stands for it, so it binds the code that
/// cannot change it otherwise: code that reaches a device through its trait alone, where nothing but the counted call does.
#[derive(Drop)]
pub struct ProofCount {
    pub ghost number: { ℕ },
}

impl Model for ProofCount {
    ghost also_owns = { λ _. ftrue };
}

impl ProofCount {
    /// The count of none.
    pub fn new() -> ProofCount
        ensures { result.number ≡ 0 }
    {
        ProofCount {}
    }

    /// The count after one more.
    pub fn next(&self) -> ProofCount
        ensures { result.number ≡ self.now.number + 1 }
    {
        ProofCount {}
    }
}
