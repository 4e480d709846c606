//! Why a text is no certificate, and at which byte.
ghost use Rattle.std.specs.Prelude.{◌≡◌};
ghost use Rattle.cert_words.specs.declared.error.CertError.TheVariants as refused;

use std::alloc::{AllocError, AllocFailed};
use thiserror::Error;

/// What is counted in a certificate, and has a limit.
#[derive(Clone, Copy, Debug, Drop, PartialEq, Eq)]
pub enum CertCount {
    Pairs,
    Entries,
    Numbers,
    Steps,
    Redexes,
    States,
    Transitions,
    Nodes,
    /// The automata before the body.
    Shared,
    /// The bytes of the automata that are used, at each use.
    Unfolded,
}

/// Why a text is no certificate. A place is a byte number from 0.
#[derive(Debug, Drop, Error)]
pub enum CertError {
    /// The first byte, or the length, that continues no text of the grammar.
    #[error("syntax at {at}")]
    CertSyntax { at: usize },
    /// A name that no symbol has.
    #[error("unknown name at {at}")]
    UnknownName { at: usize },
    /// The byte behind a term, or a transition's head, whose symbol has another arity.
    #[error("wrong arity at {at}")]
    WrongArity { at: usize },
    /// A number that is too great, no state of the automaton, or no part of a position.
    #[error("bad number at {at}")]
    BadNumber { at: usize },
    /// An automaton that equals an earlier one, is used out of turn or is not there, or is never used.
    #[error("bad share at {at}")]
    BadShare { at: usize },
    /// A node of a term, or derivations, at too great a depth.
    #[error("too deep at {at}")]
    CertTooDeep { at: usize },
    /// The word that passes a limit.
    #[error("too many at {at}")]
    TooMany { what: CertCount, at: usize },
    /// Memory was refused.
    #[error("no memory")]
    NoMemory,
}

impl From<AllocError> for CertError {
    ghost from_gives = { λ _ e. e ≡ refused.NoMemory };

    fn from(_: AllocError) -> Self {
        CertError::NoMemory
    }
}

impl<T: Drop> From<AllocFailed<T>> for CertError {
    ghost from_gives = { λ _ e. e ≡ refused.NoMemory };

    fn from(_: AllocFailed<T>) -> Self {
        CertError::NoMemory
    }
}
