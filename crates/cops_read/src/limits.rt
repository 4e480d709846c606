//! How many parts a file may have, and how deep its terms may be.

/// Most rules of a file.
pub const MOST_RULES: u32 = 1_000;

/// Most symbols of a file.
pub const MOST_SYMBOLS: u32 = 1_000;

/// Most conditions of a rule.
pub const MOST_CONDITIONS: u32 = 20;

/// Most variables of a rule.
pub const MOST_VARIABLES: u32 = 100;

/// Most arguments of a symbol.
pub const MOST_ARGUMENTS: u32 = 20;

/// Most identifiers of a term.
pub const MOST_NODES: u32 = 2_000;

/// Greatest depth of a term.
pub const MOST_DEPTH: usize = 200;
