//! The file text: what bytes mean as tokens, what tokens mean as a syntax tree, and laws over both.
#![tactic(auto)]

ghost use Rattle.file_text.specs.Laws.{OneTokenList, OneBadPlace, BadPlacesAreWithin, NeverBoth, TokensOrRefusal, OneTree, OneSyntaxRefusal, SyntaxRefusalsAreWithin, NeverTreeAndRefusal, TreeOrRefusal};

/// Most bytes of an identifier.
pub const LONGEST: usize = 255;

/// What a token is.
#[derive(Clone, Copy, Debug, PartialEq, Eq)]
pub enum Kind {
    Id,
    LeftParen,
    RightParen,
    Comma,
    Bar,
    Arrow,
    Equal,
}

/// A token, and where it stands in the text: from its first byte to the byte behind its last.
#[derive(Clone, Copy, Debug, PartialEq, Eq)]
pub struct Token {
    pub kind: Kind,
    pub from: usize,
    pub to: usize,
}

/// What the conditions of a file ask of their two sides.
#[derive(Clone, Copy, Debug, PartialEq, Eq)]
pub enum ConditionType {
    /// The left side reaches the right one.
    Oriented,
    /// Both sides have a common reduct.
    Join,
}

/// A text has one list of tokens, or one place that is bad, for one cause; and never both. The place is
/// within the text or at its end.
pub fn one_reading()
    ensures tokens { OneTokenList }
    ensures place { OneBadPlace }
    ensures within { BadPlacesAreWithin }
    ensures either { NeverBoth }
    ensures some { TokensOrRefusal }
{}

/// A text has at most one syntax tree.
pub fn one_tree()
    ensures { OneTree }
{}

/// A text of tokens has a syntax tree or one refusal, and never both. The place of the refusal is within
/// the text or at its end.
pub fn one_refusal()
    ensures refusal { OneSyntaxRefusal }
    ensures within { SyntaxRefusalsAreWithin }
    ensures either { NeverTreeAndRefusal }
    ensures some { TreeOrRefusal }
{}
