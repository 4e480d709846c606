//! What the text of a file spells, while its identifiers are neither variables nor symbols yet; terms are flat lists of them.
ghost use Rattle.std.specs.Prelude.{◌≡◌};
ghost use Rattle.std.specs.Str.{bytes_eq};

use file_text::ConditionType;

/// An identifier, and the place of its first byte.
#[derive(Clone, Copy, Debug)]
pub struct Name<'a> {
    pub at: usize,
    pub text: &'a str,
}

impl Name<'_> {
    // Whether the identifier has this text.
    pub(crate) fn is(&self, text: &[u8]) -> bool
        ensures { result ≡ bytes_eq self.now.text.now text.now }
    {
        self.text.as_bytes() == text
    }
}

/// An identifier of a term: whether brackets stand behind it, and how many arguments are in them.
#[derive(Clone, Copy, Debug)]
pub struct Node<'a> {
    pub name: Name<'a>,
    pub brackets: bool,
    pub arguments: usize,
}

/// A condition of a rule: `left == right`. A term is the list of its identifiers in the order of
/// the text, so that it may be as deep as the text makes it.
#[derive(Debug, Drop)]
pub struct CondText<'a> {
    pub left: Vec<Node<'a>>,
    pub right: Vec<Node<'a>>,
}

/// A rule: `left -> right | conditions`, and the place of the bar where there is one.
#[derive(Debug, Drop)]
pub struct RuleText<'a> {
    pub left: Vec<Node<'a>>,
    pub right: Vec<Node<'a>>,
    pub bar: Option<usize>,
    pub conditions: Vec<CondText<'a>>,
}

/// A file: its condition type if it has one, the identifiers of its variables' block, and its rules.
#[derive(Debug, Drop)]
pub struct FileText<'a> {
    pub condition_type: Option<ConditionType>,
    pub variables: Vec<Name<'a>>,
    pub rules: Vec<RuleText<'a>>,
}
