//! Bytes of a file to a syntax tree, token by token, before names have a meaning.
#![tactic(auto)]

mod blocks;
mod files;
mod reader;
mod rules;
mod tree;
mod word;

pub use blocks::SyntaxRefusal;
pub use file_text::ConditionType;
pub use files::{SyntaxError, parse};
pub use reader::{TextError, WordReader, read_words};
pub use rules::Reading;
pub use tree::{CondText, FileText, Name, Node, RuleText};
pub use word::{Word, word_at};
