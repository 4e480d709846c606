//! Refusals of the text of a system.
ghost use Rattle.std.specs.Prelude.{◌≡◌, option_map};
ghost use Rattle.refusal_texts.specs.Refusals.{place_and_words};
ghost use Rattle.refusal_texts.specs.Files.{file_refusal_text, meaning_words};
ghost use Rattle.cops_read.specs.Counts.{cause_of_count};

use crate::refusal::{Refusal, refused};
use cops_read::{Count, ReadError};

/// That there are too many of what is counted.
pub fn words_of_count(what: Count) -> &'static [u8]
    ensures { result.now ≡ meaning_words (cause_of_count what) }
{
    match what {
        Count::Rules => b"too many rules",
        Count::Conditions => b"too many conditions",
        Count::Arity => b"too many arguments",
        Count::Nodes => b"too many nodes",
        Count::Variables => b"too many variables",
        Count::Symbols => b"too many symbols",
    }
}

/// How many there are at most.
pub fn most_of_count(what: Count) -> &'static [u8] {
    match what {
        Count::Rules => b"a file has at most 1,000 rules",
        Count::Conditions => b"a rule has at most 20 conditions",
        Count::Arity => b"a symbol has at most 20 arguments",
        Count::Nodes => b"a term has at most 2,000 names, its variables among them",
        Count::Variables => b"a rule has at most 100 variables",
        Count::Symbols => b"the rules of a file have at most 1,000 symbols",
    }
}

/// Where and why a text is that of no system; want of memory is no refusal.
pub fn file_refusal(error: &ReadError) -> Option<Refusal>
    ensures { option_map place_and_words result ≡ file_refusal_text error.now }
{
    let refusal = match error {
        ReadError::BadByte { at } => refused(
            *at,
            b"bad byte",
            b"here may stand white space, a bracket, a comma, a bar, an arrow, == or a name; names are of the bytes 33 to 126, without \" and \\",
        ),
        ReadError::IdTooLong { at } => refused(
            *at,
            b"identifier too long",
            b"a name has at most 255 bytes",
        ),
        ReadError::CommentNotClosed { at } => refused(
            *at,
            b"comment not closed",
            b"here a closing bracket is missing: a comment ends at the one that matches its first bracket",
        ),
        ReadError::Syntax { at } => refused(
            *at,
            b"syntax",
            b"a file has blocks (CONDITIONTYPE ORIENTED) or (CONDITIONTYPE JOIN), (VAR x y) and (RULES l -> r  l -> r | s == t, s == t); a term is a name, or a name with (s,t) behind it",
        ),
        ReadError::UnknownBlock { at } => refused(
            *at,
            b"unknown block",
            b"here may stand CONDITIONTYPE, VAR, RULES or COMMENT",
        ),
        ReadError::RepeatedBlock { at } => refused(
            *at,
            b"repeated block",
            b"each block stands once: what this one has may stand in the first of its name",
        ),
        ReadError::ConditionTypeOther { at } => refused(
            *at,
            b"condition type other",
            b"here may stand ORIENTED or JOIN",
        ),
        ReadError::MissingRules { at } => refused(
            *at,
            b"missing rules",
            b"here a block (RULES l -> r) is missing; it may be empty",
        ),
        ReadError::ConditionsWithoutType { at } => refused(
            *at,
            b"conditions without type",
            b"here may stand the next rule or the block's end; rules with conditions need a block (CONDITIONTYPE ORIENTED) or (CONDITIONTYPE JOIN)",
        ),
        ReadError::VariableWithArguments { at } => refused(
            *at,
            b"variable with arguments",
            b"here may stand a symbol, or a variable with no brackets behind it; VAR names this one as a variable",
        ),
        ReadError::ArityDiffers { at } => refused(
            *at,
            b"arity differs",
            b"a symbol has as many arguments everywhere as where it stands first",
        ),
        ReadError::LeftVariable { at } => refused(
            *at,
            b"left side is a variable",
            b"a rule begins with a symbol; VAR names this one as a variable",
        ),
        ReadError::TooDeep { at } => refused(*at, b"too deep", b"a term has depth 200 at most"),
        ReadError::TooMany { what, at, .. } => refused(
            *at,
            words_of_count(*what),
            most_of_count(*what),
        ),
        ReadError::NoMemory => return None,
    };
    Some(refusal)
}
