//! Refusals of the text of a query.
ghost use Rattle.std.specs.Prelude.{◌≡◌, option_map};
ghost use Rattle.refusal_texts.specs.Refusals.{place_and_words};
ghost use Rattle.refusal_texts.specs.Queries.{query_refusal_text, too_many_text};

use crate::refusal::{Refusal, refused};
use cops_read::Count;
use query_terms::QueryError;

fn too_many(what: Count, at: usize) -> Option<Refusal>
    ensures { option_map place_and_words result ≡ too_many_text what at }
{
    match what {
        Count::Conditions => Some(refused(
            at,
            b"too many conditions",
            b"a query has at most 20 conditions",
        )),
        Count::Nodes => Some(refused(
            at,
            b"too many nodes",
            b"a term has at most 2,000 names, its variables among them",
        )),
        Count::Variables => Some(refused(
            at,
            b"too many variables",
            b"a query has at most 100 variables",
        )),
        Count::Rules | Count::Arity | Count::Symbols => None,
    }
}

/// Where and why a text is no query; want of memory is no refusal.
pub fn query_refusal(error: &QueryError) -> Option<Refusal>
    ensures { option_map place_and_words result ≡ query_refusal_text error.now }
{
    let refusal = match error {
        QueryError::JoinSystem { at } => refused(
            *at,
            b"join system",
            b"a system of a file of the type JOIN has no queries, where it has conditions",
        ),
        QueryError::BadByte { at } => refused(
            *at,
            b"bad byte",
            b"here may stand white space, a bracket, a comma, == or a name; names are of the bytes 33 to 126, without \" and \\",
        ),
        QueryError::IdTooLong { at } => refused(
            *at,
            b"identifier too long",
            b"a name has at most 255 bytes",
        ),
        QueryError::CommentNotClosed { at } => refused(
            *at,
            b"comment not closed",
            b"here a closing bracket is missing: a comment ends at the one that matches its first bracket",
        ),
        QueryError::Syntax { at } => refused(
            *at,
            b"syntax",
            b"a query is a block (VAR x y), which may be absent, and a block (CONDITION s == t, s == t); a term is a name, or a name with (s,t) behind it",
        ),
        QueryError::TooMany { what, at, .. } => return too_many(*what, *at),
        QueryError::TooDeep { at } => refused(*at, b"too deep", b"a term has depth 200 at most"),
        QueryError::VariableWithArguments { at } => refused(
            *at,
            b"variable with arguments",
            b"here may stand a symbol of the file, or a variable with no brackets behind it; VAR names this one as a variable",
        ),
        QueryError::UnknownName { at } => refused(
            *at,
            b"unknown name",
            b"here may stand a variable that VAR names, or a symbol of the file's rules",
        ),
        QueryError::ArityDiffers { at } => refused(
            *at,
            b"arity differs",
            b"a symbol has as many arguments as in the file",
        ),
        QueryError::NoMemory => return None,
    };
    Some(refusal)
}
