//! What the words of the command line ask for.
ghost use Rattle.std.specs.Prelude.{IfSome, IfNone};
ghost use Rattle.run_parts.specs.Words.{texts};
ghost use Rattle.concon_run.specs.Commands.{command_view, IsCommand, IsNoCommand};

use crate::check::{Check, check_of};
use crate::prove::{Prove, prove_of};
use crate::queries::{Question, question_of};
use crate::selftest::selftest_of;

/// What is to be done.
#[derive(Clone, Copy)]
pub enum Asked<'a> {
    Check(Check<'a>),
    Prove(Prove<'a>),
    /// The test with this number.
    Selftest { n: u32 },
    Query(Question<'a>),
}

/// The command that the words are.
pub fn asked_of<'a>(words: &[&'a str]) -> Option<Asked<'a>>
    ensures found { IfSome result (λ asked. IsCommand (texts words.now) (command_view asked)) }
    ensures none { IfNone result (IsNoCommand (texts words.now)) }
{
    if let Some(check) = check_of(words) {
        return Some(Asked::Check(check));
    }
    if let Some(prove) = prove_of(words) {
        return Some(Asked::Prove(prove));
    }
    if let Some(n) = selftest_of(words) {
        return Some(Asked::Selftest { n });
    }
    let question = question_of(words)?;
    Some(Asked::Query(question))
}
