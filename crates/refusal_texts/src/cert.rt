//! Refusals of the text of a certificate.
ghost use Rattle.std.specs.Prelude.{◌≡◌, option_map};
ghost use Rattle.refusal_texts.specs.Refusals.{place_and_words};
ghost use Rattle.refusal_texts.specs.Certificates.{cert_refusal_text};

use crate::refusal::{Refusal, refused};
use cert_words::{CertCount, CertError};

fn most_of_count(what: CertCount) -> &'static [u8] {
    match what {
        CertCount::Pairs => b"a certificate has at most 20,000 pairs",
        CertCount::Entries =>
            b"a measure has at most 25,000 lines, and at most 21,000 steps simplify",
        CertCount::Numbers => b"a line of a measure has at most 200 numbers",
        CertCount::Steps => b"a derivation has at most 10,000 steps",
        CertCount::Redexes => b"a peak has at most 20,000 redexes",
        CertCount::States => b"an automaton has at most 1,000 states",
        CertCount::Transitions => b"an automaton has at most 20,000 transitions",
        CertCount::Nodes => b"a term has at most 10,000 names and variables",
        CertCount::Shared => b"a certificate has at most 1,000 automata",
        CertCount::Unfolded =>
            b"the texts of the automata have at most 67,108,864 bytes, counted at each use",
    }
}

/// Where and why a text is that of no certificate; want of memory is no refusal.
pub fn cert_refusal(error: &CertError) -> Option<Refusal>
    ensures { option_map place_and_words result ≡ cert_refusal_text error.now }
{
    let refusal = match error {
        CertError::CertSyntax { at } => refused(
            *at,
            b"syntax",
            b"a certificate begins with the lines concon 2, shared 0 and ortho, quasi or peak, and its last line is end; one space stands between words, a line feed behind each line, and what a number announces follows as often",
        ),
        CertError::UnknownName { at } => refused(
            *at,
            b"unknown name",
            b"here may stand the name of a symbol of the file; a variable is written by its number, as |0",
        ),
        CertError::WrongArity { at } => refused(
            *at,
            b"wrong arity",
            b"the symbol before this place has another number of arguments in the file",
        ),
        CertError::BadNumber { at } => refused(
            *at,
            b"bad number",
            b"here may stand a number up to 4294967295; a state is less than the number of states, of which there is one at least, and the parts of a position are from 1",
        ),
        CertError::BadShare { at } => refused(
            *at,
            b"bad share",
            b"each automaton differs from those before it, and is used; the first uses come in the automata's order",
        ),
        CertError::CertTooDeep { at } => refused(
            *at,
            b"too deep",
            b"a term has depth 400 at most, and derivations stand in derivations 50 deep at most",
        ),
        CertError::TooMany { what, at } => refused(*at, b"too many", most_of_count(*what)),
        CertError::NoMemory => return None,
    };
    Some(refusal)
}
