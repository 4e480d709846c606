//! What can stand first of a part, and how far the longest front goes that begins so.

ghost use Rattle.std.specs.Prelude.{◌≡◌, ◌≤◌, ◌+◌, ◌-◌, MatchOption, ℕ, Some, length, map, true, false};
ghost use Rattle.cert_grammar.specs.Marks.{syntax};
ghost use Rattle.cert_grammar.specs.FirstRefusal as spec;
ghost use Rattle.cert_words.specs.Words.{mode_view, bare, told, IsReached, IsLeadRead, IsScanned};

use crate::error::CertError;
use crate::scans::{Mode, is_word, scan};
use cert_grammar::behind;
use cops_lex::is_id;

/// What can stand first of a part.
#[derive(Clone, Copy, Drop)]
pub enum Lead {
    /// These bytes.
    Text(&'static [u8]),
    /// No bytes, where this byte comes next.
    Check(u8),
    /// This word, whole.
    Keyword(&'static [u8]),
    Number,
    Position,
    /// A bar and a number.
    Variable,
    Name,
}

fn mode_of(lead: Lead) -> Mode
    ensures { mode_view result ≡ spec.mode_of (bare lead) }
{
    match lead {
        Lead::Text(word) | Lead::Keyword(word) => Mode::Spelling(word),
        Lead::Check(b) => Mode::Byte(b),
        Lead::Number => Mode::NumberBegins,
        Lead::Position => Mode::PlaceBegins,
        Lead::Variable => Mode::BarBegins,
        Lead::Name => Mode::NameBegins,
    }
}

// words end where no byte of an identifier follows
fn ends_here(rest: &[u8]) -> bool
    ensures { result ≡ spec.ends_here rest.now }
{
    match rest {
        [] => true,
        [b, ..] => !is_id(*b),
    }
}

/// How many bytes are read with the lead, where all of it is there.
pub(crate) fn reach(lead: &Lead, left: &[u8]) -> Option<usize>
    ensures { MatchOption result (spec.is_there (bare lead.now) left.now ≡ false) (λ size. IsReached (bare lead.now) left.now size) }
{
    match *lead {
        Lead::Text(word) => match behind(left, word) {
            Some(_) => Some(word.len()),
            None => None,
        },
        Lead::Keyword(word) => match behind(left, word) {
            Some(rest) if ends_here(rest) => Some(word.len()),
            _ => None,
        },
        Lead::Check(b) => match left {
            [a, ..] if *a == b => Some(0),
            _ => None,
        },
        Lead::Number | Lead::Position | Lead::Variable | Lead::Name => whole(lead, left),
    }
}

// the same of a word that is found byte by byte
fn whole(lead: &Lead, left: &[u8]) -> Option<usize>
    requires { IsScanned (bare lead.now) }
    ensures { MatchOption result (spec.is_there (bare lead.now) left.now ≡ false) (λ size. IsReached (bare lead.now) left.now size) }
{
    let (size, mode) = scan(mode_of(*lead), left);
    let (_, rest) = left.split_at(size);
    if !is_word(mode) || !ends_here(rest) {
        return None;
    }
    Some(size)
}

/// The bytes that are read with the lead, and what is behind them, where all of the lead is there.
pub fn front(lead: Lead, left: &[u8]) -> Option<(&[u8], &[u8])>
    ensures { MatchOption result (spec.is_there (bare lead) left.now ≡ false) (λ x. IsLeadRead (bare lead) left.now x.0.now x.1.now) }
{
    let size = reach(&lead, left)?;
    Some(left.split_at(size))
}

/// The longest front with which one of the leads can begin.
pub fn longest(leads: &[Lead], left: &[u8]) -> usize
    ensures longest { result ≡ spec.longest (map bare leads.now) left.now }
    ensures within { result ≤ length left.now }
{
    let mut most = 0;
    'leads: for lead in leads {
        let (size, _) = scan(mode_of(*lead), left);
        most = most.max(size);
    }
    most
}

/// The place of the first byte that goes on with none of the leads.
pub fn stuck(leads: &[Lead], left: &[u8], end: usize) -> CertError
    ensures { told result ≡ Some (syntax, (end - length left.now) + spec.longest (map bare leads.now) left.now) }
{
    CertError::CertSyntax {
        at: end.saturating_sub(left.len()) + longest(leads, left),
    }
}
