//! The entries of a certificate, read one after the other.

ghost use Rattle.std.specs.Prelude.{◌≡◌, ◌++◌, ℕ, List, [], ◌∷◌, IfOk, IfErr, IfSome, IfNone};
ghost use Rattle.certificates.specs.Certificates as math;
ghost use Rattle.cert_model.specs.CertificateView.{pair_entry_view};
ghost use Rattle.cert_openings.specs.Openings.{Opening, IsRead};
ghost use Rattle.cert_words.specs.CertRefusals.{IsRefusedAs};
ghost use Rattle.cert_reading.specs.Uses.{version_by, automata_by};
ghost use Rattle.cert_text.specs.Reading.{HasRead, IsAll, ReadsOn, IsAtEnd, HasTextOf, GivesNone, GivesSome, StaysWithout};
ghost use Rattle.cert_text.specs.ReadingView.{place_of, version_with, shared_in, IsUpTo};

use cert_model::{Automaton, PairEntry};
use cert_reading::{Uses, next_pair};
use cert_words::{CertError, Reading};
use cops_names::Names;
use std::alloc::Global;
use std::marker::Model;

/// The rest of a certificate's text, read entry by entry. In contracts: the names, the bytes, and the place up to
/// which they are read.
#[derive(Drop)]
pub struct Pairs<'a> {
    names: &'a Names,
    bytes: &'a [u8],
    // What is left; nothing of it is refused yet.
    at: Reading<'a>,
    count: u32,
    // None in the first version, which has none.
    automata: Option<Vec<Automaton>>,
}

impl<'a> Model for Pairs<'a> {
    ghost use Rattle.cert_text.specs.Reading.{Reading};

    ghost Value = { Reading };

    ghost use Rattle.cert_text.specs.ReadingView.{reading_view, IsHeld};

    ghost view = { reading_view };

    ghost invariant = { IsHeld };
}

// How uses are written.
pub(crate) fn uses_of(automata: &Option<Vec<Automaton>>) -> Uses<'_>
    ensures version { version_by result ≡ version_with automata.now }
    ensures automata { automata_by result ≡ shared_in automata.now }
{
    match automata {
        Some(automata) => Uses::ByNumber(automata),
        None => Uses::InFull,
    }
}

impl<'a> Pairs<'a> {
    // The entries behind an opening.
    pub(crate) fn behind(
        names: &'a Names,
        bytes: &'a [u8],
        automata: Option<Vec<Automaton>>,
        at: Reading<'a>,
    ) -> Pairs<'a>
        requires { IsUpTo (version_with automata) (shared_in automata) names.now bytes.now at.left.now 0 at.shares }
        ensures { result ≡ record { names = names.now; bytes = bytes.now; place = place_of bytes.now at.entry.left.now } }
    {
        Pairs {
            names,
            bytes,
            at: Reading {
                left: at.left,
                refused: None,
                shares: at.shares,
            },
            count: 0,
            automata,
        }
    }

    /// The next entry; none at the last line, where the text ends; else the refusal of the text, the same at each later call.
    ///
    /// Where memory is refused nothing has been read.
    pub fn next(&mut self, alloc: Global) -> Result<Option<PairEntry>, CertError>
        ensures entry { IfOk result (λ found. IfSome found (λ e. ReadsOn self.old (pair_entry_view e) self.new)) }
        ensures none { IfOk result (λ found. IfNone found (IsAtEnd self.old)) }
        ensures none_exactly { (o : Opening) (es : List math.PairEntry) → HasRead self.old o es → IsAll self.old o es → GivesNone result }
        ensures ready { (o : Opening) (es : List math.PairEntry) (e : math.PairEntry) (place : ℕ) → HasRead self.old o es → IsRead self.old.names self.old.bytes o (es ++ e ∷ []) place → GivesSome result }
        ensures refused { IfErr result (λ e. IsRefusedAs self.old.names self.old.bytes e) }
        ensures stays { StaysWithout self.old self.new result }
        ensures text { HasTextOf self.old self.new }
    {
        let end = self.bytes.len();
        let left = self.at.left;
        let known = self.at.shares.so_far();
        let uses = uses_of(&self.automata);
        let number = self.count as usize + 1;
        let found = next_pair(alloc, self.names, uses, end, &mut self.at, number);
        if let Some(refused) = self.at.refused.take() {
            self.at.left = left;
            self.at.shares.go_back(known);
            return Err(refused);
        }
        match found {
            Some(entry) => {
                self.count += 1;
                Ok(Some(entry))
            }
            None => {
                let more = self.at.left.len();
                self.at.left = left;
                self.at.shares.go_back(known);
                if more == 0 {
                    return Ok(None);
                }
                Err(CertError::CertSyntax {
                    at: end.saturating_sub(more),
                })
            }
        }
    }
}
