//! The shared automata of a text, as they are read: which texts stand there already, how far their uses have come, and what they unfold to.
ghost use Rattle.std.specs.Prelude.{◌≡◌, IfOk, OnOk, OnErr, length, take};
ghost use Rattle.cert_grammar.specs.Prelude.{nothing_shared, holds, automaton_ends, all_used};
ghost use Rattle.cert_shares.specs.SharesView.{with_begun, behind_end, IsJudged};

use cert_grammar::MOST_UNFOLDED;
use indexmap::IndexSet;
use std::alloc::Global;
use std::marker::Model;
use term_core::NoMemory;

/// What the use of a shared automaton is answered.
#[derive(Debug, Drop)]
pub enum Share {
    /// It is there, and all before it are used.
    Good,
    /// It is not.
    Bad,
    /// With its bytes the bytes of all uses are too many.
    Heavy,
}

/// How many texts there are, and how far uses have come.
#[derive(Clone, Copy, Debug, Drop)]
pub struct SoFar {
    /// How many texts.
    pub texts: usize,
    /// The greatest number of a use.
    pub used: usize,
    /// The bytes of all uses.
    pub unfolds_to: usize,
}

/// The texts of the automata that are read, the greatest number of a use, and the bytes of all uses.
#[derive(Drop)]
pub struct Shares<'a> {
    texts: IndexSet<&'a [u8]>,
    used: usize,
    unfolded: usize,
}

impl<'a> Model for Shares<'a> {
    ghost use Rattle.cert_grammar.specs.Sharing.{Shared};

    ghost Value = { Shared };

    ghost use Rattle.cert_shares.specs.SharesView.{shares_view};

    ghost view = { shares_view };
}

impl<'a> Shares<'a> {
    /// No automaton.
    pub fn new(alloc: Global) -> Shares<'a>
        ensures { result ≡ nothing_shared }
    {
        Shares {
            texts: IndexSet::new(alloc),
            used: 0,
            unfolded: 0,
        }
    }

    /// An automaton with this text ends: whether it differs from those before.
    pub fn end(&mut self, text: &'a [u8]) -> Result<bool, NoMemory>
        ensures good { IfOk result (λ good. good ≡ holds (with_begun text.now self.old) automaton_ends) }
        ensures new { OnOk result (self.new ≡ behind_end text.now self.old) }
        ensures unchanged { OnErr result (self.new ≡ self.old) }
    {
        let (_, added) = self.texts.insert_full(text)?;
        Ok(added)
    }

    /// An automaton is used.
    pub fn take(&mut self, number: u32) -> Share
        ensures { IsJudged self.old number result self.new }
    {
        if number == 0 || number as usize - 1 > self.used {
            return Share::Bad;
        }
        match self.texts.as_slice().get(number as usize - 1) {
            None => Share::Bad,
            Some(text) => {
                let sum = self.unfolded.saturating_add(text.len());
                if sum > MOST_UNFOLDED as usize {
                    return Share::Heavy;
                }
                self.unfolded = sum;
                self.used = self.used.max(number as usize);
                Share::Good
            }
        }
    }

    /// Whether each automaton is used.
    pub fn all_used(&self) -> bool
        ensures { result ≡ holds self.now all_used }
    {
        self.used == self.texts.len()
    }

    /// What `go_back` goes back to.
    pub fn so_far(&self) -> SoFar
        ensures { result ≡ record { texts = length self.now.texts; used = self.now.used; unfolds_to = self.now.unfolds_to } }
    {
        SoFar {
            texts: self.texts.len(),
            used: self.used,
            unfolds_to: self.unfolded,
        }
    }

    /// Lets go of later texts, and of all that was used since.
    pub fn go_back(&mut self, then: SoFar)
        ensures { self.new ≡ record { texts = take then.texts self.old.texts; begun = self.old.begun; used = then.used; unfolds_to = then.unfolds_to } }
    {
        self.texts.truncate(then.texts);
        self.used = then.used;
        self.unfolded = then.unfolds_to;
    }
}
