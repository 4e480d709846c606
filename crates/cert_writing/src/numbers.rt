//! The numbers of shared automata: by their texts, each once, in the order of first uses.
ghost use Rattle.std.specs.Prelude.{◌≡◌, IfOk, length, min};
ghost use Rattle.cert_model.specs.EvidenceView.{automaton_view};
ghost use Rattle.cert_model.specs.CertificateView.{certificate_view};
ghost use Rattle.cert_grammar.specs.Prelude.{automaton_text, place_among, texts_of, shared_by, unfolded_length, automata_of};
ghost use Rattle.cert_writing.specs.SharedAutomata.{joined};
ghost use Rattle.cert_writing.specs.Written.{greatest};

use crate::appended::append;
use crate::automata::used_automata;
use crate::output::Output;
use crate::parts::count;
use cert_model::{Automaton, Certificate};
use cops_names::Names;
use indexmap::IndexSet;
use std::alloc::Global;
use std::marker::Model;
use term_core::NoMemory;

/// The texts of shared automata, which are numbered from 1.
#[derive(Drop)]
pub struct AutomatonTexts {
    alloc: Global,
    texts: IndexSet<Vec<u8>>,
}

impl Model for AutomatonTexts {
    ghost use Rattle.std.specs.Prelude.{List, ℕ};

    ghost Value = { List (List ℕ) };

    ghost use Rattle.cert_writing.specs.SharedAutomata.{texts_view};

    ghost view = { texts_view };
}

// The text of one automaton.
fn text_of(alloc: Global, names: &Names, automaton: &Automaton) -> Result<Vec<u8>, NoMemory>
    ensures { IfOk result (λ text. text.items ≡ automaton_text names.now (automaton_view automaton.now)) }
{
    let mut text = Vec::new(alloc);
    append(alloc, names, automaton, &mut text)?;
    Ok(text)
}

impl AutomatonTexts {
    /// The texts of the automata of a certificate.
    pub fn of(alloc: Global, names: &Names, cert: &Certificate) -> Result<AutomatonTexts, NoMemory>
        ensures { IfOk result (λ texts. texts ≡ texts_of names.now (shared_by names.now (certificate_view cert.now))) }
    {
        let automata = used_automata(alloc, cert)?;
        let mut texts = IndexSet::new(alloc);
        'automata: for automaton in &automata {
            let text = text_of(alloc, names, automaton)?;
            texts.insert_full(text)?;
        }
        Ok(AutomatonTexts { alloc, texts })
    }

    /// How many there are.
    pub fn len(&self) -> usize
        ensures { result ≡ length self.now }
    {
        self.texts.len()
    }

    /// The number of an automaton by its text; where that is not there, the number behind the last.
    pub fn number(&self, names: &Names, automaton: &Automaton) -> Result<usize, NoMemory>
        ensures { IfOk result (λ n. n ≡ place_among (automaton_text names.now (automaton_view automaton.now)) self.now) }
    {
        let text = text_of(self.alloc, names, automaton)?;
        let count = self.texts.len();
        match self.texts.get_index_of(text.as_slice()) {
            Some(place) => Ok(place + 1),
            None => Ok(count + 1),
        }
    }
}

/// The number of bytes of the automata of a certificate, each counted at each use, or the greatest number where there are more.
pub fn unfolded_len(alloc: Global, names: &Names, cert: &Certificate) -> Result<u64, NoMemory>
    ensures { IfOk result (λ n. n ≡ min (unfolded_length names.now (automata_of (certificate_view cert.now))) greatest) }
{
    count(names, &used_automata(alloc, cert)?)
}

/// Puts the texts one after the other.
pub fn put_texts<O: Output>(to: &mut O, texts: &AutomatonTexts)
    ensures { O.took to.old (joined texts.now) to.new }
{
    'texts: for text in texts.texts.as_slice() {
        to.put(text);
    }
}
