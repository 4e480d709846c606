//! The text of evidence: of automata, of what shows that conditions are never met, and of the entries for overlaps.
ghost use Rattle.cert_model.specs.EvidenceView.{transition_view, automaton_view, inf_evidence_view, pair_evidence_view};
ghost use Rattle.cert_model.specs.CertificateView.{pair_entry_view};
ghost use Rattle.cert_grammar.specs.EvidenceText.{states_text, automaton_text, infeasibility_text, evidence_text};
ghost use Rattle.cert_writing.specs.WrittenUses.{transition_text, pair_text};

use crate::numbers::AutomatonTexts;
use crate::output::Output;
use crate::parts::Part;
use crate::written_terms::{Behind, Name, Position};
use cert_model::{Automaton, InfEvidence, PairEntry, PairEvidence, Transition};
use cops_names::Names;

/// How a use of an automaton is written.
#[derive(Drop)]
pub enum Uses<'a> {
    /// With all of it.
    InFull,
    /// By its number among these texts.
    ByNumber(&'a AutomatonTexts),
}

// Nothing, or states in brackets.
#[derive(Drop)]
struct States<'a>(&'a Vec<u32>);

impl Part for States<'_> {
    ghost text = { λ names uses s. states_text s.0.now.items };

    fn put<O: Output>(&self, to: &mut O, names: &Names, uses: &Uses<'_>) {
        if let [first, rest @ ..] = self.0.as_slice() {
            parts!("(", first, Behind(b',', rest), ")").put(to, names, uses);
        }
    }
}

/// A symbol with the states of its arguments, or a bar for variables, and the state that they lead to.
impl Part for Transition {
    ghost text = { λ names uses t. transition_text names (transition_view t) };

    fn put<O: Output>(&self, to: &mut O, names: &Names, uses: &Uses<'_>) {
        let target = parts!(" ", self.target, "\n");
        match self.symbol {
            Some(f) => ((Name(f), States(&self.args)), target).put(to, names, uses),
            None => ("|", target).put(to, names, uses),
        }
    }
}

impl Part for Automaton {
    ghost text = { λ names uses a. automaton_text names (automaton_view a) };

    fn put<O: Output>(&self, to: &mut O, names: &Names, uses: &Uses<'_>) {
        let transitions = parts!(
            "\ntransitions ",
            self.transitions.len(),
            "\n",
            &self.transitions
        );
        let accepting = Behind(b' ', &self.accepting);
        put!(to, names, uses; "states ", self.states, "\naccepting", accepting, transitions);
    }
}

/// Evidence that conditions are never met.
impl Part for InfEvidence {
    ghost text = { λ names uses e. infeasibility_text names uses (inf_evidence_view e) };

    fn put<O: Output>(&self, to: &mut O, names: &Names, uses: &Uses<'_>) {
        match self {
            InfEvidence::Tcap => to.put(b"tcap\n"),
            InfEvidence::Auto { cond, automaton } => match uses {
                Uses::InFull => { put!(to, names, uses; "auto ", cond, "\n", automaton) }
                Uses::ByNumber(texts) => match texts.number(names, automaton) {
                    Ok(number) => { put!(to, names, uses; "auto ", cond, " ", number, "\n") }
                    Err(_) => to.refuse(),
                },
            },
        }
    }
}

impl Part for PairEvidence {
    ghost text = { λ names uses e. evidence_text names uses (pair_evidence_view e) };

    fn put<O: Output>(&self, to: &mut O, names: &Names, uses: &Uses<'_>) {
        match self {
            PairEvidence::Trivial => to.put(b"trivial\n"),
            PairEvidence::Infeasible(evidence) => evidence.put(to, names, uses),
            PairEvidence::Conflict { inner, outer } => {
                put!(to, names, uses; "conflict ", inner, " ", outer, "\n")
            }
            PairEvidence::Join { left, right } => { put!(to, names, uses; "join\n", left, right) }
            PairEvidence::Unfeasible {
                cond,
                first,
                second,
            } => { put!(to, names, uses; "unfeasible ", cond, "\n", first, second) }
        }
    }
}

/// An overlap with its evidence.
impl Part for PairEntry {
    ghost text = { λ names uses p. pair_text names uses (pair_entry_view p) };

    fn put<O: Output>(&self, to: &mut O, names: &Names, uses: &Uses<'_>) {
        put!(to, names, uses; "pair ", self.inner, " ", Position(&self.pos), " ", self.outer, " ", &self.evidence);
    }
}
