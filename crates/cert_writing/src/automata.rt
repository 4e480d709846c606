//! The automata that a certificate uses, one for each use, in the order of its text.
ghost use Rattle.std.specs.Prelude.{◌≡◌, ◌++◌, IfOk, OnOk, map};
ghost use Rattle.cert_model.specs.CertificateView.{pair_entry_view, redex_view, simp_view, certificate_view};
ghost use Rattle.cert_grammar.specs.Versions.{used_by_pairs, used_by_redexes, used_by_steps, automata_of};
ghost use Rattle.cert_writing.specs.SharedAutomata.{seen};

use cert_model::{
    Automaton, Certificate, InfEvidence, NonJoin, PairEntry, PairEvidence, Redex, Simp,
};
use std::alloc::Global;
use term_core::NoMemory;

fn add_pairs<'a>(automata: &mut Vec<&'a Automaton>, pairs: &'a [PairEntry]) -> Result<(), NoMemory>
    ensures { OnOk result (seen automata.new.items ≡ seen automata.old.items ++ used_by_pairs (map pair_entry_view pairs.now)) }
{
    'pairs: for pair in pairs {
        if let PairEvidence::Infeasible(InfEvidence::Auto { automaton, .. }) = &pair.evidence {
            automata.push(automaton)?;
        }
    }
    Ok(())
}

fn add_redexes<'a>(automata: &mut Vec<&'a Automaton>, redexes: &'a [Redex]) -> Result<(), NoMemory>
    ensures { OnOk result (seen automata.new.items ≡ seen automata.old.items ++ used_by_redexes (map redex_view redexes.now)) }
{
    'redexes: for redex in redexes {
        if let InfEvidence::Auto { automaton, .. } = &redex.evidence {
            automata.push(automaton)?;
        }
    }
    Ok(())
}

fn add_steps<'a>(automata: &mut Vec<&'a Automaton>, steps: &'a [Simp]) -> Result<(), NoMemory>
    ensures { OnOk result (seen automata.new.items ≡ seen automata.old.items ++ used_by_steps (map simp_view steps.now)) }
{
    'steps: for step in steps {
        if let Simp::Drop {
            evidence: InfEvidence::Auto { automaton, .. },
            ..
        } = step
        {
            automata.push(automaton)?;
        }
    }
    Ok(())
}

#[cycle(add_certificate)]
fn add_certificate<'a>(
    automata: &mut Vec<&'a Automaton>,
    cert: &'a Certificate,
) -> Result<(), NoMemory>
    ensures { OnOk result (seen automata.new.items ≡ seen automata.old.items ++ automata_of (certificate_view cert.now)) }
{
    match cert {
        Certificate::Ortho(pairs) => add_pairs(automata, pairs),
        Certificate::Quasi(_, pairs) => add_pairs(automata, pairs),
        Certificate::Peak(peak) => match &peak.apart {
            NonJoin::Normal(redexes) => add_redexes(automata, redexes),
            NonJoin::Caps => Ok(()),
        },
        Certificate::Simplified { steps, body } => {
            add_steps(automata, steps)?;
            add_certificate(automata, body)
        }
    }
}

/// The automata of all uses in a certificate.
pub fn used_automata<'a>(
    alloc: Global,
    cert: &'a Certificate,
) -> Result<Vec<&'a Automaton>, NoMemory>
    ensures { IfOk result (λ automata. seen automata.items ≡ automata_of (certificate_view cert.now)) }
{
    let mut automata = Vec::new(alloc);
    add_certificate(&mut automata, cert)?;
    Ok(automata)
}
