//! Reads the text of a certificate up to its entries.

ghost use Rattle.std.specs.Prelude.{ℕ, List, [], ◌∷◌, None, map, IfOk, IfErr};
ghost use Rattle.cops_names.specs.NameTable.{NameTable};
ghost use Rattle.cert_model.specs.EvidenceView.{automaton_view};
ghost use Rattle.cert_grammar.specs.Versions.{second_version};
ghost use Rattle.cert_grammar.specs.Items as spec;
ghost use Rattle.cert_words.specs.CertRefusals.{IsRefusedAs};
ghost use Rattle.cert_text.specs.ReadingView.{version_with, shared_in};
ghost use Rattle.cert_text.specs.Front.{opening_behind, opened_behind, IsBegun, BeginsBody, ReadsOpening};
ghost use Rattle.cert_text.specs.OpenedText.{opened_view, IsOpenedAs, IsRefusedBehind, IsToldBefore, HasNoEndAtWhole, steps_view, opening_view, IsGood, IsAnswer};

use crate::pairs::{Pairs, uses_of};
use cert_model::{Automaton, MeasureCert, Peak, Simp};
use cert_reading::{
    Kind, all_simplifications, entries_begin, first_line, kind_word, measure, peak,
    shared_automata, simplified_word,
};
use cert_shares::Shares;
use cert_words::{CertError, Reading, counted_steps, text};
use cops_names::Names;
use std::alloc::Global;

/// A text that is read up to its entries; a peak, which has none, is whole.
#[derive(Drop)]
pub enum Opened<'a> {
    /// Of an almost orthogonal system.
    Ortho(Pairs<'a>),
    /// With a measure.
    Quasi(MeasureCert, Pairs<'a>),
    /// Of a system that is not confluent.
    Peak(Peak),
    /// Behind steps that simplify the system, which are not simplified again.
    Simplified(Vec<Simp>, Box<Opened<'a>>),
}

// What stands before the body: shared automata, which the first version has not, and steps, where there are any.
#[derive(Drop)]
struct Ahead {
    automata: Option<Vec<Automaton>>,
    steps: Option<Vec<Simp>>,
}

/// Reads a text up to its entries, a peak to its end; else its refusal.
pub fn open_cert<'a>(
    alloc: Global,
    names: &'a Names,
    bytes: &'a [u8],
) -> Result<Opened<'a>, CertError>
    ensures opened { IfOk result (λ o. IsOpenedAs names.now bytes.now (opened_view o)) }
    ensures refused { IfErr result (λ e. IsRefusedAs names.now bytes.now e) }
    ensures late { IfOk result (λ o. IsRefusedBehind names.now bytes.now (opened_view o)) }
    ensures early { IfErr result (IsToldBefore bytes.now) }
    ensures peak { IfOk result (λ o. HasNoEndAtWhole bytes.now (opened_view o)) }
{
    let end = bytes.len();
    let shares = Shares::new(alloc);
    let mut at = Reading {
        left: bytes,
        refused: None,
        shares,
    };
    let (given, second) = first_line(end, &mut at);
    if second {
        let automata = shared_automata(alloc, names, end, &mut at);
        return open_second(alloc, names, bytes, automata, at, given);
    }
    let kind = kind_word(end, &mut at, given);
    let ahead = Ahead {
        automata: None,
        steps: None,
    };
    open_body(alloc, names, bytes, ahead, at, kind)
}

// The rest of a text of the second version, behind its shared automata.
fn open_second<'a>(
    alloc: Global,
    names: &'a Names,
    bytes: &'a [u8],
    automata: Vec<Automaton>,
    at: Reading<'a>,
    given: Option<bool>,
) -> Result<Opened<'a>, CertError>
    requires { IsBegun names.now bytes.now second_version (map automaton_view automata.items) given None [] (spec.simplified given ∷ []) at }
    ensures { IsAnswer names.now bytes.now result }
{
    let end = bytes.len();
    let mut at = at;
    if let Some(kind) = simplified_word(end, &mut at, given) {
        let ahead = Ahead {
            automata: Some(automata),
            steps: None,
        };
        return open_body(alloc, names, bytes, ahead, at, kind);
    }
    let count = counted_steps(end, &mut at);
    text(end, &mut at, b"\n");
    let steps = all_simplifications(alloc, names, &automata, end, &mut at, count);
    let kind = kind_word(end, &mut at, given);
    let ahead = Ahead {
        automata: Some(automata),
        steps: Some(steps),
    };
    open_body(alloc, names, bytes, ahead, at, kind)
}

// The rest of a text behind the word of its kind.
fn open_body<'a>(
    alloc: Global,
    names: &'a Names,
    bytes: &'a [u8],
    ahead: Ahead,
    at: Reading<'a>,
    kind: Kind,
) -> Result<Opened<'a>, CertError>
    requires { BeginsBody names.now bytes.now (version_with ahead.automata) (shared_in ahead.automata) (steps_view ahead.steps) kind at }
    ensures { IsAnswer names.now bytes.now result }
{
    let end = bytes.len();
    let mut at = at;
    text(end, &mut at, b"\n");
    match kind {
        Kind::Ortho => {
            entries_begin(end, &mut at);
            entries(alloc, names, bytes, ahead, at, None)
        }
        Kind::Quasi => {
            let measure = measure(alloc, names, uses_of(&ahead.automata), end, &mut at);
            entries(alloc, names, bytes, ahead, at, Some(measure))
        }
        Kind::Peak => {
            let peak = peak(alloc, names, uses_of(&ahead.automata), end, &mut at);
            if let Some(refused) = at.refused {
                return Err(refused);
            }
            if !at.left.is_empty() {
                return Err(CertError::CertSyntax {
                    at: end.saturating_sub(at.left.len()),
                });
            }
            behind_steps(alloc, ahead.steps, Opened::Peak(peak))
        }
    }
}

// The entries behind a measure, or behind none.
fn entries<'a>(
    alloc: Global,
    names: &'a Names,
    bytes: &'a [u8],
    ahead: Ahead,
    at: Reading<'a>,
    measure: Option<MeasureCert>,
) -> Result<Opened<'a>, CertError>
    requires { ReadsOpening names.now bytes.now (version_with ahead.automata) (shared_in ahead.automata) (opening_behind (steps_view ahead.steps) (opening_view measure)) at }
    ensures { IsAnswer names.now bytes.now result }
{
    if let Some(refused) = at.refused {
        return Err(refused);
    }
    let pairs = Pairs::behind(names, bytes, ahead.automata, at);
    match measure {
        None => behind_steps(alloc, ahead.steps, Opened::Ortho(pairs)),
        Some(measure) => behind_steps(alloc, ahead.steps, Opened::Quasi(measure, pairs)),
    }
}

// What stands behind these steps, if there are any.
fn behind_steps<'a>(
    alloc: Global,
    steps: Option<Vec<Simp>>,
    body: Opened<'a>,
) -> Result<Opened<'a>, CertError>
    ensures { (names : NameTable) (bytes : List ℕ) → IsGood names bytes (opened_behind (steps_view steps) (opened_view body.entry)) → IsAnswer names bytes result }
{
    let Some(steps) = steps else {
        return Ok(body);
    };
    let body = Box::new(alloc, body)?;
    Ok(Opened::Simplified(steps, body))
}
