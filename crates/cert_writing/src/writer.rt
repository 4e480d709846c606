//! The text of a certificate with its measure, overlaps or peak, and how many bytes it has.
ghost use Rattle.std.specs.Prelude.{◌≡◌, length, min, IfOk};
ghost use Rattle.term_core.specs.HeadView.{head_view};
ghost use Rattle.cert_model.specs.CertificateView.{linear_entry_view, measure_view, redex_view, apart_view, peak_view, simp_view, certificate_view};
ghost use Rattle.cert_grammar.specs.Prelude.{measured_text, measure_text, apart_text, peak_text, body_text, certificate_text, second_version};
ghost use Rattle.cert_writing.specs.Written.{greatest};
ghost use Rattle.cert_writing.specs.WrittenUses.{uses_view, place_text, entry_text, redex_text, step_text};

use crate::numbers::{AutomatonTexts, put_texts};
use crate::output::Output;
use crate::parts::{Part, count};
use crate::written_evidence::Uses;
use crate::written_terms::{Behind, Name, Position};
use cert_model::{Certificate, Head, LinearEntry, MeasureCert, NonJoin, Peak, Redex, Simp};
use cops_names::Names;
use std::alloc::Global;
use term_core::NoMemory;

// A symbol of the file, or the symbol that a rule has for one of its conditions.
#[derive(Drop)]
struct Measured<'a>(&'a Head);

impl Part for Measured<'_> {
    ghost text = { λ names uses m. measured_text names (head_view m.0.now) };

    fn put<O: Output>(&self, to: &mut O, names: &Names, uses: &Uses<'_>) {
        match self.0 {
            Head::File(symbol) => ("fun ", Name(*symbol)).put(to, names, uses),
            Head::Aux { rule, cond } => { put!(to, names, uses; "aux ", rule, " ", cond) }
        }
    }
}

/// A line of a precedence.
impl Part for Head {
    ghost text = { λ names uses h. place_text names (head_view h) };

    fn put<O: Output>(&self, to: &mut O, names: &Names, uses: &Uses<'_>) {
        (Measured(self), "\n").put(to, names, uses);
    }
}

impl Part for LinearEntry {
    ghost text = { λ names uses e. entry_text names (linear_entry_view e) };

    fn put<O: Output>(&self, to: &mut O, names: &Names, uses: &Uses<'_>) {
        put!(to, names, uses; Measured(&self.head), Behind(b' ', &self.coeffs), "\n");
    }
}

#[tactic(auto, using(crate::proofs::WritingSteps::entries_each, crate::proofs::WritingSteps::places_each))]
impl Part for MeasureCert {
    ghost text = { λ names uses m. measure_text names (measure_view m) };

    fn put<O: Output>(&self, to: &mut O, names: &Names, uses: &Uses<'_>) {
        match self {
            MeasureCert::Linear(linear) => ("linear\n", &linear.entries).put(to, names, uses),
            MeasureCert::Lpo(order) => ("lpo\n", order).put(to, names, uses),
        }
    }
}

impl Part for Redex {
    ghost text = { λ names uses r. redex_text names uses (redex_view r) };

    fn put<O: Output>(&self, to: &mut O, names: &Names, uses: &Uses<'_>) {
        put!(to, names, uses; "redex ", self.which, " ", Position(&self.pos), " ", self.rule, " ", &self.evidence);
    }
}

#[tactic(auto, using(crate::proofs::WritingSteps::redexes_each))]
impl Part for NonJoin {
    ghost text = { λ names uses a. apart_text names uses (apart_view a) };

    fn put<O: Output>(&self, to: &mut O, names: &Names, uses: &Uses<'_>) {
        match self {
            NonJoin::Normal(redexes) => ("normal\n", redexes).put(to, names, uses),
            NonJoin::Caps => to.put(b"caps\n"),
        }
    }
}

impl Part for Peak {
    ghost text = { λ names uses p. peak_text names uses (peak_view p) };

    fn put<O: Output>(&self, to: &mut O, names: &Names, uses: &Uses<'_>) {
        put!(to, names, uses; "start ", &self.start, "\n", &self.first, &self.second, &self.apart);
    }
}

/// A step before a body.
impl Part for Simp {
    ghost text = { λ names uses s. step_text names uses (simp_view s) };

    fn put<O: Output>(&self, to: &mut O, names: &Names, uses: &Uses<'_>) {
        match self {
            Simp::Drop { rule, evidence } => { put!(to, names, uses; "drop ", rule, " ", evidence) }
            Simp::Inline { rule, cond } => {
                put!(to, names, uses; "inline ", rule, " ", cond, "\n")
            }
        }
    }
}

#[tactic(auto, using(crate::proofs::WritingSteps::pairs_each, cert_model::proofs::CertificateViews::ortho_shown, cert_model::proofs::CertificateViews::quasi_shown))]
#[cycle(put_body)]
fn put_body<O: Output>(to: &mut O, names: &Names, uses: &Uses<'_>, cert: &Certificate)
    ensures { O.took to.old (body_text names.now (uses_view names.now uses.now) (certificate_view cert.now)) to.new }
{
    match cert {
        Certificate::Ortho(pairs) => ("ortho\n", pairs).put(to, names, uses),
        Certificate::Quasi(measure, pairs) => { put!(to, names, uses; "quasi\n", measure, pairs) }
        Certificate::Peak(peak) => ("peak\n", peak).put(to, names, uses),
        Certificate::Simplified { steps, body } => {
            ("simplify ", steps.len()).put(to, names, uses);
            ("\n", steps).put(to, names, uses);
            put_body(to, names, uses, body);
        }
    }
}

// A certificate with the lines around it; its automata are numbered.
#[derive(Drop)]
struct Whole<'a>(Global, &'a Certificate);

impl Part for Whole<'_> {
    ghost text = { λ names uses whole. certificate_text second_version names (certificate_view whole.1.now) };

    fn put<O: Output>(&self, to: &mut O, names: &Names, uses: &Uses<'_>) {
        match AutomatonTexts::of(self.0, names, self.1) {
            Ok(texts) => {
                ("concon 2\nshared ", texts.len()).put(to, names, uses);
                to.put(b"\n");
                put_texts(to, &texts);
                put_body(to, names, &Uses::ByNumber(&texts), self.1);
                to.put(b"end\n");
            }
            Err(_) => to.refuse(),
        }
    }
}

/// Puts the text of a certificate, without an answer line. To number its automata memory is taken; where that is refused, the
/// output takes nothing more.
pub fn put_certificate<O: Output>(alloc: Global, to: &mut O, names: &Names, cert: &Certificate)
    ensures { O.took to.old (certificate_text second_version names.now (certificate_view cert.now)) to.new }
{
    Whole(alloc, cert).put(to, names, &Uses::InFull);
}

/// The number of bytes of the certificate's text, or the greatest number where there are more.
pub fn text_len(alloc: Global, names: &Names, cert: &Certificate) -> Result<u64, NoMemory>
    ensures { IfOk result (λ n. n ≡ min (length (certificate_text second_version names.now (certificate_view cert.now))) greatest) }
{
    count(names, &Whole(alloc, cert))
}
