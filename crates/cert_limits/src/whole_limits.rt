//! Whether measures, peaks and whole certificates can be spelt with the names of a system.
ghost use Rattle.std.specs.Prelude.{◌↔◌, ◌∷◌, [], IsTrue, map};
ghost use Rattle.term_core.specs.HeadView.{head_view};
ghost use Rattle.cert_model.specs.CertificateView.{pair_entry_view, linear_entry_view, measure_view, redex_view, apart_view, peak_view, simp_view, certificate_view};
ghost use Rattle.certificates.specs.Certificates.{ortho_certificate, peak_certificate};
ghost use Rattle.cert_grammar.specs.Prelude.{IsMeasured, AreEntries, AreHeads, IsMeasure, AreRedexEntries, IsApart, AreSimplifications, IsWithin, second_version};
ghost use Rattle.cert_grammar.specs.Prelude.{IsOfVersion};

use crate::evidence_limits::{are_pairs, is_infeasibility};
use crate::step_limits::is_derivation;
use crate::term_limits::{are_numbers, are_places, has_name, is_number, is_spelt};
use cert_grammar::{
    MOST_ENTRIES, MOST_NESTING, MOST_NUMBERS, MOST_PAIRS, MOST_REDEXES, MOST_SIMPLIFICATIONS,
};
use cert_model::{
    Certificate, Head, LinearEntry, MeasureCert, NonJoin, PairEntry, Peak, Redex, Simp,
};
use cops_names::Names;
use term_core::fits;

fn is_measured(names: &Names, head: &Head) -> bool
    ensures { IsTrue result ↔ IsMeasured names.now (head_view head.now) }
{
    match head {
        Head::File(f) => has_name(names, *f),
        Head::Aux { rule, cond } => is_number(*rule) && is_number(*cond),
    }
}

fn are_entries(names: &Names, entries: &[LinearEntry]) -> bool
    ensures { IsTrue result ↔ AreEntries names.now (map linear_entry_view entries.now) }
{
    'entries: for entry in entries {
        if !is_measured(names, &entry.head)
            || entry.coeffs.len() > MOST_NUMBERS
            || !are_numbers(&entry.coeffs)
        {
            return false;
        }
    }
    true
}

fn are_heads(names: &Names, heads: &[Head]) -> bool
    ensures { IsTrue result ↔ AreHeads names.now (map head_view heads.now) }
{
    'heads: for head in heads {
        if !is_measured(names, head) {
            return false;
        }
    }
    true
}

fn is_measure(names: &Names, measure: &MeasureCert) -> bool
    ensures { IsTrue result ↔ IsMeasure names.now (measure_view measure.now) }
{
    match measure {
        MeasureCert::Linear(linear) => {
            linear.entries.len() <= MOST_ENTRIES as usize && are_entries(names, &linear.entries)
        }
        MeasureCert::Lpo(order) => {
            order.len() <= MOST_ENTRIES as usize && are_heads(names, order)
        }
    }
}

fn are_redexes(names: &Names, redexes: &[Redex]) -> bool
    ensures { IsTrue result ↔ AreRedexEntries names.now (map redex_view redexes.now) }
{
    'redexes: for redex in redexes {
        if !is_number(redex.which)
            || !are_places(&redex.pos)
            || !is_number(redex.rule)
            || !is_infeasibility(names, &redex.evidence)
        {
            return false;
        }
    }
    true
}

fn is_apart(names: &Names, apart: &NonJoin) -> bool
    ensures { IsTrue result ↔ IsApart names.now (apart_view apart.now) }
{
    match apart {
        NonJoin::Normal(redexes) => {
            redexes.len() <= MOST_REDEXES as usize && are_redexes(names, redexes)
        }
        NonJoin::Caps => true,
    }
}

fn is_peak(names: &Names, peak: &Peak) -> bool
    ensures { IsTrue result ↔ IsWithin names.now (peak_certificate (peak_view peak.now)) }
{
    fits(&peak.start)
        && is_spelt(names, &peak.start)
        && is_derivation(MOST_NESTING, &peak.first)
        && is_derivation(MOST_NESTING, &peak.second)
        && is_apart(names, &peak.apart)
}

// Whether the overlaps are few, and within the limits.
fn are_few_pairs(names: &Names, pairs: &[PairEntry]) -> bool
    ensures { IsTrue result ↔ IsWithin names.now (ortho_certificate (map pair_entry_view pairs.now)) }
{
    pairs.len() <= MOST_PAIRS as usize && are_pairs(names, pairs)
}

fn is_step(names: &Names, step: &Simp) -> bool
    ensures { IsTrue result ↔ AreSimplifications names.now (simp_view step.now ∷ []) }
{
    match step {
        Simp::Drop { rule, evidence } => is_number(*rule) && is_infeasibility(names, evidence),
        Simp::Inline { rule, cond } => is_number(*rule) && is_number(*cond),
    }
}

fn are_steps(names: &Names, steps: &[Simp]) -> bool
    ensures { IsTrue result ↔ AreSimplifications names.now (map simp_view steps.now) }
{
    'steps: for step in steps {
        if !is_step(names, step) {
            return false;
        }
    }
    true
}

/// Whether the parts of the certificate are within the limits, and its symbols have names.
#[tactic(auto, using(cert_model::proofs::CertificateViews::ortho_shown, cert_model::proofs::CertificateViews::quasi_shown, cert_model::proofs::CertificateViews::peak_shown, cert_model::proofs::CertificateViews::simplified_shown))]
#[cycle(is_within)]
pub fn is_within(names: &Names, cert: &Certificate) -> bool
    ensures { IsTrue result ↔ IsWithin names.now (certificate_view cert.now) }
{
    match cert {
        Certificate::Ortho(pairs) => are_few_pairs(names, pairs),
        Certificate::Quasi(measure, pairs) => {
            is_measure(names, measure) && are_few_pairs(names, pairs)
        }
        Certificate::Peak(peak) => is_peak(names, peak),
        Certificate::Simplified { steps, body } => {
            !steps.is_empty()
                && steps.len() <= MOST_SIMPLIFICATIONS as usize
                && are_steps(names, steps)
                && is_within(names, body)
        }
    }
}

/// Whether the second version of the text has such certificates: those that are simplified once at most.
#[tactic(auto, using(cert_model::proofs::CertificateViews::ortho_shown, cert_model::proofs::CertificateViews::quasi_shown, cert_model::proofs::CertificateViews::peak_shown, cert_model::proofs::CertificateViews::simplified_shown))]
pub fn is_of_second(cert: &Certificate) -> bool
    ensures { IsTrue result ↔ IsOfVersion second_version (certificate_view cert.now) }
{
    match cert {
        Certificate::Ortho(_) | Certificate::Quasi(_, _) | Certificate::Peak(_) => true,
        Certificate::Simplified { body, .. } => match &**body {
            Certificate::Ortho(_) | Certificate::Quasi(_, _) | Certificate::Peak(_) => true,
            Certificate::Simplified { .. } => false,
        },
    }
}
