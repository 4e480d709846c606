//! Where a rejected certificate breaks, and what is expected there.
use crate::classes::{tell_class, tell_reducible};
use crate::ends::tell_end_reason;
use crate::entries::{overlap_at, tell_entries, tell_head, tell_overlap};
use crate::measures::{tell_measure, tell_measure_line, tell_unordered};
use crate::peaks::tell_peak;
use crate::reasons::{tell_path, tell_reason};
use crate::scene::Scene;
use crate::settled::tell_settled;
use cert_model::{
    Certificate, EvidenceReason, MeasureCert, MeasureReason, PairEntry, Peak, Rejected,
};
use lens_pages::{Page, Piece};

// Tells why an entry's evidence is not valid.
fn tell_entry_reason(
    page: &mut Page<'_>,
    scene: Scene<'_>,
    pairs: &[PairEntry],
    number: u32,
    reason: &EvidenceReason,
) {
    let place = (number as usize).saturating_sub(1);
    let Some(overlap) = overlap_at(page, scene, number) else {
        return tell_reason(page, 2, reason);
    };
    tell_head(page, number as usize, &overlap);
    tell_overlap(page, scene, &overlap);
    tell_reason(page, 2, reason);
    if let Some(entry) = pairs.get(place) {
        page.set_quiet(true);
        tell_settled(page, scene, &overlap, &entry.evidence);
        page.set_quiet(false);
    }
}

// Tells what is wrong with the list of entries.
fn tell_entries_reason(
    page: &mut Page<'_>,
    scene: Scene<'_>,
    pairs: &[PairEntry],
    reason: &Rejected,
) {
    match reason {
        Rejected::EvidenceFails { entry, reason } => {
            tell_entry_reason(page, scene, pairs, *entry, reason)
        }
        _ => {
            page.set_quiet(true);
            tell_entries(page, scene, pairs);
            page.set_quiet(false);
        }
    }
}

// What is said of a measure that is not good: `#` stands for the number of its line or rule.
fn words_of(reason: MeasureReason) -> &'static str {
    match reason {
        MeasureReason::Shape { .. } =>
            "Line # of the measure is wrong, missing or surplus: each symbol of the unraveled system has one line, of an interpretation in order, with one number more than the symbol has arguments:",
        MeasureReason::Coefficient { .. } =>
            "This symbol has a number above 1,000,000, or 0 for an argument that is reduced, or, having arguments, the constant 0:",
        MeasureReason::Overflow { .. } =>
            "A number of the value of a side of this unraveled rule is above 2^100:",
        MeasureReason::Variable { .. } =>
            "The measure does not fall: a variable counts more on the right side of this unraveled rule.",
        MeasureReason::Constant { .. } =>
            "The measure does not fall: the constant on the left side of this unraveled rule is not greater.",
        MeasureReason::Order { .. } =>
            "The precedence does not order the left side of this unraveled rule above its right side:",
    }
}

// Tells why a measure is not good.
fn tell_measure_reason(
    page: &mut Page<'_>,
    scene: Scene<'_>,
    measure: &MeasureCert,
    reason: MeasureReason,
) {
    let number = match reason {
        MeasureReason::Shape { entry } | MeasureReason::Coefficient { entry } => entry,
        MeasureReason::Overflow { rule }
        | MeasureReason::Variable { rule, .. }
        | MeasureReason::Constant { rule }
        | MeasureReason::Order { rule } => rule,
    };
    page.line(0, words_of(reason), &[Piece::Number(number as usize)]);
    match reason {
        MeasureReason::Shape { .. } | MeasureReason::Coefficient { .. } => {
            tell_measure_line(page, measure, number);
        }
        _ => tell_unordered(page, scene, measure, number),
    }
}

// Tells why a certificate with a measure breaks before its entries.
fn tell_quasi(
    page: &mut Page<'_>,
    scene: Scene<'_>,
    measure: &MeasureCert,
    pairs: &[PairEntry],
    reason: &Rejected,
) {
    match reason {
        Rejected::MeasureFails(reason) => tell_measure_reason(page, scene, measure, *reason),
        Rejected::UnravelLarge { .. } => {
            page.set_quiet(true);
            tell_measure(page, scene, measure);
            page.set_quiet(false);
        }
        Rejected::NotIrreducible { rule, cond } => tell_reducible(page, scene, *rule, *cond),
        _ => tell_entries_reason(page, scene, pairs, reason),
    }
}

// Tells why a peak breaks.
fn tell_peak_reason(page: &mut Page<'_>, scene: Scene<'_>, peak: &Peak, reason: &Rejected) {
    match reason {
        Rejected::FirstBad(bad) => tell_path(page, 0, "The one way", bad),
        Rejected::SecondBad(bad) => tell_path(page, 0, "The other way", bad),
        Rejected::SameTerm => {}
        _ => return tell_end_reason(page, scene, peak, reason),
    }
    page.set_quiet(true);
    tell_peak(page, scene, peak);
    page.set_quiet(false);
}

/// Tells why a certificate without steps breaks.
pub fn tell_rejection(
    page: &mut Page<'_>,
    scene: Scene<'_>,
    cert: &Certificate,
    reason: &Rejected,
) {
    if let Rejected::ClassFails(blame) = reason {
        return tell_class(page, scene, blame);
    }
    match cert {
        Certificate::Ortho(pairs) => tell_entries_reason(page, scene, pairs, reason),
        Certificate::Quasi(measure, pairs) => tell_quasi(page, scene, measure, pairs, reason),
        Certificate::Peak(peak) => tell_peak_reason(page, scene, peak, reason),
        Certificate::Simplified { .. } => {}
    }
}
