//! The measure that is found, in the lines of a certificate.
use crate::measures::Measured;
use cert_model::{Head, Linear, MeasureCert};
use lens_pages::{Page, Piece};

fn put_linear(page: &mut Page<'_>, linear: &Linear) {
    page.words("  linear\n");
    'entries: for entry in &linear.entries {
        page.put("  #", &[Piece::MeasureHead(entry.head)]);
        'numbers: for number in &entry.coeffs {
            page.put(" #", &[Piece::Number(*number as usize)]);
        }
        page.words("\n");
    }
}

fn put_order(page: &mut Page<'_>, order: &[Head]) {
    page.words("  lpo\n");
    'order: for head in order {
        page.line(2, "#", &[Piece::MeasureHead(*head)]);
    }
}

/// The measure that is found, or that there is none.
pub fn put_measure(page: &mut Page<'_>, measured: &Measured) {
    page.words(if measured.found.is_some() {
        "MEASURE that is found, whatever else is missing:\n"
    } else {
        "MEASURE: none is found\n"
    });
    match &measured.found {
        Some(MeasureCert::Linear(linear)) => put_linear(page, linear),
        Some(MeasureCert::Lpo(order)) => put_order(page, order),
        None => {}
    }
    page.words("\n");
}
