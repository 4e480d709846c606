//! The measure that a certificate names, of either kind, as one measure.
use cert_model::MeasureCert;
use linear_interp::check_linear;
use lpo::check_lpo;
use measure::{Measure, MeasureError};
use std::alloc::Global;
use term_core::System;

/// A certificate's measure, judged by its kind.
#[derive(Clone, Copy, Debug)]
pub struct NamedMeasure<'a> {
    pub measure: &'a MeasureCert,
}

impl<'a> Measure for NamedMeasure<'a> {
    ghost use Rattle.valid_certificates.specs.Certificates.{IsMeasureJudged};
    ghost use Rattle.valid_certificates.proofs.OneCertificate.{measure_judged_once};
    ghost use Rattle.valid_certificates.proofs.Total.{measure_total};
    ghost use Rattle.quasi_check.proofs.Sound.{measure_bounds};
    ghost use Rattle.cert_model.specs.CertificateView.{measure_view};

    ghost judged = { λ m s j. IsMeasureJudged s (measure_view m.measure.now) j };

    fn shows(&self, alloc: Global, sys: &System) -> Result<(), MeasureError> {
        match self.measure {
            MeasureCert::Linear(linear) => check_linear(alloc, sys, linear),
            MeasureCert::Lpo(order) => check_lpo(alloc, sys, order),
        }
    }

    ghost some_judgement = { λ m s. measure_total s (measure_view m.measure.now) };

    ghost one_judgement = { λ m s j k h q. measure_judged_once s (measure_view m.measure.now) j k h q };

    ghost bounds = { λ m s well h. measure_bounds s (measure_view m.measure.now) well h };
}
