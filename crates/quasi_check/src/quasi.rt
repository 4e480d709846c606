//! Confluence by a measure: the system is deterministic, right sides of conditions absolutely irreducible, the measure good, overlaps settled.
ghost use Rattle.std.specs.Prelude.{OnOk, map};
ghost use Rattle.rewriting.specs.Confluence.{IsConfluent};
ghost use Rattle.cert_model.specs.CertificateView.{pair_entry_view};
ghost use Rattle.valid_certificates.specs.Entries.{ArePairsShort};
ghost use Rattle.validity.specs.Answers.{QuasiAnswers};
ghost use Rattle.quasi_check.specs.Laws.{ValidMeasuredSystemsAreConfluent};
ghost use Rattle.quasi_check.specs.Parts.{RulesAnswers, MeasureAnswers};

use crate::run::QuasiRun;
use crate::sides::first_reducible;
use cert_model::{Class, PairEntry, Rejected};
use ctrs_classes::why_not;
use descent_theorem::bounded_descents_are_confluent;
use measure::{Measure, MeasureError};
use prepared_system::PreparedSystem;
use rule_index::IndexedSystem;
use std::alloc::Global;
use term_core::System;
use validity::CheckError;

// Whether the system is deterministic and the right side of each condition is absolutely irreducible.
pub(crate) fn check_rules(alloc: Global, sys: &PreparedSystem<'_>) -> Result<(), CheckError>
    ensures { RulesAnswers sys.now result }
{
    if let Some(blame) = why_not(sys.system(), Class::Deterministic) {
        return Err(CheckError::Rejected(Rejected::ClassFails(blame)));
    }
    match first_reducible(alloc, sys)? {
        Some(place) => Err(CheckError::Rejected(Rejected::NotIrreducible {
            rule: place.rule,
            cond: place.cond,
        })),
        None => Ok(()),
    }
}

// Whether the measure bounds descents.
pub(crate) fn check_measure<M: Measure>(
    alloc: Global,
    sys: &System,
    measure: &M,
) -> Result<(), CheckError>
    ensures { MeasureAnswers (M.judged measure.now sys.now) result }
{
    match measure.shows(alloc, sys) {
        Ok(()) => Ok(()),
        Err(MeasureError::Reason(reason)) => {
            Err(CheckError::Rejected(Rejected::MeasureFails(reason)))
        }
        Err(MeasureError::Unraveling { rule }) => {
            Err(CheckError::Rejected(Rejected::UnravelLarge { rule }))
        }
        Err(MeasureError::NoMemory) => Err(CheckError::NoMemory),
    }
}

/// Judges a certificate that a system is confluent, by a measure and the evidence for each overlap (after Avenhaus and
/// Loria-Saenz 1994). Where the answer is Ok, the system is confluent.
///
/// # Errors
///
/// The first reason, in this order, why it is not valid: the system is not deterministic; the right side of a condition is
/// not absolutely irreducible, or a run that tells passes the size, where rules and conditions are numbered from 1; the
/// measure is not good; the entries do not settle the overlaps.
pub fn check_quasi<M: Measure>(
    alloc: Global,
    sys: &System,
    measure: &M,
    pairs: &[PairEntry],
) -> Result<(), CheckError>
    requires short { ArePairsShort (map pair_entry_view pairs.now) }
    ensures judged { QuasiAnswers (M.judged measure.now sys.now) sys.now (map pair_entry_view pairs.now) result }
    ensures confluent { OnOk result (IsConfluent sys.now) }
{
    let indexed = IndexedSystem::new(alloc, sys)?;
    let prepared = PreparedSystem::new(alloc, indexed)?;
    let mut run = QuasiRun::start(alloc, &prepared, measure)?;
    for entry in pairs {
        run.take(alloc, entry)?;
    }
    match run.finish() {
        Ok(()) => Ok(()),
        Err(reason) => Err(CheckError::Rejected(reason)),
    }
}

/// A system that has a valid certificate with a measure is confluent. This is a law of the definitions: nothing is checked here.
pub fn valid_measured_systems_are_confluent()
    ensures { ValidMeasuredSystemsAreConfluent }
{
    bounded_descents_are_confluent();
}
