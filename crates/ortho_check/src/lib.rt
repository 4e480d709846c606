//! Certificates of almost orthogonal systems.
#![tactic(auto)]

mod classes;
mod run;

ghost use Rattle.std.specs.Prelude.{OnOk, map};
ghost use Rattle.rewriting.specs.Confluence.{IsConfluent};
ghost use Rattle.cert_model.specs.CertificateView.{pair_entry_view};
ghost use Rattle.level_theorem.specs.AlmostOrthogonal.{DoLevelsCommute};
ghost use Rattle.valid_certificates.specs.Entries.{ArePairsShort};
ghost use Rattle.validity.specs.Answers.{OrthoAnswers};
ghost use Rattle.ortho_check.specs.Laws.{ValidSystemsAreConfluent};

use cert_model::PairEntry;
use level_theorem::levels_commute;
use prepared_system::PreparedSystem;
use rule_index::IndexedSystem;
pub use run::OrthoRun;
use std::alloc::Global;
use term_core::System;
pub use validity::CheckError;

/// Whether entries for the overlaps show that the levels of the system commute, and so that it is confluent: it is
/// left-linear, of type 3, extended properly oriented and right-stable, and each overlap has an entry, in order, with
/// valid evidence that it is trivial, infeasible or in conflict (after Suzuki, Middeldorp, Ida 1995).
pub fn check_ortho(alloc: Global, sys: &System, pairs: &[PairEntry]) -> Result<(), CheckError>
    requires short { ArePairsShort (map pair_entry_view pairs.now) }
    ensures judged { OrthoAnswers sys.now (map pair_entry_view pairs.now) result }
    ensures levels { OnOk result (DoLevelsCommute sys.now) }
    ensures confluent { OnOk result (IsConfluent sys.now) }
{
    let indexed = IndexedSystem::new(alloc, sys)?;
    let prepared = PreparedSystem::new(alloc, indexed)?;
    let mut run = OrthoRun::start(alloc, &prepared)?;
    for entry in pairs {
        run.take(alloc, entry)?;
    }
    match run.finish() {
        Ok(()) => Ok(()),
        Err(reason) => Err(CheckError::Rejected(reason)),
    }
}

/// A system that has a valid certificate is confluent. This is a law of the definitions: nothing is checked here.
pub fn valid_certificates_are_confluent()
    ensures { ValidSystemsAreConfluent }
{
    levels_commute();
}
