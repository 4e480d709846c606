//! What the checks of certificates answer, and what the searches for them do.
#![tactic(auto)]

ghost use Rattle.std.specs.Prelude.{◌≡◌, ◌↔◌, IsTrue};
ghost use Rattle.cert_model.specs.EvidenceView.{pair_evidence_view};
ghost use Rattle.valid_certificates.specs.PairEvidence.{IsAllowed};
ghost use Rattle.validity.specs.KindView.{kind_view};
ghost use Rattle.validity.specs.declared.CheckError.TheVariants.{NoMemory as no_memory};

use cert_model::{Certificate, PairEvidence, Rejected};
use term_core::NoMemory;

/// Why a check does not answer Ok.
#[derive(Debug, Drop)]
pub enum CheckError {
    /// The certificate is not valid; the first reason, in the order of judging.
    Rejected(Rejected),
    NoMemory,
}

impl From<NoMemory> for CheckError {
    ghost from_gives = { λ _ e. e ≡ no_memory };

    fn from(_: NoMemory) -> CheckError {
        CheckError::NoMemory
    }
}

/// What a search for a certificate found within its budget.
#[derive(Debug, Drop)]
pub enum Search {
    /// The first valid certificate of the search's space.
    Found(Certificate),
    /// The space holds no valid certificate.
    Nothing,
    /// The budget was spent.
    Spent,
}

/// The kinds of certificates that show that a system is confluent.
#[derive(Clone, Copy, Debug, PartialEq, Eq)]
pub enum CertKind {
    /// Of an almost orthogonal system.
    Ortho,
    /// Of a quasi-decreasing system, with a measure.
    Quasi,
}

/// Whether certificates of the kind may give the evidence for an overlap. Takes no memory.
pub fn allowed(kind: CertKind, e: &PairEvidence) -> bool
    ensures { IsTrue result ↔ IsAllowed (kind_view kind) (pair_evidence_view e.now) }
{
    match (kind, e) {
        (_, PairEvidence::Infeasible(_)) => true,
        (CertKind::Ortho, PairEvidence::Trivial) => true,
        (CertKind::Ortho, PairEvidence::Conflict { .. }) => true,
        (CertKind::Ortho, PairEvidence::Join { .. }) => false,
        (CertKind::Ortho, PairEvidence::Unfeasible { .. }) => false,
        (CertKind::Quasi, PairEvidence::Trivial) => false,
        (CertKind::Quasi, PairEvidence::Conflict { .. }) => false,
        (CertKind::Quasi, PairEvidence::Join { .. }) => true,
        (CertKind::Quasi, PairEvidence::Unfeasible { .. }) => true,
    }
}
