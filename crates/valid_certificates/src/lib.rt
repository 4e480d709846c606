//! What makes a certificate valid, why one is rejected, and what a valid peak shows. No program speaks here: the
//! definitions are of terms, rules and certificates of every size.
#![tactic(auto)]

ghost use Rattle.valid_certificates.specs.CarriedBack.{PeaksAreCarriedBack};
ghost use Rattle.valid_certificates.specs.Laws.{ValidPeaksReachApart, UnjoinableTermsRefuteConfluence, CertificatesHaveOneAnswer, CertificatesHaveAnAnswer};

/// The start of a valid peak reaches two terms that have no common reduct.
pub fn valid_peaks_reach_apart()
    ensures { ValidPeaksReachApart }
{}

/// Where a term reaches two such terms, neither the relation of the system nor that of its file is confluent.
pub fn unjoinable_terms_refute_confluence()
    ensures { UnjoinableTermsRefuteConfluence }
{}

/// A term that reaches two terms without a common reduct behind steps that simplify the system does so before them.
pub fn peaks_are_carried_back()
    ensures { PeaksAreCarriedBack }
{}

/// A certificate is rejected for one reason, and then it is not valid.
pub fn certificates_have_one_answer()
    ensures { CertificatesHaveOneAnswer }
{}

/// Every certificate, of every system, is valid or rejected for a reason.
pub fn certificates_have_an_answer()
    ensures { CertificatesHaveAnAnswer }
{}
