//! The text of a certificate in both versions, shared automata judged: all bytes are the text of one certificate, or have one
//! refusal.
//!
//! The calls are laws: their clauses are the theorems, and the calls do nothing.
#![tactic(auto)]

ghost use Rattle.cert_sharing.specs.SharedLaws.{MetAreCertificates, CertificatesAreMet, TextOrRefused, NeverBoth, OneRefusal, PlacesAreWithin, ReaderIsExact, AnswersAreRead, OneCertificate, WrittenIsRead};
ghost use Rattle.cert_sharing.specs.SharedRows.{AreAnswered};

/// The texts of certificates are those of the grammar in which all demands are met, those on shared automata too.
pub fn demands_are_met()
    ensures certificates { CertificatesAreMet }
    ensures texts { MetAreCertificates }
{}

/// All bytes are the text of a certificate, or have one refusal at one place, and never both.
pub fn one_answer()
    ensures some { TextOrRefused }
    ensures never_both { NeverBoth }
    ensures refusal { OneRefusal }
    ensures within { PlacesAreWithin }
{}

/// The reader that stops at the first refusal gives the answer of each text, and each answer.
pub fn reader_is_exact()
    ensures exact { ReaderIsExact }
    ensures found { AnswersAreRead }
{}

/// Bytes are the text of one certificate at most, so what is written is read back.
pub fn one_certificate()
    ensures one { OneCertificate }
    ensures written { WrittenIsRead }
{}

/// Worked texts.
pub fn worked_texts()
    ensures { AreAnswered }
{}
