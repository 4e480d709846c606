//! Laws of certificates' texts: a text is one certificate or has one refusal, and the reader finds which.
ghost use Rattle.cert_laws.specs.MarkLaws.{IsDeterministic};
ghost use Rattle.cert_sharing.specs.SharedLaws.{TextOrRefused, OneRefusal, NeverBoth, PlacesAreWithin};

/// What bytes go along is determined by them: two texts of the grammar have the same marks, or no bytes go along both.
pub fn grammar_is_deterministic()
    ensures { IsDeterministic }
{}

/// All bytes are the text of a certificate, or have one refusal at one place, and never both.
pub fn one_answer()
    ensures some { TextOrRefused }
    ensures refusal { OneRefusal }
    ensures never_both { NeverBoth }
    ensures within { PlacesAreWithin }
{}
