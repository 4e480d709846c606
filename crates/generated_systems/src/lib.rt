//! The generated systems, and the certificate that each of them has. No program speaks here.
#![tactic(auto)]

ghost use Rattle.generated_systems.specs.Laws.{CertificatesAreFound, CertificatesHaveTexts, EntriesAreFirsts, GeneratedAreInOrthoClasses, GeneratedHaveOverlaps, OverlapsHaveConflicts};

/// Greatest number of a generated system that is made, written and read.
pub const MOST_GENERATED: u64 = 200;

/// Each is left-linear, of type 3, extended properly oriented and right-stable.
pub fn generated_systems_are_in_the_classes()
    ensures { GeneratedAreInOrthoClasses }
{}

/// The overlaps of each are exactly those of the two rules of fk, for each k.
pub fn generated_systems_have_overlaps()
    ensures { GeneratedHaveOverlaps }
{}

/// Of what is tried for an overlap, the third item is the first that settles it, so that all entries cost 3n; the certificate
/// that they make has a text, and it is what the space of almost orthogonal systems finds, at that price.
pub fn generated_systems_have_certificates()
    ensures evidence { OverlapsHaveConflicts }
    ensures price { EntriesAreFirsts }
    ensures text { CertificatesHaveTexts }
    ensures found { CertificatesAreFound }
{}
