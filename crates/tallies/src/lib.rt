//! What the entries of a certificate come to, taken one after the other. No program speaks here: the definitions are of
//! entries and overlaps, and the laws say that each list of entries has one tally, and what it tells of a certificate.
#![tactic(auto)]

ghost use Rattle.tallies.specs.Laws.{OrthoEntriesHaveOneTally, QuasiEntriesHaveOneTally, OrthoTalliesTell, QuasiTalliesTell, NoEntriesPass, FirstEntryIsExtra};

/// Each list of entries has one tally, in certificates of both kinds.
pub fn entries_have_one_tally()
    ensures ortho { OrthoEntriesHaveOneTally }
    ensures quasi { QuasiEntriesHaveOneTally }
{}

/// The tally of its entries tells whether a certificate is valid, or the first reason why not.
pub fn tallies_tell_the_answer()
    ensures ortho { OrthoTalliesTell }
    ensures quasi { QuasiTalliesTell }
{}

/// The shortest tallies: of no entry, and of one where no overlap is left.
pub fn shortest_tallies()
    ensures none { NoEntriesPass }
    ensures extra { FirstEntryIsExtra }
{}
