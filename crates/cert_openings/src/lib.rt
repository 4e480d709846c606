//! The opening of a certificate's text, up to its entries: definitions, and where the refusal of a text stands.
//!
//! The calls are laws: their clauses are the theorems, and the calls do nothing.
#![tactic(auto)]

ghost use Rattle.cert_openings.specs.Laws.{OpeningsPass, BadOpeningsAreRefused, OpeningsEnd, OneOpeningEnd, PeaksHaveNoEnd, WholeIsText, TextIsWhole, EntryIsTaken, OneReading, NumbersTell};

/// A text whose opening is read is refused behind it, if it is.
pub fn openings_pass()
    ensures { OpeningsPass }
{}

/// A text whose opening ends somewhere but is none is refused before its end.
pub fn bad_openings_are_refused()
    ensures { BadOpeningsAreRefused }
{}

/// An opening ends at the first line that may begin an entry.
pub fn openings_end()
    ensures { OpeningsEnd }
{}

/// A text has one opening's end, and that of a peak has none.
pub fn one_opening_end()
    ensures one { OneOpeningEnd }
    ensures none { PeaksHaveNoEnd }
{}

/// What is read up to the last line, with no automaton left, is the text of a certificate, and so is nothing else.
pub fn whole_texts()
    ensures whole { WholeIsText }
    ensures conversely { TextIsWhole }
{}

/// Entries are read one by one, and what is read up to a place is one; each use has an automaton of before or the next one.
pub fn entries_are_taken()
    ensures taken { EntryIsTaken }
    ensures one { OneReading }
    ensures told { NumbersTell }
{}
