//! Steps that simplify a conditional system and keep what its terms reach, at every level: a rule whose conditions are never met
//! is dropped, and a condition that only names a term is inlined. No program speaks here.
#![tactic(auto)]

ghost use Rattle.simplifications.specs.Laws.{SimplificationsKeepLevels, SystemsOfOneLevelsAreAlike, SimplificationsKeepFiles, SystemsOfOneLevelsAreOneFile};
ghost use Rattle.simplifications.specs.Laws.{SimplificationsMakeSystems, SimplificationsShrink, SimplificationsHaveOneAnswer};
ghost use Rattle.simplifications.specs.Examples.{InlinesACall, KeepsAKnownName, NumbersAnew, KeepsALaterQuestion};

/// Before and after good steps the same terms are reached at every level; so what is reached at any level, confluence, terms
/// without common reducts and levels that commute are the same.
pub fn simplifications_keep_levels()
    ensures levels { SimplificationsKeepLevels }
    ensures alike { SystemsOfOneLevelsAreAlike }
{}

/// Good steps lead from systems that are from files to such systems, those of join rules to fewer join rules; and before and
/// after them the file's relation between file terms is the same, its confluence, and which file terms are apart.
pub fn simplifications_keep_files()
    ensures files { SimplificationsKeepFiles }
    ensures relation { SystemsOfOneLevelsAreOneFile }
{}

/// Good steps lead from systems as files give them to such systems, and each leaves fewer rules and conditions.
pub fn simplifications_make_systems()
    ensures systems { SimplificationsMakeSystems }
    ensures fewer { SimplificationsShrink }
{}

/// A list of steps leads to one system, or fails at one step, for one reason.
pub fn simplifications_have_one_answer()
    ensures { SimplificationsHaveOneAnswer }
{}

/// What inlining makes of small systems, and where it is refused.
pub fn worked_examples()
    ensures call { InlinesACall }
    ensures known { KeepsAKnownName }
    ensures anew { NumbersAnew }
    ensures asked { KeepsALaterQuestion }
{}
