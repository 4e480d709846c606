//! The run of unification with its limits on size: definitions that contracts cite, and laws over them.
#![tactic(auto)]

ghost use Rattle.unifier_run.specs.Laws.{MapsHaveTheValues, OutcomesAreUnique, UnifiersAreMostGeneral, UnifiersAreIdempotent, ClashesHaveNoUnifier};
ghost use Rattle.unifier_run.specs.Totality.{RunsHaveOutcomes, TermsAreJudged, OverlapsAreDefined};

/// Most overlaps of a system.
pub const MOST_OVERLAPS: usize = 20_000;

/// A run has at most one outcome. Its unifier is most general and idempotent, and a clash means that
/// there is none (Baader and Nipkow, Term Rewriting and All That, section 4.6).
pub fn laws_of_runs()
    ensures unique { OutcomesAreUnique }
    ensures most_general { UnifiersAreMostGeneral }
    ensures idempotent { UnifiersAreIdempotent }
    ensures clash { ClashesHaveNoUnifier }
    ensures values { MapsHaveTheValues }
{}

/// Every run has an outcome, every term is judged, and every system has its list of overlaps, whatever its size, or a
/// first refusal.
pub fn runs_are_total()
    ensures runs { RunsHaveOutcomes }
    ensures terms { TermsAreJudged }
    ensures overlaps { OverlapsAreDefined }
{}
