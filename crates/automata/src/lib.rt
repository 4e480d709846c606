//! Tree automata, their runs, and laws over them: definitions that contracts cite.
#![tactic(auto)]

ghost use Rattle.automata.specs.Laws.{RunsAreKept, RunsFrom0AreRuns, SymbolsAreThoseOfTerms, AutomataRefute, AutomataHaveAJudgement, AutomataHaveOneJudgement, GrownAutomataAreClosed};

/// Most choices of states for the variables of a term of which it is asked where they lead.
pub const MOST_CHOICES: u32 = 1_000_000;

/// Most states of an automaton that grows.
pub const MOST_GROWN_STATES: u32 = 64;

/// Most choices of states for a left side while an automaton grows.
pub const MOST_GROWTH_CHOICES: u32 = 100_000;

/// Most transitions of an automaton that grows.
pub const MOST_GROWN_TRANSITIONS: usize = 5_000;

/// What a term reaches in a closed automaton, its reducts reach. So conditions that an automaton judges to be never met
/// are infeasible (after Genet 1998). To a term, transitions by symbols that it does not have make no difference.
pub fn laws_of_automata()
    ensures kept { RunsAreKept }
    ensures from_0 { RunsFrom0AreRuns }
    ensures over { SymbolsAreThoseOfTerms }
    ensures refute { AutomataRefute }
{}

/// An automaton has a judgement, and one alone.
pub fn automata_have_one_judgement()
    ensures some { AutomataHaveAJudgement }
    ensures one { AutomataHaveOneJudgement }
{}

/// An automaton that grows under a system of terms over its symbols is closed, its state 0 accepts all, and it accepts the term that it grows from.
pub fn grown_automata_are_closed()
    ensures { GrownAutomataAreClosed }
{}
