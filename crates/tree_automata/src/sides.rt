//! Where a right side is kept: at the states that it reaches or, if it is a variable, at those that include its state.
ghost use Rattle.std.specs.Prelude.{◌≡◌, ◌↔◌, length, IfOk, IsTrue};
ghost use Rattle.number_sets.specs.Sets.{members};
ghost use Rattle.automata.specs.Closed.{Includes};
ghost use Rattle.term_core.specs.View.{view};
ghost use Rattle.automaton_runs.specs.Choices.{occurrences_of};
ghost use Rattle.automaton_runs.specs.Counted.{Finds};
ghost use Rattle.automaton_runs.specs.Reached.{AreWhere};
ghost use Rattle.tree_automata.specs.Kept.{AreIncluding, IsInclusion, IsInclusionIfAsked, IsVariable, IsKeptBy};

use automaton_runs::{AutomatonIndex, Batch, reached};
use number_sets::{NumberRelation, NumberSet};
use std::alloc::Global;
use term_core::{NoMemory, System, Term};

// Whether each transition to p has its twin to q.
fn includes(index: &AutomatonIndex<'_>, q: u32, p: u32) -> bool
    ensures { IsTrue result ↔ Includes (Finds index.now) q p }
{
    for transition in index.with_target(p) {
        if !index.has(transition.symbol, &transition.args, q) {
            return false;
        }
    }
    true
}

// The states that include p.
fn including(alloc: Global, index: &AutomatonIndex<'_>, p: u32) -> Result<NumberSet, NoMemory>
    ensures { IfOk result (λ set. AreIncluding index.now p (members set)) }
{
    let mut set = NumberSet::new(alloc);
    for q in 0..index.states() {
        if includes(index, q, p) {
            set.insert(q)?;
        }
    }
    Ok(set)
}

// Each state with those that include it.
fn inclusion(alloc: Global, index: &AutomatonIndex<'_>) -> Result<NumberRelation, NoMemory>
    ensures { IfOk result (IsInclusion index.now) }
{
    let mut made = NumberRelation::new(alloc);
    for p in 0..index.states() {
        made.insert_all(alloc, p, &including(alloc, index, p)?)?;
    }
    Ok(made)
}

fn is_variable(t: &Term) -> bool
    ensures { IsTrue result ↔ IsVariable (view t.now) }
{
    match t {
        Term::Var(_) => true,
        Term::Fun(_, _) => false,
    }
}

// Each state with those that include it, if a right side is a variable: to compare all states takes long.
pub(crate) fn inclusion_if_asked(
    alloc: Global,
    index: &AutomatonIndex<'_>,
    sys: &System,
) -> Result<NumberRelation, NoMemory>
    ensures { IfOk result (IsInclusionIfAsked sys.now index.now) }
{
    for rule in sys.rules() {
        if is_variable(&rule.right) {
            return inclusion(alloc, index);
        }
    }
    Ok(NumberRelation::new(alloc))
}

// The states at which a right side is kept, by the choices of a batch. A variable is kept where a state includes its own.
pub(crate) fn kept(
    alloc: Global,
    index: &AutomatonIndex<'_>,
    inclusion: &NumberRelation,
    batch: &Batch<'_>,
    names: &[u32],
    right: &Term,
) -> Result<NumberRelation, NoMemory>
    requires { length names.now ≡ occurrences_of batch.now }
    ensures { IfOk result (AreWhere batch.now (IsKeptBy inclusion.now index.now names.now (view right.now))) }
{
    let reached = reached(alloc, index, batch, names, right)?;
    match right {
        Term::Var(_) => reached.carried(alloc, inclusion),
        Term::Fun(_, _) => Ok(reached),
    }
}
