//! Whether automata, and conditions, are the same; copies of conditions.
ghost use Rattle.std.specs.Prelude.{◌≡◌, IfOk, IsTrue, map};
ghost use Rattle.term_core.specs.RuleView.{condition_view};
ghost use Rattle.cert_model.specs.EvidenceView.{transition_view, automaton_view};

use cert_model::{Automaton, Transition};
use std::alloc::Global;
use term_core::{Cond, NoMemory, equal, try_clone};

fn is_same_transition(a: &Transition, b: &Transition) -> bool
    ensures { IsTrue result → transition_view a.now ≡ transition_view b.now }
{
    a.symbol == b.symbol && a.target == b.target && a.args == b.args
}

fn are_same_transitions(first: &[Transition], second: &[Transition]) -> bool
    ensures { IsTrue result → map transition_view first.now ≡ map transition_view second.now }
{
    if first.len() != second.len() {
        return false;
    }
    'transitions: for i in 0..first.len() {
        let (Some(a), Some(b)) = (first.get(i), second.get(i)) else {
            return false;
        };
        if !is_same_transition(a, b) {
            return false;
        }
    }
    true
}

/// Whether two automata are the same.
pub(crate) fn is_same(a: &Automaton, b: &Automaton) -> bool
    ensures { IsTrue result → automaton_view a.now ≡ automaton_view b.now }
{
    a.states == b.states
        && a.accepting == b.accepting
        && are_same_transitions(&a.transitions, &b.transitions)
}

/// Whether two conditions are the same.
pub fn is_same_condition(a: &Cond, b: &Cond) -> bool
    ensures { IsTrue result → condition_view a.now ≡ condition_view b.now }
{
    equal(&a.left, &b.left) && equal(&a.right, &b.right)
}

/// A copy of a condition.
pub fn copied_condition(alloc: Global, cond: &Cond) -> Result<Cond, NoMemory>
    ensures { IfOk result (λ copy. condition_view copy ≡ condition_view cond.now) }
{
    Ok(Cond {
        left: try_clone(alloc, &cond.left)?,
        right: try_clone(alloc, &cond.right)?,
    })
}
