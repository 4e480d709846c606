//! Runs from state 0 for each variable: whether that state accepts all terms, and whether a term reaches an accepting state.
ghost use Rattle.std.specs.Prelude.{◌≡◌, ◌↔◌, ◌<◌, ℕ, [], None, Some, length, replicate, IfOk, OnOk, IsTrue};
ghost use Rattle.number_sets.specs.Relation.{Relates};
ghost use Rattle.rewriting.specs.Terms as math;
ghost use Rattle.certificates.specs.Evidence as evidence;
ghost use Rattle.automata.specs.Runs.{Reach, at, RunsFrom0};
ghost use Rattle.automata.specs.Closed.{AcceptsAll};
ghost use Rattle.automata.specs.Evidence.{IsAccepted};
ghost use Rattle.term_core.specs.View.{view};
ghost use Rattle.cert_model.specs.EvidenceView.{automaton_view};
ghost use Rattle.automaton_runs.specs.Counted.{Finds};
ghost use Rattle.tree_automata.specs.Accepts.{IsMarked, IsOneAccepting};

use automaton_runs::{AutomatonIndex, Choices, reached};
use cert_model::Automaton;
use number_sets::NumberRelation;
use std::alloc::Global;
use term_core::{NoMemory, System, Term};

fn are_zeros(numbers: &[u32], count: u32) -> bool
    ensures { IsTrue result ↔ (numbers.now ≡ replicate count 0) }
{
    if numbers.len() != count as usize {
        return false;
    }
    for number in numbers {
        if *number != 0 {
            return false;
        }
    }
    true
}

// Whether the symbol leads from states 0 to state 0.
fn keeps_zero(index: &AutomatonIndex<'_>, f: u32, arity: u32) -> bool
    ensures { IsTrue result ↔ Finds index.now (Some f) (replicate arity 0) 0 }
{
    for transition in index.with_symbol(f) {
        if transition.target == 0 && are_zeros(&transition.args, arity) {
            return true;
        }
    }
    false
}

// Whether state 0 accepts all.
pub(crate) fn accepts_all(index: &AutomatonIndex<'_>, sys: &System) -> bool
    ensures { IsTrue result ↔ AcceptsAll sys.now (Finds index.now) }
{
    sys.rules_are_sound();
    for (f, arity) in sys.arities().iter().enumerate() {
        if !keeps_zero(index, f as u32, *arity) {
            return false;
        }
    }
    index.has(None, &[], 0)
}

// Whether one of the states that are related to some number is accepting.
pub(crate) fn is_one_accepting(reached: &NumberRelation, a: &Automaton) -> bool
    ensures { IsTrue result ↔ IsOneAccepting (automaton_view a.now) reached.now }
{
    for q in &a.accepting {
        if *q < a.states && reached.has_left(*q) {
            return true;
        }
    }
    false
}

// The states that a term reaches where its variables have the state 0, each with the number 0.
fn reached_from_0(
    alloc: Global,
    index: &AutomatonIndex<'_>,
    t: &Term,
) -> Result<NumberRelation, NoMemory>
    ensures { IfOk result (λ r. (q k : ℕ) → Relates r q k ↔ ((k ≡ 0) × Reach (Finds index.now) (at (λ x. 0)) (view t.now) q)) }
{
    let choices = Choices::zeros(alloc, 0)?;
    let batch = choices.batch(alloc, &[])?;
    reached(alloc, index, &batch, &[], t)
}

// Whether the term, its variables at the state 0, reaches an accepting state.
pub(crate) fn is_accepted(
    alloc: Global,
    index: &AutomatonIndex<'_>,
    a: &Automaton,
    t: &Term,
) -> Result<bool, NoMemory>
    requires { index.now.automaton ≡ automaton_view a.now }
    ensures { IfOk result (λ yes. IsTrue yes ↔ IsAccepted index.now.symbols (automaton_view a.now) (view t.now)) }
{
    let reached = reached_from_0(alloc, index, t)?;
    Ok(is_one_accepting(&reached, a))
}

// Marks each of so many states that is related to some number.
fn mark_all(reached: &NumberRelation, states: u32, out: &mut [bool])
    requires { length out.old ≡ states }
    ensures marked { (q : ℕ) → q < length out.new → IsMarked out.new q ↔ ((k : ℕ) × Relates reached.now q k) }
    ensures len { length out.new ≡ length out.old }
{
    for q in 0..states {
        out[q as usize] = reached.has_left(q);
    }
}

/// A source of the states that terms reach.
pub trait Runs {
    /// The automaton.
    ghost automaton: { Self → evidence.Automaton };

    /// Marks the states that a term reaches where its variables have the state 0; whether one of them is accepting.
    /// For a system over whose symbols the term is, these are the transitions that count.
    fn reaches(&self, alloc: Global, t: &Term, out: &mut [bool]) -> Result<bool, NoMemory>
        requires long { length out.old ≡ (automaton self.now).states }
        requires fits { math.Fits (view t.now) }
        ensures marks { OnOk result ((q : ℕ) → q < (automaton self.now).states → IsMarked out.new q ↔ RunsFrom0 None (automaton self.now) (view t.now) q) }
        ensures hit { IfOk result (λ hit. IsTrue hit ↔ IsAccepted None (automaton self.now) (view t.now)) };
}

impl Runs for Automaton {
    ghost automaton = { automaton_view };

    fn reaches(&self, alloc: Global, t: &Term, out: &mut [bool]) -> Result<bool, NoMemory> {
        let index = AutomatonIndex::new(alloc, None, self)?;
        let reached = reached_from_0(alloc, &index, t)?;
        mark_all(&reached, self.states, out);
        Ok(is_one_accepting(&reached, self))
    }
}
