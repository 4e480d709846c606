//! Terms as transitions: how many subterms have states of their own, and the transitions by which a term reaches a state.
ghost use Rattle.std.specs.Prelude.{◌≡◌, ◌<◌, ◌+◌, ◌^◌, ◌++◌, map, IfOk, OnOk};
ghost use Rattle.rewriting.specs.Terms.{size, size_all};
ghost use Rattle.automata.specs.Closed as closed;
ghost use Rattle.automata.specs.Growth as growth;
ghost use Rattle.term_core.specs.View.{view, views};
ghost use Rattle.cert_model.specs.EvidenceView.{transition_view};

use cert_model::Transition;
use std::alloc::Global;
use term_core::{NoMemory, Term};

/// The number of subterms that are no variables.
#[tactic(auto, using(crate::proofs::Sizes::inner_size, crate::proofs::Sizes::inner_in_size))]
pub fn inner(t: &Term) -> u32
    requires { size (view t.now) < 2 ^ 32 }
    ensures { result ≡ growth.inner (view t.now) }
{
    match t {
        Term::Var(_) => 0,
        Term::Fun(_, args) => {
            let mut count = 1;
            for arg in args {
                count += inner(arg);
            }
            count
        }
    }
}

/// The number of proper ones.
pub fn proper(t: &Term) -> u32
    requires { size (view t.now) < 2 ^ 32 }
    ensures { result ≡ growth.proper (view t.now) }
{
    match t {
        Term::Var(_) => 0,
        Term::Fun(_, _) => inner(t) - 1,
    }
}

/// The state of the first occurrence of a variable among variables with their states; 0 where there is none.
pub fn state_of(leaves: &[u32], states: &[u32], x: u32) -> u32
    ensures { result ≡ closed.state_of leaves.now states.now x }
{
    let count = leaves.len().min(states.len());
    for i in 0..count {
        if x == leaves[i] {
            return states[i];
        }
    }
    0
}

/// The state of a term whose own state is `n` where it is no variable.
pub fn top(leaves: &[u32], states: &[u32], n: u32, t: &Term) -> u32
    ensures { result ≡ growth.top (closed.state_of leaves.now states.now) n (view t.now) }
{
    match t {
        Term::Var(x) => state_of(leaves, states, *x),
        Term::Fun(_, _) => n,
    }
}

/// Variables with their states: a variable has the state of its first occurrence, 0 where it has none.
#[derive(Clone, Copy)]
pub struct Assigned<'a> {
    pub leaves: &'a [u32],
    pub states: &'a [u32],
}

// The states of some terms.
fn tops(alloc: Global, values: Assigned<'_>, n: u32, args: &[Term]) -> Result<Vec<u32>, NoMemory>
    requires { n + size_all (views args.now) < 2 ^ 32 }
    ensures { IfOk result (λ qs. qs.items ≡ growth.tops (closed.state_of values.entry.leaves.now values.entry.states.now) n (views args.now)) }
{
    let mut qs = Vec::with_capacity(alloc, args.len())?;
    let mut next = n;
    for arg in args {
        qs.push(top(values.leaves, values.states, next, arg))?;
        next += inner(arg);
    }
    Ok(qs)
}

/// Puts the transitions of a term's subterms last: its own state is `q`, and its proper subterms have the states
/// `n`, `n + 1`, .. in preorder.
pub fn push_grown(
    alloc: Global,
    values: Assigned<'_>,
    n: u32,
    t: &Term,
    q: u32,
    out: &mut Vec<Transition>,
) -> Result<(), NoMemory>
    requires { n + size (view t.now) < 2 ^ 32 }
    ensures { OnOk result (map transition_view out.new.items ≡ map transition_view out.old.items ++ growth.grown (closed.state_of values.entry.leaves.now values.entry.states.now) n (view t.now) q) }
{
    match t {
        Term::Var(_) => Ok(()),
        Term::Fun(f, args) => {
            out.push(Transition {
                symbol: Some(*f),
                args: tops(alloc, values, n, args)?,
                target: q,
            })?;
            let mut next = n;
            for arg in args {
                push_grown(alloc, values, next + 1, arg, next, out)?;
                next += inner(arg);
            }
            Ok(())
        }
    }
}
