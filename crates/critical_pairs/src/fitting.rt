//! Whether the terms of a critical pair fit, by measures of instances that are not built.
ghost use Rattle.std.specs.Prelude.{◌≡◌, ◌+◌, ◌<◌, ◌≤◌, ◌⊎◌, ◌↔◌, IsTrue, IsSome, IfSome, IfNone, Some, map};
ghost use Rattle.rewriting.specs.Terms as math;
ghost use Rattle.rewriting.specs.Prelude.{Fits, subterm, replace, apply, values_of, sides, Each, CriticalPair, conditions_under};
ghost use Rattle.unifier_run.specs.Overlaps.{DoesPairFit};
ghost use Rattle.term_core.specs.Prelude.{view, condition_view, rule_view};
ghost use Rattle.critical_pairs.specs.Building.{IsMade};

use term_core::{Cond, MAX_DEPTH, MAX_NODES, Rule, Subst, Term, room_after, subterm};

// The room that the instance of a term leaves of a number of nodes, where it has no more nodes and levels than these.
#[tactic(auto, using(term_core::proofs::Instances::size_some, term_core::proofs::Instances::depth_some))]
fn room_under(m: &Subst, t: &Term, room: u32, levels: u32) -> Option<u32>
    ensures nodes { IfSome result (λ left. left + math.size (apply (values_of m.now) (view t.now)) ≡ room) }
    ensures levels { IfSome result (λ _. math.depth (apply (values_of m.now) (view t.now)) ≤ levels) }
    ensures none { IfNone result ((room < math.size (apply (values_of m.now) (view t.now))) ⊎ (levels < math.depth (apply (values_of m.now) (view t.now)))) }
{
    if room == 0 || levels == 0 {
        return None;
    }
    match t {
        Term::Var(x) => match m.get(*x) {
            Some(u) => room_after(u, room, levels),
            None => Some(room - 1),
        },
        Term::Fun(_, args) => {
            let mut left = room - 1;
            for arg in args {
                left = room_under(m, arg, left, levels - 1)?;
            }
            Some(left)
        }
    }
}

fn does_instance_fit(m: &Subst, t: &Term) -> bool
    ensures { IsTrue result ↔ Fits (apply (values_of m.now) (view t.now)) }
{
    room_under(m, t, MAX_NODES, MAX_DEPTH).is_some()
}

// Whether the instance of a term fits, and also where the instance of another replaces its part at a position.
fn do_both_fit(m: &Subst, t: &Term, pos: &[u32], u: &Term) -> bool
    requires { IsSome (subterm (view t.now) pos.now) }
    ensures { (v : math.Term) → replace (apply (values_of m.now) (view t.now)) pos.now (apply (values_of m.now) (view u.now)) ≡ Some v → (IsTrue result ↔ Fits (apply (values_of m.now) (view t.now)) × Fits v) }
{
    let Some(part) = subterm(t, pos) else {
        return false;
    };
    let Some(spare) = room_under(m, t, MAX_NODES, MAX_DEPTH) else {
        return false;
    };
    let Some(rest) = room_under(m, part, MAX_NODES, MAX_DEPTH) else {
        return false;
    };
    // The part's nodes are free again. All levels beside it are known to fit.
    let room = spare + (MAX_NODES - rest);
    room_under(m, u, room, MAX_DEPTH - pos.len() as u32).is_some()
}

fn do_conditions_fit(m: &Subst, conds: &[Cond]) -> bool
    ensures { IsTrue result ↔ Each Fits (sides (conditions_under (values_of m.now) (map condition_view conds.now))) }
{
    for cond in conds {
        if !does_instance_fit(m, &cond.left) || !does_instance_fit(m, &cond.right) {
            return false;
        }
    }
    true
}

/// Whether the pair that m makes of two rules at a position fits.
pub fn does_pair_fit(m: &Subst, inner: &Rule, outer: &Rule, pos: &[u32]) -> bool
    requires { IsSome (subterm (view outer.now.left) pos.now) }
    ensures { (pair : CriticalPair) → IsMade (values_of m.now) pos.now (rule_view inner.now) (rule_view outer.now) pair → (IsTrue result ↔ DoesPairFit pair) }
{
    if !do_both_fit(m, &outer.left, pos, &inner.right) || !does_instance_fit(m, &outer.right) {
        return false;
    }
    do_conditions_fit(m, &inner.conds) && do_conditions_fit(m, &outer.conds)
}
