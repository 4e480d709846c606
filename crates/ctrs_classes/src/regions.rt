//! Variables in regions of a rule, its left side and the sides of its first conditions; and the first variable that is repeated.
ghost use Rattle.std.specs.Prelude.{◌≡◌, ◌+◌, ◌≤◌, ◌&&◌, ◌*◌, not, IfOk, map};
ghost use Rattle.rewriting.specs.Prelude.{size, size_all, left_sides, sides, variable_occurrences, variable_occurrences_of};
ghost use Rattle.rewriting.specs.Variables as math;
ghost use Rattle.term_core.specs.Prelude.{view, views, condition_view};
ghost use Rattle.ctrs_classes.specs.Walks.{SeenAnswers, any_where, are_open, first_where, is_open, same};
ghost use Rattle.ctrs_classes.specs.RegionView.{in_region};

use term_core::{Cond, MAX_NODES, Term, occurs, occurs_in_right_sides};

fn occurs_left(x: u32, conds: &[Cond]) -> bool
    ensures { result ≡ math.occurs_in x (left_sides (map condition_view conds.now)) }
{
    for cond in conds {
        if occurs(x, &cond.left) {
            return true;
        }
    }
    false
}

/// Where a variable may stand: in a rule's left side, in the first left sides and in the first right
/// sides of its conditions.
#[derive(Clone, Copy)]
pub struct Region<'a> {
    pub left: &'a Term,
    pub asked: &'a [Cond],
    pub known: &'a [Cond],
}

// Whether the variable stands there.
fn stands(x: u32, region: &Region<'_>) -> bool
    ensures { result ≡ in_region region.now x }
{
    occurs(x, region.left) || occurs_left(x, region.asked) || occurs_in_right_sides(x, region.known)
}

fn is_wanted(x: u32, region: &Region<'_>, inside: bool) -> bool
    ensures { result ≡ same inside (in_region region.now x) }
{
    if inside {
        stands(x, region)
    } else {
        !stands(x, region)
    }
}

// The first variable of a term that stands in the region, or that does not.
#[cycle(first)]
#[tactic(auto, using(rewriting::proofs::Lengths::size_positive))]
pub(crate) fn first_variable(t: &Term, region: &Region<'_>, inside: bool) -> Option<u32>
    ensures { result ≡ first_where (λ x. same inside (in_region region.now x)) (variable_occurrences (view t.now)) }
{
    match t {
        Term::Var(x) => {
            if is_wanted(*x, region, inside) {
                Some(*x)
            } else {
                None
            }
        }
        Term::Fun(_, args) => first_among(args, region, inside),
    }
}

#[cycle(first)]
#[tactic(auto, using(rewriting::proofs::Lengths::size_positive))]
fn first_among(args: &[Term], region: &Region<'_>, inside: bool) -> Option<u32>
    ensures { result ≡ first_where (λ x. same inside (in_region region.now x)) (variable_occurrences_of (views args.now)) }
{
    match args {
        [] => None,
        [first, rest @ ..] => match first_variable(first, region, inside) {
            Some(x) => Some(x),
            None => first_among(rest, region, inside),
        },
    }
}

// With the variables numbered as they come, and those below `next` seen: the first that is seen again, or
// how many there are then, each counted as it stands.
#[cycle(repeated)]
#[tactic(auto, using(rewriting::proofs::Lengths::size_positive))]
pub(crate) fn first_repeated(t: &Term, next: u32) -> Result<u32, u32>
    requires { next + size (view t.now) ≤ 2 * MAX_NODES }
    ensures found { SeenAnswers next (variable_occurrences (view t.now)) result }
    ensures bounded { IfOk result (λ n. n ≤ next + size (view t.now)) }
{
    match t {
        Term::Var(x) => { if *x < next { Err(*x) } else { Ok(next + 1) } }
        Term::Fun(_, args) => first_repeated_among(args, next),
    }
}

#[cycle(repeated)]
#[tactic(auto, using(rewriting::proofs::Lengths::size_positive))]
fn first_repeated_among(args: &[Term], next: u32) -> Result<u32, u32>
    requires { next + size_all (views args.now) ≤ 2 * MAX_NODES }
    ensures found { SeenAnswers next (variable_occurrences_of (views args.now)) result }
    ensures bounded { IfOk result (λ n. n ≤ next + size_all (views args.now)) }
{
    match args {
        [] => Ok(next),
        [first, rest @ ..] => {
            let after = first_repeated(first, next)?;
            first_repeated_among(rest, after)
        }
    }
}

// Whether a condition asks of the variable.
fn is_asked(x: u32, conds: &[Cond]) -> bool
    ensures { result ≡ math.occurs_in x (sides (map condition_view conds.now)) }
{
    for cond in conds {
        if occurs(x, &cond.left) || occurs(x, &cond.right) {
            return true;
        }
    }
    false
}

// Whether a variable of the term stands in some conditions, and not in the region.
#[cycle(shares)]
#[tactic(auto, using(rewriting::proofs::Lengths::size_positive))]
pub(crate) fn shares_unknown(t: &Term, region: &Region<'_>, conds: &[Cond]) -> bool
    ensures { result ≡ any_where (λ x. math.occurs_in x (sides (map condition_view conds.now)) && not (in_region region.now x)) (variable_occurrences (view t.now)) }
{
    match t {
        Term::Var(x) => is_asked(*x, conds) && !stands(*x, region),
        Term::Fun(_, args) => share_unknown(args, region, conds),
    }
}

#[cycle(shares)]
#[tactic(auto, using(rewriting::proofs::Lengths::size_positive, crate::proofs::Lists::any_append, crate::proofs::Lists::leaves_split))]
fn share_unknown(args: &[Term], region: &Region<'_>, conds: &[Cond]) -> bool
    ensures { result ≡ any_where (λ x. math.occurs_in x (sides (map condition_view conds.now)) && not (in_region region.now x)) (variable_occurrences_of (views args.now)) }
{
    match args {
        [] => false,
        [first, rest @ ..] => {
            shares_unknown(first, region, conds) || share_unknown(rest, region, conds)
        }
    }
}

// Whether a variable occurs in the term.
#[cycle(has_variable)]
#[tactic(auto, using(rewriting::proofs::Lengths::size_positive))]
pub(crate) fn has_variable(t: &Term) -> bool
    ensures { result ≡ is_open (view t.now) }
{
    match t {
        Term::Var(_) => true,
        Term::Fun(_, args) => have_variable(args),
    }
}

#[cycle(has_variable)]
#[tactic(auto, using(rewriting::proofs::Lengths::size_positive))]
fn have_variable(args: &[Term]) -> bool
    ensures { result ≡ are_open (views args.now) }
{
    match args {
        [] => false,
        [first, rest @ ..] => has_variable(first) || have_variable(rest),
    }
}
