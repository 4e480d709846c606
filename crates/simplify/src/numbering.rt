//! Rules with their variables numbered anew.
ghost use Rattle.std.specs.Prelude.{◌≡◌, ◌<◌, ◌^◌, ◌++◌, [], IfOk, OnOk, map, length};
ghost use Rattle.rewriting.specs.Systems.{rule_variables};
ghost use Rattle.term_core.specs.Prelude.{view, condition_view, rule_view};
ghost use Rattle.simplifications.specs.Inlining.{numbered as numbered_rule};
ghost use Rattle.simplify.specs.Rules.{rule_of};
ghost use Rattle.simplify.specs.Numbering.{AddsNumbered, Progress};

use renumbering::Numbering;
use std::alloc::Global;
use term_core::{Cond, NoMemory, Rule, Term};

// Appends some conditions with numbers for their variables.
fn push_numbered(
    alloc: Global,
    row: &mut Numbering,
    conds: &[Cond],
    out: &mut Vec<Cond>,
) -> Result<(), NoMemory>
    ensures { OnOk result (AddsNumbered (map condition_view conds.now) (map condition_view out.old.items) row.old (map condition_view out.new.items) row.new) }
{
    for cond in conds {
        let left = row.numbered(alloc, &cond.left)?;
        let right = row.numbered(alloc, &cond.right)?;
        out.push(Cond { left, right })?;
    }
    Ok(())
}

// Both sides of a rule and its conditions, in front and behind, with numbers for their variables from an empty row.
fn numbered_parts(
    alloc: Global,
    row: &mut Numbering,
    left: &Term,
    right: &Term,
    front: &[Cond],
    behind: &[Cond],
) -> Result<(Term, Term, Vec<Cond>), NoMemory>
    requires { row.old ≡ [] }
    ensures { IfOk result (λ made. Progress (view left.now) (view right.now) (view made.0) (view made.1) (map condition_view front.now ++ map condition_view behind.now) (map condition_view made.2.items) row.new) }
{
    let new_left = row.numbered(alloc, left)?;
    let new_right = row.numbered(alloc, right)?;
    let mut conds = Vec::with_capacity(alloc, front.len() + behind.len())?;
    push_numbered(alloc, row, front, &mut conds)?;
    push_numbered(alloc, row, behind, &mut conds)?;
    Ok((new_left, new_right, conds))
}

/// The rule of these terms and of the conditions in front and behind, its variables numbered by first occurrence.
pub fn numbered(
    alloc: Global,
    left: &Term,
    right: &Term,
    front: &[Cond],
    behind: &[Cond],
) -> Result<Rule, NoMemory>
    requires { length (rule_variables (rule_of (view left.now) (view right.now) (map condition_view front.now ++ map condition_view behind.now))) < 2 ^ 31 }
    ensures rule { IfOk result (λ q. rule_view q ≡ numbered_rule (rule_of (view left.now) (view right.now) (map condition_view front.now ++ map condition_view behind.now))) }
    ensures count { IfOk result (λ q. q.vars ≡ length (rule_variables (rule_view q))) }
{
    let mut row = Numbering::new(alloc);
    let (left, right, conds) = numbered_parts(alloc, &mut row, left, right, front, behind)?;
    Ok(Rule {
        left,
        right,
        conds,
        vars: row.len() as u32,
    })
}
