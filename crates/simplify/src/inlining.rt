//! Rules without a condition that only names a term.
ghost use Rattle.std.specs.Prelude.{◌≡◌, ◌<◌, ◌≤◌, length, map};
ghost use Rattle.rewriting.specs.Terms as math;
ghost use Rattle.rewriting.specs.Prelude.{sides, Each, terms_of_rule};
ghost use Rattle.term_core.specs.RuleView.{condition_view, rule_view};
ghost use Rattle.simplify.specs.Inlining.{CondsAnswers, InlinedAnswers};

use crate::numbering::numbered;
use std::alloc::Global;
use term_core::{Cond, MAX_CONDITIONS, Rule, Subst, TermError, try_clone};

// Appends some conditions with the instances of their left sides, if these fit.
fn push_instances(
    alloc: Global,
    values: &Subst,
    conds: &[Cond],
    out: &mut Vec<Cond>,
) -> Result<(), TermError>
    requires { Each math.Fits (sides (map condition_view conds.now)) }
    ensures { CondsAnswers values.now (map condition_view conds.now) (map condition_view out.old.items) (map condition_view out.new.items) result }
{
    match conds {
        [] => Ok(()),
        [cond, rest @ ..] => {
            let left = values.apply(alloc, &cond.left)?;
            let right = try_clone(alloc, &cond.right)?;
            out.push(Cond { left, right })?;
            push_instances(alloc, values, rest, out)
        }
    }
}

/// The rule without the condition behind the first `place`, and its left side for the variable x; the variables are numbered
/// anew. `TooLarge` where the result does not fit.
pub fn inline(alloc: Global, rule: &Rule, place: usize, x: u32) -> Result<Rule, TermError>
    requires place { place < length rule.now.conds.items }
    requires fits { Each math.Fits (terms_of_rule (rule_view rule.now)) }
    requires few { length rule.now.conds.items ≤ MAX_CONDITIONS }
    ensures { InlinedAnswers (rule_view rule.now) place x result }
{
    let cond = &rule.conds[place];
    let mut values = Subst::new(alloc);
    values.bind(x, try_clone(alloc, &cond.left)?)?;
    let right = values.apply(alloc, &rule.right)?;
    let mut behind = Vec::with_capacity(alloc, rule.conds.len())?;
    push_instances(alloc, &values, &rule.conds[place + 1..], &mut behind)?;
    Ok(numbered(alloc, &rule.left, &right, &rule.conds[..place], &behind)?)
}
