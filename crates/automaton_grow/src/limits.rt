//! The limits of growth: on the states of the automaton, and on the choices of states for a left side.
ghost use Rattle.std.specs.Prelude.{◌<◌, ◌≤◌, ◌+◌, ◌^◌, ◌↔◌, ◌*◌, IsTrue, IfOk, map, length};
ghost use Rattle.rewriting.specs.Prelude.{Fits, DoSidesFit};
ghost use Rattle.term_core.specs.Prelude.{view, rule_view};
ghost use Rattle.automaton_grow.specs.Limits.{all_proper, CountAnswers, StatesAnswer, WidthAnswers, IsWideFor};

use crate::GrowError;
use crate::sides::{inner, proper};
use automata::{MOST_GROWN_STATES, MOST_GROWTH_CHOICES};
use automaton_runs::{has_more_choices, occurrences};
use std::alloc::Global;
use term_core::{MAX_NODES, NoMemory, Rule, System, Term};

// The count with the states of these right sides, where there are not too many.
fn count_from(rules: &[Rule], first: u32) -> Option<u32>
    requires fit { DoSidesFit (map rule_view rules.now) }
    requires small { first ≤ 2 * MAX_NODES }
    ensures { CountAnswers (first + all_proper (map rule_view rules.now)) result }
{
    let mut count = first;
    for rule in rules {
        if count > MOST_GROWN_STATES {
            return None;
        }
        count += proper(&rule.right);
    }
    if count > MOST_GROWN_STATES {
        return None;
    }
    Some(count)
}

/// The number of states, where there are at most 64.
pub fn count_states(sys: &System, s: &Term) -> Option<u32>
    requires { Fits (view s.now) }
    ensures { StatesAnswer sys.now (view s.now) result }
{
    count_from(sys.rules(), 1 + inner(s))
}

// Whether there are too many choices of so many states for a term.
fn is_wide(alloc: Global, states: u32, left: &Term) -> Result<bool, NoMemory>
    ensures { IfOk result (λ yes. IsTrue yes ↔ IsWideFor states (view left.now)) }
{
    let names = occurrences(alloc, left)?;
    Ok(has_more_choices(states, names.len(), MOST_GROWTH_CHOICES))
}

/// Refuses the first rule, from 1, for whose left side there are too many choices of so many states.
pub fn check_widths(alloc: Global, rules: &[Rule], states: u32) -> Result<(), GrowError>
    requires { length rules.now < 2 ^ 31 }
    ensures { WidthAnswers states (map rule_view rules.now) result }
{
    for (i, rule) in rules.iter().enumerate() {
        if is_wide(alloc, states, &rule.left)? {
            return Err(GrowError::TooWide { rule: i as u32 + 1 });
        }
    }
    Ok(())
}
