//! The walk through the tries of a system, up to the first that gives a good step.
ghost use Rattle.std.specs.Prelude.{◌≡◌, ◌≤◌, ◌∷◌, [], Some, length, map, slice_get};
ghost use Rattle.rewriting.specs.Rules.{rule_at};
ghost use Rattle.simplified_spaces.specs.Tries as math;
ghost use Rattle.simplified_spaces.specs.Tries.{tries, tries_of};
ghost use Rattle.term_core.specs.RuleView.{condition_view, rule_view};
ghost use Rattle.step_search.specs.Answers.{WalkAnswers};

use crate::tries::{Made, tried};
use cc_count::{Budget, Sought};
use rule_index::IndexedSystem;
use std::alloc::Global;
use term_core::{MAX_CONDITIONS, NoMemory, Rule, System};

// One try of a rule, for a unit.
fn walk_one(
    alloc: Global,
    sys: &IndexedSystem,
    number: u32,
    rule: &Rule,
    place: u32,
    budget: &mut Budget,
) -> Result<Sought<Made>, NoMemory>
    requires rule { rule_at sys.now number ≡ Some (rule_view rule.now) }
    requires few { length rule.now.conds.items ≤ MAX_CONDITIONS }
    ensures { (t : math.Try) → slice_get (tries_of number (map condition_view rule.now.conds.items)) place ≡ Some t → WalkAnswers sys.now (t ∷ []) budget.old budget.new result }
{
    if !budget.take() {
        return Ok(Sought::Spent);
    }
    let found = tried(alloc, sys, number, rule, place)?;
    match found {
        Some(made) => Ok(Sought::Found(made)),
        None => Ok(Sought::Nothing),
    }
}

// All tries of a rule.
fn walk_rule(
    alloc: Global,
    sys: &IndexedSystem,
    number: u32,
    rule: &Rule,
    budget: &mut Budget,
) -> Result<Sought<Made>, NoMemory>
    requires { rule_at sys.now number ≡ Some (rule_view rule.now) }
    ensures { WalkAnswers sys.now (tries_of number (map condition_view rule.now.conds.items)) budget.old budget.new result }
{
    if rule.conds.is_empty() {
        return Ok(Sought::Nothing);
    }
    // The law tells that they are few.
    sys.rules_are_sound();
    let count = 2 * rule.conds.len() as u32 + 1;
    'tries: for place in 0..count {
        match walk_one(alloc, sys, number, rule, place, budget)? {
            Sought::Nothing => {}
            end => return Ok(end),
        }
    }
    Ok(Sought::Nothing)
}

// All tries of all rules.
fn walk_rules(
    alloc: Global,
    sys: &IndexedSystem,
    budget: &mut Budget,
) -> Result<Sought<Made>, NoMemory>
    ensures { WalkAnswers sys.now (tries sys.now) budget.old budget.new result }
{
    let rules = sys.rules();
    'rules: for (i, rule) in rules.iter().enumerate() {
        match walk_rule(alloc, sys, i as u32 + 1, rule, budget)? {
            Sought::Nothing => {}
            end => return Ok(end),
        }
    }
    Ok(Sought::Nothing)
}

/// The first of the system's tries that gives a good step, at a unit for each try.
pub fn walk_through(
    alloc: Global,
    sys: &System,
    budget: &mut Budget,
) -> Result<Sought<Made>, NoMemory>
    ensures { WalkAnswers sys.now (tries sys.now) budget.old budget.new result }
{
    let indexed = IndexedSystem::new(alloc, sys)?;
    walk_rules(alloc, &indexed, budget)
}
