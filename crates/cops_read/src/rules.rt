//! Rules with their conditions, each with a numbering of variables of its own.
ghost use Rattle.std.specs.Prelude.{◌≡◌, ◌+◌, ◌<◌, ◌≤◌, [], List, OnOk, length};
ghost use Rattle.file_text.specs.Syntax as syntax;
ghost use Rattle.cops_syntax.specs.View.{IsRule, AreRules};
ghost use Rattle.cops_read.specs.Bounds.{most_rules};
ghost use Rattle.cops_read.specs.RuleSteps.{BarAnswers, PartsAnswers, RuleAnswers, RulesAnswers};

use crate::conditions::{read_conditions, read_side};
use crate::errors::ReadError;
use crate::heads::Scope;
use cops_syntax::RuleText;
use std::alloc::Global;
use term_core::Rule;

// Refuses a bar in a file without a condition type.
fn check_bar(has_type: bool, bar: Option<usize>) -> Result<(), ReadError>
    ensures { BarAnswers has_type bar result }
{
    match bar {
        Some(at) if !has_type => Err(ReadError::ConditionsWithoutType { at }),
        _ => Ok(()),
    }
}

// The sides and the conditions of a rule, where no variable is known yet.
fn read_parts<'a>(
    alloc: Global,
    scope: &mut Scope<'a>,
    has_type: bool,
    text: &RuleText<'a>,
    number: usize,
) -> Result<Rule, ReadError>
    requires none { scope.old.variables ≡ [] }
    requires text { (t : syntax.RuleTree) × IsRule text.now t }
    ensures parts { (t : syntax.RuleTree) → IsRule text.now t → PartsAnswers scope.old.block has_type scope.old.names.symbols number t scope.new.names.symbols scope.new.variables result }
    ensures few { OnOk result (number ≤ most_rules) }
    ensures block { scope.new.block ≡ scope.old.block }
    ensures rules { scope.new.names.variables ≡ scope.old.names.variables }
{
    let left = read_side(alloc, scope, &text.left, number, 0, true)?;
    let right = read_side(alloc, scope, &text.right, number, 0, false)?;
    check_bar(has_type, text.bar)?;
    let conds = read_conditions(alloc, scope, &text.conditions, number)?;
    let vars = scope.variables.len() as u32;
    Ok(Rule {
        left,
        right,
        conds,
        vars,
    })
}

// The rule with a number. The names of its variables are put last.
fn read_rule<'a>(
    alloc: Global,
    scope: &mut Scope<'a>,
    has_type: bool,
    text: &RuleText<'a>,
    number: usize,
) -> Result<Rule, ReadError>
    requires number { length scope.old.names.variables < number }
    requires text { (t : syntax.RuleTree) × IsRule text.now t }
    ensures rule { (t : syntax.RuleTree) → IsRule text.now t → RuleAnswers scope.old.block has_type scope.old.names.symbols number t scope.old.names.variables scope.new.names.symbols scope.new.names.variables result }
    ensures one { OnOk result (length scope.new.names.variables ≡ length scope.old.names.variables + 1) }
    ensures block { scope.new.block ≡ scope.old.block }
{
    scope.variables.clear();
    let rule = read_parts(alloc, scope, has_type, text, number)?;
    let names = scope.variables.strings(alloc)?;
    scope.names.add_rule(names)?;
    Ok(rule)
}

// All rules. The names of their variables are put last. The text of a rule is let go as soon as it is read, so that its
// memory serves the rules behind it.
pub(crate) fn read_rules<'a>(
    alloc: Global,
    scope: &mut Scope<'a>,
    has_type: bool,
    texts: Vec<RuleText<'a>>,
) -> Result<Vec<Rule>, ReadError>
    requires none { scope.old.names.variables ≡ [] }
    requires texts { (trees : List syntax.RuleTree) × AreRules texts.items trees }
    ensures rules { (trees : List syntax.RuleTree) → AreRules texts.entry.items trees → RulesAnswers scope.old.block has_type scope.old.names.symbols trees scope.new.names.symbols scope.new.names.variables result }
    ensures block { scope.new.block ≡ scope.old.block }
{
    let mut rules = Vec::with_capacity(alloc, texts.len())?;
    'rules: for text in texts {
        let rule = read_rule(alloc, scope, has_type, &text, rules.len() + 1)?;
        rules.push(rule)?;
    }
    Ok(rules)
}
