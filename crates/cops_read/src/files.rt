//! The system of a whole syntax tree; rules with join conditions become oriented ones, with two symbols more.
ghost use Rattle.std.specs.Prelude.{◌≡◌, ◌&&◌, [], IfOk, map};
ghost use Rattle.file_text.specs.Syntax as syntax;
ghost use Rattle.cops_syntax.specs.View.{IsFileText, names_view};
ghost use Rattle.cops_names.specs.NameLists.{with_names};
ghost use Rattle.cops_read.specs.File.{is_join, IsSystemOf};
ghost use Rattle.cops_read.specs.RuleSteps.{have_bars, ListAnswers, FileAnswers, JoinedAnswers};

use crate::block::Block;
use crate::errors::ReadError;
use crate::heads::Scope;
use crate::read_names::ReadNames;
use crate::rules::read_rules;
use cops_names::{NameSet, Names};
use cops_syntax::{ConditionType, FileText, Name, RuleText};
use join_names::add_join_names;
use std::alloc::Global;
use term_core::{NoMemory, System, join_sound};

/// The names of the variables' block, each once.
pub fn block_names<'a>(alloc: Global, names: &[Name<'a>]) -> Result<NameSet<'a>, NoMemory>
    ensures { IfOk result (λ block. block ≡ with_names [] (map (λ n. n.text) (names_view names.now))) }
{
    let mut block = NameSet::new(alloc);
    'names: for name in names {
        block.add(name.text)?;
    }
    Ok(block)
}

// The system of the tree's rules, with its names, or the first refusal.
fn read_list<'a>(alloc: Global, file: FileText<'a>) -> Result<(System, Names), ReadError>
    requires { (tree : syntax.FileTree) × IsFileText file tree }
    ensures { (tree : syntax.FileTree) → IsFileText file.entry tree → ListAnswers tree result }
{
    let FileText {
        condition_type,
        variables,
        rules,
    } = file;
    let has_type = condition_type.is_some();
    let mut scope = Scope {
        block: Block::new(block_names(alloc, &variables)?),
        names: ReadNames::new(alloc),
        variables: NameSet::new(alloc),
    };
    let rules = read_rules(alloc, &mut scope, has_type, rules)?;
    let names = scope.names.into_names();
    let arities = names.arities(alloc)?;
    let system = System::of_sound(arities, rules);
    Ok((system, names))
}

fn have_conditions(rules: &[RuleText]) -> bool
    ensures { result ≡ have_bars rules.now }
{
    for rule in rules {
        if rule.bar.is_some() {
            return true;
        }
    }
    false
}

// Whether there are conditions that ask for common reducts.
fn asks_joins(file: &FileText) -> bool
    ensures { result ≡ (is_join file.now.condition_type && have_bars file.now.rules.items) }
{
    match file.condition_type {
        Some(ConditionType::Join) => have_conditions(&file.rules),
        Some(ConditionType::Oriented) | None => false,
    }
}

// The oriented system of join rules, with two symbols more. The rules are sound, and the limits leave room for `join`.
fn join_list(alloc: Global, list: System, names: Names) -> Result<(System, Names), ReadError>
    requires { (tree : syntax.FileTree) × IsSystemOf tree list names }
    ensures { (tree : syntax.FileTree) → IsSystemOf tree list names → JoinedAnswers tree result }
{
    let mut names = names;
    add_join_names(alloc, &mut names)?;
    let system = join_sound(alloc, list)?;
    Ok((system, names))
}

/// The system that the tree means, with its names, or the first refusal.
pub fn read_file<'a>(alloc: Global, file: FileText<'a>) -> Result<(System, Names), ReadError>
    requires { (tree : syntax.FileTree) × IsFileText file tree }
    ensures { (tree : syntax.FileTree) → IsFileText file.entry tree → FileAnswers tree result }
{
    let joins = asks_joins(&file);
    let (list, names) = read_list(alloc, file)?;
    if joins {
        join_list(alloc, list, names)
    } else {
        Ok((list, names))
    }
}
