//! The variable or symbol that an identifier of a term means: new names are numbered as they come, within the limits of a file.
ghost use Rattle.std.specs.Prelude.{◌≡◌, ◌+◌, ◌<◌, ◌≤◌, ◌^◌, ℕ, List, Option, OnOk, length};
ghost use Rattle.cops_syntax.specs.View.{node_view};
ghost use Rattle.cops_read.specs.Bounds.{most_variables};
ghost use Rattle.cops_read.specs.Refusals.{limit_cause, variable_cause, symbol_cause};
ghost use Rattle.cops_read.specs.Steps.{Tells};
ghost use Rattle.cops_read.specs.Heads.{used_at, WithinAnswers, CauseAnswers, VariableAnswers, SymbolAnswers};

use crate::block::Block;
use crate::errors::{Count, ReadError};
use crate::limits::MOST_DEPTH;
use crate::read_names::ReadNames;
use crate::terms::HeadReader;
use cops_names::NameSet;
use cops_syntax::Node;
use std::alloc::Global;

// What is known while rules are read: the variables' block, the names of symbols and of the rules
// so far, and the variables of the rule that is read.
#[derive(Drop)]
pub(crate) struct Scope<'a> {
    pub(crate) block: Block<'a>,
    pub(crate) names: ReadNames,
    pub(crate) variables: NameSet<'a>,
}

/// Where an identifier stands: in a rule, from 1, in a condition, from 1, or 0 in a side of the rule,
/// and whether in the left side; its depth, from 1; which argument begins with it, 0 at the root; and
/// how many identifiers of its term stand before it.
#[derive(Clone, Copy)]
pub struct NodePlace {
    pub rule: usize,
    pub condition: usize,
    pub is_left: bool,
    pub depth: usize,
    pub argument: usize,
    pub before: usize,
}

/// A variable or a symbol, by its number.
pub enum VariableOrSymbol {
    Variable(u32),
    Symbol(u32),
}

// Refuses more parts than there may be.
fn within(what: Count, number: usize, at: usize) -> Result<(), ReadError>
    ensures { WithinAnswers what number at result }
{
    let limit = what.limit();
    if number > limit as usize {
        return Err(ReadError::TooMany { what, limit, at });
    }
    Ok(())
}

// Refuses a place that is beyond the limits.
fn within_limits(node: &Node<'_>, place: NodePlace) -> Result<(), ReadError>
    requires { place.before + 1 < 2 ^ 64 }
    ensures { CauseAnswers Tells (limit_cause (used_at place (node_view node.now))) node.now.name.at result }
{
    let at = node.name.at;
    within(Count::Rules, place.rule, at)?;
    within(Count::Conditions, place.condition, at)?;
    within(Count::Arity, place.argument, at)?;
    if place.depth > MOST_DEPTH {
        return Err(ReadError::TooDeep { at });
    }
    within(Count::Nodes, place.before + 1, at)
}

// The number of a variable. A name that is not there is put last.
fn read_variable<'a>(
    variables: &mut NameSet<'a>,
    node: &Node<'a>,
    place: NodePlace,
    name: &'a str,
) -> Result<u32, ReadError>
    requires name { name.now ≡ node.now.name.text.now }
    requires few { length variables.old ≤ most_variables }
    ensures variable { VariableAnswers Tells variable_cause variables.old (used_at place (node_view node.now)) variables.new result }
    ensures few { OnOk result (length variables.new ≤ most_variables) }
{
    let at = node.name.at;
    if node.brackets {
        return Err(ReadError::VariableWithArguments { at });
    }
    if place.is_left && place.depth == 1 {
        return Err(ReadError::LeftVariable { at });
    }
    // A name that is there already needs no room, and is looked up once more only where there is none.
    if let Err(error) = within(Count::Variables, variables.len() + 1, at) {
        if !variables.has(name) {
            return Err(error);
        }
    }
    Ok(variables.add(name)? as u32)
}

// The number of a symbol. A name that is not there is put last.
fn read_symbol(
    alloc: Global,
    names: &mut ReadNames,
    node: &Node<'_>,
    place: NodePlace,
    name: &str,
) -> Result<u32, ReadError>
    requires { name.now ≡ node.now.name.text.now }
    ensures symbol { SymbolAnswers Tells symbol_cause names.old.symbols (used_at place (node_view node.now)) names.new.symbols result }
    ensures variables { names.new.variables ≡ names.old.variables }
{
    let at = node.name.at;
    if let Some(number) = names.symbol_number(name) {
        return match names.arity(number) {
            Some(arity) if arity == node.arguments => Ok(number),
            _ => Err(ReadError::ArityDiffers { at }),
        };
    }
    let number = names.symbol_count();
    within(Count::Symbols, number as usize + 1, at)?;
    names.add_symbol(String::from_str(alloc, name)?, node.arguments)?;
    Ok(number)
}

impl<'a> HeadReader for Scope<'a> {
    type Node = Node<'a>;

    type Error = ReadError;

    ghost use Rattle.cops_syntax.specs.View.{node_view};
    ghost use Rattle.cops_read.specs.Refusals.{MeaningCause, cause_at};
    ghost use Rattle.cops_read.specs.Steps.{Tells};
    ghost use Rattle.cops_read.specs.Told.{told};

    ghost Cause = { MeaningCause };

    ghost Kept = { List (List ℕ) × List (List (List ℕ)) };

    ghost node_of = { node_view };

    ghost kept = { λ s. (s.block, s.names.variables) };

    ghost block = { λ k. k.0 };

    ghost symbols = { λ s. s.names.symbols };

    ghost variables = { λ s. s.variables };

    ghost cause = { λ k. cause_at k.0 };

    ghost tells = { Tells };

    ghost goes_on = { told };

    fn read_head(
        &mut self,
        alloc: Global,
        node: &Node<'a>,
        place: NodePlace,
    ) -> Result<VariableOrSymbol, ReadError> {
        within_limits(node, place)?;
        let name = node.name.text;
        if self.block.has(name) {
            let number = read_variable(&mut self.variables, node, place, name)?;
            return Ok(VariableOrSymbol::Variable(number));
        }
        let number = read_symbol(alloc, &mut self.names, node, place, name)?;
        Ok(VariableOrSymbol::Symbol(number))
    }

    fn arguments(node: &Node<'a>) -> usize {
        node.arguments
    }

    fn no_memory() -> ReadError
        ensures { (refusal : Option (MeaningCause × ℕ)) → Tells result refusal }
    {
        ReadError::NoMemory
    }
}
