//! Sides of rules and conditions, and conditions in order, left side before right.
ghost use Rattle.std.specs.Prelude.{◌≡◌, ◌≤◌, List, OnOk, length, map};
ghost use Rattle.file_text.specs.Syntax as syntax;
ghost use Rattle.cops_syntax.specs.View.{node_view, IsCondition, AreConditions};
ghost use Rattle.cops_read.specs.Bounds.{most_variables};
ghost use Rattle.cops_read.specs.Uses.{side_of};
ghost use Rattle.cops_read.specs.Walks.{SideAnswers, ConditionAnswers, ConditionsAnswers, GoesOn};

use crate::heads::NodePlace;
use crate::terms::{HeadReader, read_term};
use cops_syntax::{CondText, Node};
use std::alloc::Global;
use term_core::{Cond, Term};

// A side of a rule or of a condition.
pub(crate) fn read_side<H: HeadReader>(
    alloc: Global,
    reader: &mut H,
    nodes: &[H::Node],
    rule: usize,
    condition: usize,
    is_left: bool,
) -> Result<Term, H::Error>
    requires text { (p : syntax.Phrase) × (map H.node_of nodes.now ≡ syntax.flat p) }
    requires few { length (H.variables reader.old) ≤ most_variables }
    ensures side { (p : syntax.Phrase) → map H.node_of nodes.now ≡ syntax.flat p → SideAnswers (H.cause (H.kept reader.old)) (H.block (H.kept reader.old)) H.tells (H.symbols reader.old) (H.variables reader.old) (side_of rule condition is_left) p (H.symbols reader.new) (H.variables reader.new) result }
    ensures few { OnOk result (length (H.variables reader.new) ≤ most_variables) }
    ensures kept { H.kept reader.new ≡ H.kept reader.old }
    ensures told { GoesOn H.tells }
{
    let root = NodePlace {
        rule,
        condition,
        is_left,
        depth: 1,
        argument: 0,
        before: 0,
    };
    let (term, _) = read_term(alloc, reader, nodes, root)?;
    Ok(term)
}

// The condition with a number.
fn read_condition<'a, H: HeadReader<Node = Node<'a>>>(
    alloc: Global,
    reader: &mut H,
    text: &CondText<'a>,
    rule: usize,
    number: usize,
) -> Result<Cond, H::Error>
    requires nodes { H.node_of ≡ node_view }
    requires text { (c : syntax.ConditionTree) × IsCondition text.now c }
    requires few { length (H.variables reader.old) ≤ most_variables }
    ensures condition { (c : syntax.ConditionTree) → IsCondition text.now c → ConditionAnswers (H.cause (H.kept reader.old)) (H.block (H.kept reader.old)) H.tells (H.symbols reader.old) (H.variables reader.old) rule number c (H.symbols reader.new) (H.variables reader.new) result }
    ensures few { OnOk result (length (H.variables reader.new) ≤ most_variables) }
    ensures kept { H.kept reader.new ≡ H.kept reader.old }
    ensures told { GoesOn H.tells }
{
    let left = read_side(alloc, reader, &text.left, rule, number, false)?;
    let right = read_side(alloc, reader, &text.right, rule, number, false)?;
    Ok(Cond { left, right })
}

/// The conditions of the rule with a number.
pub fn read_conditions<'a, H: HeadReader<Node = Node<'a>>>(
    alloc: Global,
    reader: &mut H,
    texts: &[CondText<'a>],
    rule: usize,
) -> Result<Vec<Cond>, H::Error>
    requires nodes { H.node_of ≡ node_view }
    requires texts { (cs : List syntax.ConditionTree) × AreConditions texts.now cs }
    requires few { length (H.variables reader.old) ≤ most_variables }
    ensures conditions { (cs : List syntax.ConditionTree) → AreConditions texts.now cs → ConditionsAnswers (H.cause (H.kept reader.old)) (H.block (H.kept reader.old)) H.tells (H.symbols reader.old) (H.variables reader.old) rule cs (H.symbols reader.new) (H.variables reader.new) result }
    ensures few { OnOk result (length (H.variables reader.new) ≤ most_variables) }
    ensures kept { H.kept reader.new ≡ H.kept reader.old }
{
    let mut conds = Vec::new(alloc);
    'conditions: for (i, text) in texts.iter().enumerate() {
        let cond = read_condition(alloc, reader, text, rule, i + 1)?;
        if conds.push(cond).is_err() {
            return Err(H::no_memory());
        }
    }
    Ok(conds)
}
