//! What may settle an overlap, in the order of trial: that it is trivial, caps, conflicts of two conditions, automata that grow.
ghost use Rattle.std.specs.Prelude.{◌≡◌, ◌++◌, ◌+◌, ◌<◌, ◌^◌, IfOk, map};
ghost use Rattle.search_spaces.specs.Refuting.{growths};
ghost use Rattle.search_spaces.specs.PairItems.{try_refuting, conflicts_with, conflicts, ortho_items_of};
ghost use Rattle.ortho_search.specs.ItemView.{item_view};

use evidence_offers::Refuting;
use std::alloc::Global;
use term_core::NoMemory;

/// What is tried to settle an overlap. Conditions are numbered from 1.
#[derive(Clone, Copy, Debug, PartialEq, Eq)]
pub enum Item {
    Trivial,
    /// A condition of the inner rule against one of the outer rule.
    Conflict { inner: u32, outer: u32 },
    /// That the conditions of the overlap are never met.
    Infeasible(Refuting),
}

// The growths for so many conditions, behind other items.
fn add_growths(items: &mut Vec<Item>, count: u32) -> Result<(), NoMemory>
    ensures { IfOk result (λ _. map item_view items.new.items ≡ map item_view items.old.items ++ map try_refuting (growths count)) }
{
    'growths: for before in 0..count {
        items.push(Item::Infeasible(Refuting::Growth { cond: before + 1 }))?;
    }
    Ok(())
}

// The conflicts of a condition of the inner rule with so many of the outer one, behind other items.
fn add_conflicts_with(items: &mut Vec<Item>, inner: u32, count: u32) -> Result<(), NoMemory>
    ensures { IfOk result (λ _. map item_view items.new.items ≡ map item_view items.old.items ++ conflicts_with count inner) }
{
    'outer: for before in 0..count {
        items.push(Item::Conflict {
            inner,
            outer: before + 1,
        })?;
    }
    Ok(())
}

// All conflicts of so many conditions with so many, behind other items.
fn add_conflicts(items: &mut Vec<Item>, inner_count: u32, outer_count: u32) -> Result<(), NoMemory>
    ensures { IfOk result (λ _. map item_view items.new.items ≡ map item_view items.old.items ++ conflicts inner_count outer_count) }
{
    'inner: for before in 0..inner_count {
        add_conflicts_with(items, before + 1, outer_count)?;
    }
    Ok(())
}

/// All items of an overlap of rules with so many conditions.
pub fn items_of(alloc: Global, inner_count: u32, outer_count: u32) -> Result<Vec<Item>, NoMemory>
    requires few { inner_count + outer_count < 2 ^ 32 }
    ensures { IfOk result (λ v. map item_view v.items ≡ ortho_items_of inner_count outer_count) }
{
    let mut items = Vec::new(alloc);
    items.push(Item::Trivial)?;
    items.push(Item::Infeasible(Refuting::Caps))?;
    add_conflicts(&mut items, inner_count, outer_count)?;
    add_growths(&mut items, inner_count + outer_count)?;
    Ok(items)
}
