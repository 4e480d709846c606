//! The unraveling of a conditional system: a system without conditions, whose auxiliary symbols keep the conditions.
#![tactic(auto)]

mod listed;
mod rules;
mod sides;
mod symbols;

ghost use Rattle.std.specs.Prelude.{◌≡◌};
ghost use Rattle.unravel.specs.Answers.{UnravelAnswers};

pub use crate::listed::empty_lists;
use crate::rules::unraveled_rules;
pub use crate::rules::{RuleError, rules_of_one};
use crate::symbols::unraveled_arities;
pub use crate::symbols::unraveled_heads;
use std::alloc::Global;
use term_core::{Head, NoMemory, System};

/// An unraveled system, with what each of its symbols is, in order of their numbers.
#[derive(Debug, Drop)]
pub struct Unraveled {
    pub system: System,
    pub heads: Vec<Head>,
}

#[derive(Clone, Copy, Debug, PartialEq, Eq)]
pub enum UnravelError {
    /// A side that comes from this rule of the conditional system does not fit; it is the first such rule, from 1.
    TooLarge { rule: u32 },
    NoMemory,
}

impl From<NoMemory> for UnravelError {
    ghost use Rattle.unravel.specs.declared.UnravelError.TheVariants.{NoMemory as no_memory};

    ghost from_gives = { λ _ e. e ≡ no_memory };

    fn from(_e: NoMemory) -> UnravelError {
        UnravelError::NoMemory
    }
}

/// The unraveling of a system (Ohlebusch, Advanced Topics in Term Rewriting, chapter 7).
#[tactic(auto, using(crate::proofs::Whole::first_large))]
pub fn unravel(alloc: Global, sys: &System) -> Result<Unraveled, UnravelError>
    ensures { UnravelAnswers sys.now result }
{
    let rules = unraveled_rules(alloc, sys)?;
    let arities = unraveled_arities(alloc, sys)?;
    let heads = unraveled_heads(alloc, sys)?;
    // The rules are over these symbols, their variables are numbered anew and their sides fit.
    let system = System::of_sound(arities, rules);
    Ok(Unraveled { system, heads })
}
