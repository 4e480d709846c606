//! Choices of states for the variable occurrences of a term: fronts, and tails that stand behind each of them.
ghost use Rattle.std.specs.Prelude.{◌≡◌, ◌∷◌, [], replicate, IfOk};
ghost use Rattle.rewriting.specs.Terms as math;
ghost use Rattle.term_core.specs.View.{view};
ghost use Rattle.automaton_runs.specs.Choices.{as_lists, AreChoices};

use crate::batch::Batch;
use crate::index::AutomatonIndex;
use crate::listing::tails;
use crate::pools::pools;
use crate::possible::possible_fronts;
use crate::tails::Tails;
use crate::width::occurrences;
use std::alloc::Global;
use std::marker::Model;
use term_core::{NoMemory, Term};

/// Choices of states for the variable occurrences of a term: fronts, and tails that stand behind each of them.
#[derive(Debug, Drop)]
pub struct Choices {
    fronts: Vec<Vec<u32>>,
    tails: Tails,
}

impl Model for Choices {
    ghost use Rattle.automaton_runs.specs.Choices as choices;

    ghost Value = { choices.Choices };

    ghost use Rattle.automaton_runs.specs.ChoicesView.{choices_view};

    ghost view = { choices_view };
}

impl Choices {
    /// One choice: the state 0 for each of so many occurrences.
    pub fn zeros(alloc: Global, occurrences: usize) -> Result<Choices, NoMemory>
        ensures { IfOk result (λ choices. choices ≡ record { fronts = [] ∷ []; width = occurrences; tails = replicate occurrences 0 ∷ [] }) }
    {
        let mut fronts = Vec::new(alloc);
        fronts.push(Vec::new(alloc))?;
        let mut lists = Vec::new(alloc);
        lists.push(vec![in alloc; 0; occurrences]?)?;
        let tails = Tails::new(alloc, occurrences, lists)?;
        Ok(Choices { fronts, tails })
    }

    /// The choices by which a term may arrive, in order. An occurrence has only states that stand at its place in transitions.
    pub fn new(alloc: Global, index: &AutomatonIndex<'_>, t: &Term) -> Result<Choices, NoMemory>
        requires { math.Fits (view t.now) }
        ensures { IfOk result (AreChoices index.now (view t.now)) }
    {
        if index.states() == 1 {
            return Choices::zeros(alloc, occurrences(alloc, t)?.len());
        }
        let pools = pools(alloc, index, t)?;
        let (start, lists) = tails(alloc, &pools)?;
        let fronts = possible_fronts(alloc, index, t, &pools, start)?;
        let tails = Tails::new(alloc, pools.len() - start, lists)?;
        Ok(Choices { fronts, tails })
    }

    /// The states for the first occurrences, in order.
    pub fn fronts(&self) -> &[Vec<u32>]
        ensures { as_lists result.now ≡ self.now.fronts }
    {
        &self.fronts
    }

    /// The choices with a front.
    pub fn batch<'a>(&'a self, alloc: Global, front: &'a [u32]) -> Result<Batch<'a>, NoMemory>
        ensures { IfOk result (λ b. b ≡ record { front = front.now; width = self.now.width; tails = self.now.tails }) }
    {
        Batch::new(alloc, front, &self.tails)
    }
}
