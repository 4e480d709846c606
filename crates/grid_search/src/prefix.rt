//! The first entries of an interpretation, judged by the rules all of whose symbols have an entry.
ghost use Rattle.std.specs.Prelude.{◌≡◌, map};
ghost use Rattle.rewriting.specs.Rules as math;
ghost use Rattle.rewriting.specs.Prelude.{IsSystem, unraveled, heads};
ghost use Rattle.interpretations.specs.Size.{DoesUnravelingFit};
ghost use Rattle.term_core.specs.HeadView.{head_view};
ghost use Rattle.cert_model.specs.CertificateView.{linear_entry_view};
ghost use Rattle.unravel.specs.Answers.{IsUnraveled};
ghost use Rattle.grid_search.specs.Prefix.{IsPrefix, IsAliveBefore, PrefixAnswers, NewAnswers, HasPrefix};

use crate::needs::{numbers_by_need, rule_needs};
use cert_model::LinearEntry;
use linear_interp::does_fall;
use measure::Partial;
use std::alloc::Global;
use std::marker::Model;
use term_core::{Head, NoMemory, System};
use unravel::{UnravelError, Unraveled, unravel};

/// The unraveling of a system, and its rules by the last symbol that they need: a prefix is judged by the rules alone
/// that its last entry completes. In contracts it is the system.
#[derive(Debug, Drop)]
pub struct PrefixJudge<'a> {
    own: &'a System,
    unraveled: Unraveled,
    completed: Vec<Vec<u32>>,
}

impl<'a> Model for PrefixJudge<'a> {
    ghost use Rattle.rewriting.specs.Codes.{coded_system};
    ghost use Rattle.rewriting.specs.Rules as math;
    ghost use Rattle.grid_search.specs.JudgeView.{judge_view, IsHeld};

    ghost Value = { math.System };

    ghost coded = { coded_system };

    ghost view = { judge_view };

    ghost invariant = { IsHeld };
}

impl<'a> PrefixJudge<'a> {
    /// The judge of a system, or the first rule of which a side of the unraveled system does not fit.
    pub fn new(alloc: Global, sys: &'a System) -> Result<PrefixJudge<'a>, UnravelError>
        ensures { NewAnswers sys.now result }
    {
        // The system's own rules are over its symbols: what the judging of the unraveled sides rests on.
        let own_rules = sys.rules();
        prove!(own_rules.len() < u32::MAX as usize);
        let unraveled = unravel(alloc, sys)?;
        let rules = unraveled.system.rules();
        let completed = numbers_by_need(alloc, rules, unraveled.heads.len() + 1)?;
        Ok(PrefixJudge {
            own: sys,
            unraveled,
            completed,
        })
    }

    /// What each symbol of the unraveled system is, in order of their numbers.
    pub fn heads(&self) -> &[Head]
        ensures heads { map head_view result.now ≡ heads self.now }
        ensures sound { IsSystem self.now }
        ensures fits { DoesUnravelingFit self.now }
    {
        &self.unraveled.heads
    }

    /// The arities of the unraveled system.
    pub fn arities(&self) -> &[u32]
        ensures { result.now ≡ (unraveled self.now).arities }
    {
        self.unraveled.system.arities()
    }

    /// Whether the last entry of a prefix makes it dead.
    pub fn judge_last(&self, alloc: Global, prefix: &[LinearEntry]) -> Result<Partial, NoMemory>
        requires prefix { IsPrefix self.now (map linear_entry_view prefix.now) }
        requires alive { IsAliveBefore self.now (map linear_entry_view prefix.now) }
        ensures { PrefixAnswers self.now (map linear_entry_view prefix.now) result }
    {
        let rules = self.unraveled.system.rules();
        'completed: for number in &self.completed[prefix.len()] {
            if !does_fall(alloc, prefix, &rules[*number as usize - 1])? {
                return Ok(Partial::Dead);
            }
        }
        Ok(Partial::Unknown)
    }
}

/// Whether a prefix is dead: whether the value does not fall at some rule of the unraveled system all of whose symbols
/// have an entry.
pub fn check_prefix(
    alloc: Global,
    unraveled: &Unraveled,
    prefix: &[LinearEntry],
) -> Result<Partial, NoMemory>
    requires { HasPrefix unraveled.now (map linear_entry_view prefix.now) }
    ensures { (sys : math.System) → IsUnraveled sys unraveled.now → PrefixAnswers sys (map linear_entry_view prefix.now) result }
{
    'rules: for rule in unraveled.system.rules() {
        if rule_needs(rule) <= prefix.len() {
            if !does_fall(alloc, prefix, rule)? {
                return Ok(Partial::Dead);
            }
        }
    }
    Ok(Partial::Unknown)
}
