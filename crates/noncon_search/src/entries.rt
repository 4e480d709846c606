//! The entries for the redexes of a term, one after the other, each with evidence that the conditions of its rule are never met there.
ghost use Rattle.std.specs.Prelude.{◌≡◌, ◌≤◌, ◌++◌, ◌∷◌, [], OnOk, IsSome, length, map};
ghost use Rattle.rewriting.specs.Prelude.{rule_at, conditions_under};
ghost use Rattle.rule_index.specs.Roots.{rules_at};
ghost use Rattle.rule_index.specs.Parts as parts;
ghost use Rattle.term_core.specs.Prelude.{view, condition_view};
ghost use Rattle.term_core.specs.SystemView.{IsSound};
ghost use Rattle.cert_model.specs.CertificateView.{redex_view};
ghost use Rattle.cert_model.specs.EvidenceView.{inf_evidence_view};
ghost use Rattle.redex_conditions.specs.Judged.{match_or_new};
ghost use Rattle.redex_conditions.specs.Redexes.{place};
ghost use Rattle.search_spaces.specs.Refuting.{refutings};
ghost use Rattle.noncon_search.specs.Trying.{FirstAnswers};
ghost use Rattle.noncon_search.specs.Entries.{entry_at, RulesAnswer};

use crate::trying::first_valid;
use cert_model::{InfEvidence, Redex, copy_numbers};
use matching::{Match, match_term};
use redex_conditions::conditions_at;
use rule_index::IndexedSystem;
use std::alloc::Global;
use term_core::{MAX_NODES, NoMemory, Rule, Subst, Term};

/// Makes entries for the redexes of a term: they have its number, and its variables are the numbers below `own`.
#[derive(Clone, Copy)]
pub(crate) struct EntryMaker<'a> {
    pub(crate) sys: &'a IndexedSystem<'a>,
    pub(crate) which: u32,
    pub(crate) own: u32,
}

impl EntryMaker<'_> {
    // The first valid evidence for the conditions of a rule under the values of a match.
    fn evidence_for(
        &self,
        alloc: Global,
        rule: &Rule,
        values: Subst,
    ) -> Result<Option<InfEvidence>, NoMemory>
        requires sound { IsSound self.now.sys.now.arities rule.now }
        requires own { self.now.own ≤ MAX_NODES }
        ensures { FirstAnswers self.now.sys.now (conditions_under (match_or_new self.now.own values) (map condition_view rule.now.conds.items)) (refutings (length (map condition_view rule.now.conds.items))) result }
    {
        match conditions_at(alloc, rule, values, self.own)? {
            Some(conds) => first_valid(alloc, self.sys, &conds),
            // Of conditions that do not fit, a cap counts as too large, whatever the evidence.
            None => Ok(None),
        }
    }

    // Puts the entry for a rule at a position last.
    fn add_entry(
        &self,
        alloc: Global,
        path: &[u32],
        rule: u32,
        evidence: InfEvidence,
        entries: &mut Vec<Redex>,
    ) -> Result<(), NoMemory>
        ensures { OnOk result (map redex_view entries.new.items ≡ map redex_view entries.old.items ++ entry_at (place self.now.which path.now rule) (inf_evidence_view evidence) ∷ []) }
    {
        let pos = copy_numbers(alloc, path)?;
        entries.push(Redex {
            which: self.which,
            pos,
            rule,
            evidence,
        })?;
        Ok(())
    }

    // Puts the entry for a rule last where the rule matches the part; false where it matches and has no valid evidence.
    fn add_rule(
        &self,
        alloc: Global,
        part: &Term,
        path: &[u32],
        number: u32,
        entries: &mut Vec<Redex>,
    ) -> Result<bool, NoMemory>
        requires own { self.now.own ≤ MAX_NODES }
        requires number { IsSome (rule_at self.now.sys.now number) }
        ensures { RulesAnswer self.now.sys.now self.now.own self.now.which (parts.part path.now (view part.now)) (number ∷ []) (map redex_view entries.old.items) (map redex_view entries.new.items) result }
    {
        let rule = &self.sys.rules()[number as usize - 1];
        let Match::Bound(values) = match_term(alloc, &rule.left, part)? else {
            return Ok(true);
        };
        let Some(evidence) = self.evidence_for(alloc, rule, values)? else {
            return Ok(false);
        };
        self.add_entry(alloc, path, number, evidence, entries)?;
        Ok(true)
    }

    /// Puts the entries for the rules that match the part at a position last, in order; false where one has no valid evidence.
    pub(crate) fn add_part(
        &self,
        alloc: Global,
        part: &Term,
        path: &[u32],
        entries: &mut Vec<Redex>,
    ) -> Result<bool, NoMemory>
        requires own { self.now.own ≤ MAX_NODES }
        ensures { RulesAnswer self.now.sys.now self.now.own self.now.which (parts.part path.now (view part.now)) (rules_at self.now.sys.now (view part.now)) (map redex_view entries.old.items) (map redex_view entries.new.items) result }
    {
        let numbers = self.sys.rules_at(part);
        'rules: for number in numbers {
            if !self.add_rule(alloc, part, path, *number, entries)? {
                return Ok(false);
            }
        }
        Ok(true)
    }
}
