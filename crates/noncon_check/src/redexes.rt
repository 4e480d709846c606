//! The redexes of an end: wherever a rule matches, the next entry has to show that its conditions are never met there.
ghost use Rattle.std.specs.Prelude.{◌≡◌, ◌≤◌, ◌∷◌, ◌↔◌, [], Some, IsTrue, MatchOption, IsSome, map, slice_get};
ghost use Rattle.rewriting.specs.Prelude.{size, rule_at, conditions_under};
ghost use Rattle.rule_index.specs.Parts as parts;
ghost use Rattle.term_core.specs.Prelude.{view, condition_view};
ghost use Rattle.term_core.specs.SystemView.{IsSound};
ghost use Rattle.cert_model.specs.CertificateView.{redex_view};
ghost use Rattle.valid_certificates.specs.Peaks.{entry_place};
ghost use Rattle.redex_conditions.specs.Redexes.{place, places, part_redexes, redexes};
ghost use Rattle.redex_conditions.specs.Judged.{match_or_new, AreJudged, IsJudgedOn, IsJudgedAt};
ghost use Rattle.noncon_check.specs.Walks.{IsAbsent, PlacesAnswer, MissedAnswers};
ghost use Rattle.noncon_check.specs.Judges.{IsReady};

use crate::conditions::judge_conditions;
use cert_model::{Redex, Rejected, copy_numbers};
use infeasible::Refusal;
use matching::{Match, match_term};
use rule_index::{IndexedSystem, PartWalk};
use std::alloc::Global;
use term_core::{MAX_NODES, Rule, Subst, Term};
use validity::CheckError;

/// What the redexes of an end are judged by: the end's number, the certificate's entries, and how many variables the
/// end has, which are the least numbers.
#[derive(Clone, Copy)]
pub(crate) struct Judge<'a> {
    pub(crate) sys: &'a IndexedSystem<'a>,
    pub(crate) rules: &'a [Rule],
    pub(crate) entries: &'a [Redex],
    pub(crate) which: u32,
    pub(crate) own: u32,
}

// A redex of an end: the position, and the rule's number.
#[derive(Clone, Copy)]
struct Spot<'a> {
    path: &'a [u32],
    rule: u32,
}

// A redex that has no entry where one should stand.
fn missed(alloc: Global, which: u32, spot: Spot<'_>) -> CheckError
    ensures { MissedAnswers (place which spot.entry.path.now spot.entry.rule) result }
{
    match copy_numbers(alloc, spot.path) {
        Ok(pos) => CheckError::Rejected(Rejected::NotNormal {
            which,
            pos,
            rule: spot.rule,
        }),
        Err(_) => CheckError::NoMemory,
    }
}

// Whether the entry is for this redex.
fn is_for(entry: &Redex, which: u32, spot: Spot<'_>) -> bool
    ensures { IsTrue result ↔ (entry_place (redex_view entry.now) ≡ place which spot.entry.path.now spot.entry.rule) }
{
    entry.which == which && entry.rule == spot.rule && entry.pos.as_slice() == spot.path
}

impl<'a> Judge<'a> {
    // The entry with this number, from 0, where it is for the redex.
    fn entry_for(&self, at: usize, spot: Spot<'_>) -> Option<&'a Redex>
        ensures { MatchOption result (IsAbsent (map redex_view self.now.entries.now) at (place self.now.which spot.entry.path.now spot.entry.rule)) (λ e. (slice_get (map redex_view self.now.entries.now) at ≡ Some (redex_view e.now)) × (entry_place (redex_view e.now) ≡ place self.now.which spot.entry.path.now spot.entry.rule)) }
    {
        let entry = self.entries.get(at)?;
        if is_for(entry, self.which, spot) {
            Some(entry)
        } else {
            None
        }
    }

    // Judges the entry for a rule that matches, with the values of the match.
    fn judge_entry(
        &self,
        alloc: Global,
        rule: &Rule,
        values: Subst,
        spot: Spot<'_>,
        at: usize,
    ) -> Result<usize, CheckError>
        requires ready { IsReady self.now.sys.now self.now.rules.now self.now.entries.now self.now.own }
        requires sound { IsSound self.now.sys.now.arities rule.now }
        ensures { PlacesAnswer (λ r evidence o. AreJudged self.now.sys.now (conditions_under (match_or_new self.now.own values) (map condition_view rule.now.conds.items)) evidence o) (map redex_view self.now.entries.now) at (place self.now.which spot.entry.path.now spot.entry.rule ∷ []) result }
    {
        let Some(entry) = self.entry_for(at, spot) else {
            return Err(missed(alloc, self.which, spot));
        };
        match judge_conditions(alloc, self.sys, rule, values, self.own, &entry.evidence) {
            Ok(()) => Ok(at + 1),
            Err(Refusal::Reason(reason)) => Err(CheckError::Rejected(Rejected::RedexFails {
                entry: at as u32 + 1,
                reason,
            })),
            Err(Refusal::NoMemory) => Err(CheckError::NoMemory),
        }
    }

    // Judges the next entry where the rule matches the part.
    fn judge_rule(
        &self,
        alloc: Global,
        part: &Term,
        number: u32,
        path: &[u32],
        at: usize,
    ) -> Result<usize, CheckError>
        requires ready { IsReady self.now.sys.now self.now.rules.now self.now.entries.now self.now.own }
        requires number { IsSome (rule_at self.now.sys.now number) }
        ensures { PlacesAnswer (IsJudgedOn self.now.sys.now self.now.own (view part.now)) (map redex_view self.now.entries.now) at (places self.now.sys.now self.now.which (parts.part path.now (view part.now)) (number ∷ [])) result }
    {
        let rule = &self.rules[number as usize - 1];
        match match_term(alloc, &rule.left, part)? {
            Match::Unmatched => Ok(at),
            Match::Bound(values) => {
                let spot = Spot { path, rule: number };
                self.judge_entry(alloc, rule, values, spot, at)
            }
        }
    }

    // Judges the next entries for the rules that match the part at a position.
    fn judge_part(
        &self,
        alloc: Global,
        part: &Term,
        path: &[u32],
        at: usize,
    ) -> Result<usize, CheckError>
        requires ready { IsReady self.now.sys.now self.now.rules.now self.now.entries.now self.now.own }
        ensures { PlacesAnswer (IsJudgedOn self.now.sys.now self.now.own (view part.now)) (map redex_view self.now.entries.now) at (part_redexes self.now.sys.now self.now.which (parts.part path.now (view part.now))) result }
    {
        let mut next = at;
        let numbers = self.sys.rules_at(part);
        for number in numbers {
            next = self.judge_rule(alloc, part, *number, path, next)?;
        }
        Ok(next)
    }

    /// Judges the entries from a number, from 0, on, for the redexes of the end; the number behind them. The first that
    /// is wrong or missing ends the walk.
    pub(crate) fn judge_parts(
        &self,
        alloc: Global,
        end: &Term,
        at: usize,
    ) -> Result<usize, CheckError>
        requires ready { IsReady self.now.sys.now self.now.rules.now self.now.entries.now self.now.own }
        requires size { size (view end.now) ≤ MAX_NODES }
        ensures { PlacesAnswer (IsJudgedAt self.now.sys.now self.now.own (view end.now)) (map redex_view self.now.entries.now) at (redexes self.now.sys.now self.now.which (view end.now)) result }
    {
        let mut next = at;
        let mut walk = PartWalk::new(alloc, end);
        'parts: while let Some(part) = walk.next()? {
            next = self.judge_part(alloc, part, walk.position(), next)?;
        }
        Ok(next)
    }
}
