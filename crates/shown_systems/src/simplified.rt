//! The standard steps that simplify a system, and what is missing for the system that they leave.
ghost use Rattle.std.specs.Prelude.{map};
ghost use Rattle.unifier_run.specs.Overlaps.{AreOverlaps};
ghost use Rattle.critical_pairs.specs.View.{overlap_view};

use crate::findings::find;
use crate::missing::put_missing;
use crate::shown_rules::put_rules;
use crate::subject::Subject;
use cc_count::Budget;
use cert_model::{InfEvidence, Simp};
use critical_pairs::{Overlap, OverlapError, overlaps_in};
use lens_pages::{Page, Piece};
use prepared_system::PreparedSystem;
use rule_index::IndexedSystem;
use std::alloc::Global;
use step_search::{SimpSearch, find_steps};
use term_core::{NoMemory, System};

// A step as a certificate has it.
fn put_step(page: &mut Page<'_>, step: &Simp) {
    match step {
        Simp::Drop {
            rule,
            evidence: InfEvidence::Tcap,
        } => page.line(2, "drop # tcap", &[Piece::Number(*rule as usize)]),
        Simp::Drop {
            rule,
            evidence: InfEvidence::Auto { cond, .. },
        } => page.line(
            2,
            "drop # auto #",
            &[Piece::Number(*rule as usize), Piece::Number(*cond as usize)],
        ),
        Simp::Inline { rule, cond } => page.line(
            2,
            "inline # #",
            &[Piece::Number(*rule as usize), Piece::Number(*cond as usize)],
        ),
    }
}

// What is missing for a system with its overlaps.
fn put_with(page: &mut Page<'_>, subject: &Subject<'_>, list: &[Overlap]) -> Result<(), NoMemory>
    requires overlaps { AreOverlaps subject.now.prepared.now (map overlap_view list.now) }
{
    let findings = find(page, subject, Some(list))?;
    put_missing(page, subject, &findings, list);
    Ok(())
}

// What is missing for a system.
fn put_behind(page: &mut Page<'_>, subject: &Subject<'_>) -> Result<(), NoMemory> {
    match overlaps_in(page.alloc, subject.prepared) {
        Ok(list) => put_with(page, subject, &list)?,
        Err(OverlapError::NoMemory) => return Err(NoMemory),
        Err(_other) => page.words("  a list of its overlaps, which is refused\n"),
    }
    Ok(())
}

// What is missing for the system that steps leave.
fn put_left(page: &mut Page<'_>, sys: &System, units: u64) -> Result<(), NoMemory> {
    let indexed = IndexedSystem::new(page.alloc, sys)?;
    let prepared = PreparedSystem::new(page.alloc, indexed)?;
    let subject = Subject {
        prepared: &prepared,
        is_file: false,
        units,
    };
    page.words("\nTHE SYSTEM THAT THEY LEAVE (its variables have numbers)\n");
    put_rules(page, &subject);
    page.words("\nWHAT IS MISSING FOR IT\n");
    put_behind(page, &subject)
}

/// The standard steps that simplify a system, and the system that they leave, where units sufficed to find them.
#[derive(Drop)]
pub struct Simplified {
    pub found: SimpSearch,
    pub units: u64,
}

/// Searches for the steps.
pub fn simplify(alloc: Global, subject: &Subject<'_>) -> Result<Simplified, NoMemory> {
    let mut budget = Budget::new(subject.units);
    let found = find_steps(alloc, subject.prepared.system(), &mut budget)?;
    Ok(Simplified {
        found,
        units: budget.spent(),
    })
}

/// What the steps cost.
pub fn put_step_cost(page: &mut Page<'_>, simplified: &Simplified) {
    let text = match &simplified.found {
        SimpSearch::Spent => "steps that simplify: #, which did not suffice\n",
        SimpSearch::Steps(steps, _) if steps.is_empty() => "steps that simplify: #, none is good\n",
        SimpSearch::Steps(_, _) => "steps that simplify: #, see below\n",
    };
    page.line(2, text, &[Piece::Number(simplified.units as usize)]);
}

/// The steps, and what is missing behind them; nothing where there are none.
pub fn put_simplified(
    page: &mut Page<'_>,
    subject: &Subject<'_>,
    simplified: &Simplified,
) -> Result<(), NoMemory> {
    let SimpSearch::Steps(steps, left) = &simplified.found else {
        return Ok(());
    };
    if steps.is_empty() {
        return Ok(());
    }
    page.put("\nSTEPS THAT SIMPLIFY: #\n", &[Piece::Number(steps.len())]);
    'steps: for step in steps {
        put_step(page, step);
    }
    put_left(page, left, subject.units)
}
