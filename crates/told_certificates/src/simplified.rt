//! Steps that simplify a system: what each drops or inlines, and the system behind it.
use crate::breaks::break_off;
use crate::evidence::tell_infeasible;
use crate::reasons::tell_reason;
use crate::rules::rule_of;
use crate::scene::Scene;
use cert_model::{Simp, SimpReason};
use lens_pages::{Page, Piece};
use simplify::{SimplifyError, simplify};
use term_core::{NoMemory, System};

/// A system, and whether it is that of a file.
#[derive(Drop)]
pub struct Staged {
    pub sys: System,
    pub is_file: bool,
}

impl Staged {
    /// As a scene.
    pub fn scene(&self) -> Scene<'_> {
        Scene {
            sys: &self.sys,
            is_file: self.is_file,
        }
    }
}

// Tells a step before it is made, with the rule of which it speaks.
fn tell_step(page: &mut Page<'_>, scene: Scene<'_>, number: usize, step: &Simp) {
    let (what, rule) = match step {
        Simp::Drop { rule, .. } => ("drops", *rule),
        Simp::Inline { rule, .. } => ("inlines a condition of", *rule),
    };
    page.put(
        "Step # # rule #",
        &[
            Piece::Number(number),
            Piece::Words(what),
            Piece::Number(rule as usize),
        ],
    );
    if let Some(found) = rule_of(scene, rule) {
        page.put(", #", &[Piece::Rule(scene.naming(rule), found)]);
    }
    page.words(":\n");
}

// Tells why a rule that is dropped is never used, or which rule comes for one with a condition that is inlined.
fn tell_made(page: &mut Page<'_>, before: Scene<'_>, behind: Scene<'_>, step: &Simp) {
    match step {
        Simp::Drop { rule, evidence } => {
            if let Some(found) = rule_of(before, *rule) {
                tell_infeasible(page, 2, before.naming(*rule), &found.conds, evidence);
            }
        }
        Simp::Inline { rule, .. } => {
            if let Some(found) = rule_of(behind, *rule) {
                page.line(
                    2,
                    "it becomes #",
                    &[Piece::Rule(behind.naming(*rule), found)],
                );
            }
        }
    }
}

fn words_of(reason: &SimpReason) -> &'static str {
    match reason {
        SimpReason::NoRule => "here there is no such rule",
        SimpReason::NoCond => "here the rule has no such condition",
        SimpReason::NotInline => {
            "here the condition does more than name a term: on its right a variable is expected that stands only in the right side of the rule and in left sides of later conditions"
        }
        SimpReason::TooLarge => "here the rule with the term for the name is too large",
        SimpReason::Evidence(_) => "here the evidence is not valid:",
    }
}

// Tells why a step is not good, even where the page is quiet.
fn tell_refused(page: &mut Page<'_>, reason: &SimpReason) {
    break_off(page, 2, words_of(reason), &[]);
    let was = page.set_quiet(false);
    if let SimpReason::Evidence(reason) = reason {
        tell_reason(page, 5, reason);
    }
    page.set_quiet(was);
}

// Makes a step; none where it is not good, which is told.
fn after_step(
    page: &mut Page<'_>,
    current: Scene<'_>,
    number: usize,
    step: &Simp,
    alone: &[Simp],
) -> Option<Staged> {
    tell_step(page, current, number, step);
    match simplify(page.alloc, current.sys, alone) {
        Ok(sys) => {
            let next = Staged {
                sys,
                is_file: false,
            };
            tell_made(page, current, next.scene(), step);
            Some(next)
        }
        Err(SimplifyError::Fails { reason, .. }) => {
            tell_refused(page, &reason);
            None
        }
        Err(SimplifyError::NoMemory) => page.got(Err(NoMemory)),
    }
}

/// Tells steps, and answers the system that they leave, or none where one is not good, which is told.
pub fn tell_steps(page: &mut Page<'_>, system: Staged, steps: &[Simp]) -> Option<Staged> {
    let mut current = system;
    for (k, step) in steps.iter().enumerate() {
        current = after_step(page, current.scene(), k + 1, step, &steps[k..k + 1])?;
    }
    Some(current)
}
