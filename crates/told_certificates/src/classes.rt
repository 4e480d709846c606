//! Why a system is not in a class, and that a right side of a condition is not irreducible.
use crate::rules::rule_of;
use crate::scene::Scene;
use cert_model::{Blame, Class, condition};
use lens_pages::{Page, Piece};

// What is wrong with a rule that is not in the class, behind the name of a variable where there is one.
fn words_of(class: Class, cond: u32, variable: bool) -> &'static str {
    match class {
        Class::LeftLinear =>
            " stands more than once in its left side; the system is not left-linear.",
        Class::Type3 =>
            " stands in its right side, and neither in its left side nor in a condition; the system is not of type 3.",
        Class::ExtendedOriented => {
            "its conditions ask for a variable before it is known, and the right side needs it; the system is not extended properly oriented."
        }
        Class::RightStable if variable => {
            " stands in the right side of this condition and before it; the system is not right-stable."
        }
        Class::RightStable => {
            "the right side of this condition is neither a linear constructor term nor a ground normal form; the system is not right-stable."
        }
        Class::Deterministic if cond == 0 => {
            " stands in its right side, and neither in its left side nor in a condition; the system is not deterministic."
        }
        Class::Deterministic => {
            " stands in the left side of this condition, and is not known there; the system is not deterministic."
        }
    }
}

// Tells a rule, and the condition at fault where there is one.
fn tell_rule(page: &mut Page<'_>, scene: Scene<'_>, number: u32, cond: u32) {
    let Some(rule) = rule_of(scene, number) else {
        return;
    };
    let naming = scene.naming(number);
    page.line(
        0,
        "Rule # is #",
        &[Piece::Number(number as usize), Piece::Rule(naming, rule)],
    );
    if let Some(found) = condition(&rule.conds, cond) {
        page.line(
            0,
            "and its condition # is #",
            &[Piece::Number(cond as usize), Piece::Cond(naming, found)],
        );
    }
}

/// Tells why a system is not in the class.
pub fn tell_class(page: &mut Page<'_>, scene: Scene<'_>, blame: &Blame) {
    tell_rule(page, scene, blame.rule, blame.cond);
    page.words("!! ");
    if let Some(x) = blame.variable {
        page.words("the variable ");
        page.put("#", &[Piece::Variable(scene.naming(blame.rule), x)]);
    }
    page.words(words_of(blame.class, blame.cond, blame.variable.is_some()));
    page.words("\n")
}

/// Tells that the right side of a condition is not absolutely irreducible.
pub fn tell_reducible(page: &mut Page<'_>, scene: Scene<'_>, rule: u32, cond: u32) {
    tell_rule(page, scene, rule, cond);
    page.line(
        0,
        "!! the right side of this condition may have a step: a left side of a rule fits an instance of a part of it.",
        &[],
    )
}
