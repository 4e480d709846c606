//! The measure of a certificate: the values or the order of its symbols, and both sides of each rule of the unraveled system.
use crate::breaks::break_off;
use crate::polynomials::tell_value;
use crate::rules::rule_of;
use crate::scene::{Scene, tell_rule, tell_rules};
use cert_model::{Linear, LinearEntry, MeasureCert};
use lens_pages::{Page, Piece};
use term_core::{Head, NoMemory, Rule, System};
use unravel::{UnravelError, Unraveled, unravel};

// Writes `x1`, `x2`, and so on, as many as there are arguments.
fn tell_arguments(page: &mut Page<'_>, count: usize) {
    if count == 0 {
        return;
    }
    page.words("(");
    for k in 0..count {
        page.words(if k == 0 { "x" } else { ",x" });
        page.number(k.saturating_add(1));
    }
    page.words(")")
}

// Writes a number, for the constant, or so many times an argument.
fn tell_summand(page: &mut Page<'_>, k: usize, number: u32) {
    if k == 0 {
        return page.number(number as usize);
    }
    if number > 1 {
        page.number(number as usize);
        page.words(" ");
    }
    page.words("x");
    page.number(k)
}

// Writes the sum of a constant and the arguments with their coefficients.
fn tell_sum(page: &mut Page<'_>, coeffs: &[u32]) {
    let mut is_first = true;
    for (k, number) in coeffs.iter().enumerate() {
        if *number > 0 {
            page.words(if is_first { "" } else { " + " });
            tell_summand(page, k, *number);
            is_first = false;
        }
    }
    if is_first {
        page.words("0");
    }
}

// Tells the value of a symbol.
fn tell_entry(page: &mut Page<'_>, entry: &LinearEntry) {
    page.indent(2);
    page.put("#", &[Piece::Head(entry.head)]);
    tell_arguments(page, entry.coeffs.len().saturating_sub(1));
    page.words("  is  ");
    tell_sum(page, &entry.coeffs);
    page.words("\n")
}

// Whether each symbol has its entry, with as many numbers as it needs.
fn is_shaped(unraveled: &Unraveled, entries: &[LinearEntry]) -> bool {
    let arities = unraveled.system.arities();
    if entries.len() != unraveled.heads.len() {
        return false;
    }
    for (k, entry) in entries.iter().enumerate() {
        let is_right = match (unraveled.heads.get(k), arities.get(k)) {
            (Some(head), Some(arity)) => {
                entry.head == *head && entry.coeffs.len() == (*arity as usize).saturating_add(1)
            }
            _ => false,
        };
        if !is_right {
            return false;
        }
    }
    true
}

// Tells the values of both sides of a rule.
fn tell_values(
    page: &mut Page<'_>,
    scene: Scene<'_>,
    entries: &[LinearEntry],
    number: u32,
    rule: &Rule,
    between: &str,
) {
    let naming = scene.naming(number);
    page.indent(6);
    tell_value(page, naming, entries, rule.vars, &rule.left);
    page.words(between);
    tell_value(page, naming, entries, rule.vars, &rule.right);
    page.words("\n");
}

// Tells the values of both sides of each rule.
fn tell_all_values(page: &mut Page<'_>, scene: Scene<'_>, entries: &[LinearEntry]) {
    page.line(
        0,
        "The unraveled rules, whose variables have numbers, with the values of both sides:",
        &[],
    );
    let mut number: u32 = 0;
    for rule in scene.sys.rules() {
        number = number.saturating_add(1);
        tell_rule(page, scene, number, rule);
        tell_values(page, scene, entries, number, rule, "  >  ");
    }
    page.words("\n")
}

// Tells a linear interpretation.
fn tell_linear(page: &mut Page<'_>, unraveled: &Unraveled, linear: &Linear) {
    page.line(0, "The measure is a linear interpretation:", &[]);
    for entry in &linear.entries {
        tell_entry(page, entry);
    }
    page.words("\n");
    if !is_shaped(unraveled, &linear.entries) {
        break_off(
            page,
            0,
            "here a line for each symbol of the unraveled system is expected, in order, with one number more than it has arguments",
            &[],
        );
        return page.words("\n");
    }
    tell_all_values(page, scene_of(unraveled), &linear.entries)
}

// Tells the symbols of a precedence.
fn tell_order(page: &mut Page<'_>, order: &[Head]) {
    page.line(
        0,
        "The measure is the lexicographic path order of a precedence, the greatest symbol first:",
        &[],
    );
    page.indent(2);
    for (k, head) in order.iter().enumerate() {
        if k > 0 {
            page.words(" > ");
        }
        page.put("#", &[Piece::Head(*head)]);
    }
    page.words("\n\n")
}

// Tells the rules, of which each left side is greater.
fn tell_ordered(page: &mut Page<'_>, scene: Scene<'_>) {
    page.line(
        0,
        "The unraveled rules, whose variables have numbers; each left side is greater than its right side:",
        &[],
    );
    tell_rules(page, scene);
    page.words("\n")
}

// Tells what the auxiliary symbols are, where there are any.
fn tell_auxiliary(page: &mut Page<'_>, sys: &System) {
    for rule in sys.rules() {
        if !rule.conds.is_empty() {
            return page.line(
                0,
                "In the unraveled system auxI.K is the symbol that stands for condition K of rule I.",
                &[],
            );
        }
    }
}

fn tell_unraveled(page: &mut Page<'_>, unraveled: &Unraveled, measure: &MeasureCert) {
    match measure {
        MeasureCert::Linear(linear) => tell_linear(page, unraveled, linear),
        MeasureCert::Lpo(order) => {
            tell_order(page, order);
            tell_ordered(page, scene_of(unraveled))
        }
    }
}

// The unraveled system, whose symbols the page names from now on; none where it is too large, which is told, or memory was refused.
fn unraveled_of(page: &mut Page<'_>, scene: Scene<'_>) -> Option<Unraveled> {
    match unravel(page.alloc, scene.sys) {
        Ok(unraveled) => {
            page.set_heads(&unraveled.heads);
            Some(unraveled)
        }
        Err(UnravelError::NoMemory) => page.got(Err(NoMemory)),
        Err(UnravelError::TooLarge { rule }) => {
            let number = Piece::Number(rule as usize);
            break_off(page, 0, "the unraveling of rule # is too large", &[number]);
            None
        }
    }
}

fn scene_of(unraveled: &Unraveled) -> Scene<'_> {
    Scene {
        sys: &unraveled.system,
        is_file: false,
    }
}

/// Tells a measure.
pub fn tell_measure(page: &mut Page<'_>, scene: Scene<'_>, measure: &MeasureCert) {
    if let Some(unraveled) = unraveled_of(page, scene) {
        tell_auxiliary(page, scene.sys);
        tell_unraveled(page, &unraveled, measure);
    }
}

// Tells a rule of the unraveled system, and the values of its sides where the measure gives them.
fn tell_unordered_rule(
    page: &mut Page<'_>,
    unraveled: &Unraveled,
    measure: &MeasureCert,
    number: u32,
) {
    let scene = scene_of(unraveled);
    let Some(rule) = rule_of(scene, number) else {
        return;
    };
    tell_rule(page, scene, number, rule);
    match measure {
        MeasureCert::Linear(linear) => {
            tell_values(
                page,
                scene,
                &linear.entries,
                number,
                rule,
                "  is not above  ",
            )
        }
        MeasureCert::Lpo(_) => {}
    }
}

/// Tells a rule of the unraveled system that does not fall under the measure.
pub fn tell_unordered(page: &mut Page<'_>, scene: Scene<'_>, measure: &MeasureCert, number: u32) {
    if let Some(unraveled) = unraveled_of(page, scene) {
        tell_unordered_rule(page, &unraveled, measure, number);
    }
}

/// Tells a line of a measure.
pub fn tell_measure_line(page: &mut Page<'_>, measure: &MeasureCert, number: u32) {
    let place = (number as usize).saturating_sub(1);
    match measure {
        MeasureCert::Linear(linear) => match linear.entries.get(place) {
            Some(entry) => tell_entry(page, entry),
            None => {}
        },
        MeasureCert::Lpo(order) => match order.get(place) {
            Some(head) => page.line(2, "#", &[Piece::Head(*head)]),
            None => {}
        },
    }
}
