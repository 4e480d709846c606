//! The classes of conditional systems, each with the first rule that is outside and what is at fault there, in words.
use crate::subject::Subject;
use cert_model::{Blame, Class, condition};
use ctrs_classes::why_not;
use irreducible::{Irreducible, is_absolutely_irreducible_in};
use lens_pages::{Naming, Page, Piece};
use term_core::{NoMemory, Rule};

// The classes in the order of a page.
const CLASSES: [Class; 5] = [
    Class::LeftLinear,
    Class::Type3,
    Class::ExtendedOriented,
    Class::RightStable,
    Class::Deterministic,
];

/// The name of a class.
pub fn class_name(class: Class) -> &'static str {
    match class {
        Class::LeftLinear => "left-linear",
        Class::Type3 => "type 3",
        Class::ExtendedOriented => "extended oriented",
        Class::RightStable => "right-stable",
        Class::Deterministic => "deterministic",
    }
}

// What is at fault in a rule that is not in the class: `#` stands for the variable.
fn fault_words(blame: &Blame) -> &'static str {
    match blame.class {
        Class::LeftLinear => "the variable # stands twice in its left side",
        Class::Type3 =>
            "the variable # of the right side stands neither in the left side nor in a condition",
        Class::ExtendedOriented => {
            "the right side has a variable that gets its value only from conditions behind the first one whose left side has a variable without a value"
        }
        Class::RightStable if blame.variable.is_some() => {
            "the variable # of the right side is not new: it stands in the rule's left side, in a left side up to there or in an earlier right side"
        }
        Class::RightStable => {
            "the right side is neither a linear term of constructors nor a ground term that no left side matches"
        }
        Class::Deterministic if blame.cond == 0 =>
            "the variable # of the right side stands neither in the left side nor in a condition",
        Class::Deterministic => {
            "the variable # of the left side has no value there: it stands neither in the rule's left side nor in an earlier right side"
        }
    }
}

// A rule, and its condition at fault if there is one.
fn put_place(page: &mut Page<'_>, naming: Naming, number: u32, rule: &Rule, cond: u32) {
    page.put(
        "rule #, #: ",
        &[Piece::Number(number as usize), Piece::Rule(naming, rule)],
    );
    if let Some(found) = condition(&rule.conds, cond) {
        page.put(
            "in condition #, #, ",
            &[Piece::Number(cond as usize), Piece::Cond(naming, found)],
        );
    }
}

// The rule with a number, from 1.
fn rule_at<'a>(subject: &'a Subject<'_>, number: u32) -> Option<&'a Rule> {
    let place = (number as usize).checked_sub(1)?;
    subject.prepared.rules().get(place)
}

/// The first rule that is not in the class, and what is at fault there.
pub fn put_blame(page: &mut Page<'_>, subject: &Subject<'_>, blame: &Blame) {
    let naming = subject.in_rule(blame.rule);
    if let Some(rule) = rule_at(subject, blame.rule) {
        put_place(page, naming, blame.rule, rule, blame.cond);
    }
    let x = blame.variable.unwrap_or(0);
    page.put(fault_words(blame), &[Piece::Variable(naming, x)]);
}

fn put_class(page: &mut Page<'_>, subject: &Subject<'_>, class: Class) {
    page.put("  #: ", &[Piece::Words(class_name(class))]);
    match why_not(subject.prepared.system(), class) {
        None => page.words("yes\n"),
        Some(blame) => {
            page.words("no, ");
            put_blame(page, subject, &blame);
            page.words("\n");
        }
    }
}

/// A condition by the numbers of its rule and its own, from 1.
#[derive(Clone, Copy)]
pub struct Asked {
    pub rule: u32,
    pub cond: u32,
}

// The first condition of a rule whose right side is not absolutely irreducible.
fn reducible_in(
    page: &Page<'_>,
    subject: &Subject<'_>,
    rule: &Rule,
) -> Result<Option<u32>, NoMemory> {
    let mut number: u32 = 0;
    'conds: for cond in &rule.conds {
        number = number.saturating_add(1);
        match is_absolutely_irreducible_in(page.alloc, subject.prepared, &cond.right)? {
            Irreducible::Yes => {}
            Irreducible::No | Irreducible::TooLarge => return Ok(Some(number)),
        }
    }
    Ok(None)
}

/// The first condition whose right side is not absolutely irreducible.
pub fn first_reducible(page: &Page<'_>, subject: &Subject<'_>) -> Result<Option<Asked>, NoMemory> {
    let mut number: u32 = 0;
    'rules: for rule in subject.prepared.rules() {
        number = number.saturating_add(1);
        if let Some(cond) = reducible_in(page, subject, rule)? {
            return Ok(Some(Asked { rule: number, cond }));
        }
    }
    Ok(None)
}

/// Which condition has a right side that is not absolutely irreducible.
pub fn put_reducible(page: &mut Page<'_>, subject: &Subject<'_>, asked: Asked) {
    if let Some(rule) = rule_at(subject, asked.rule) {
        put_place(
            page,
            subject.in_rule(asked.rule),
            asked.rule,
            rule,
            asked.cond,
        );
    }
    page.words("the right side has a part that unifies with a left side");
}

/// The classes, a line each, and whether right sides of conditions are absolutely irreducible.
pub fn put_classes(page: &mut Page<'_>, subject: &Subject<'_>, reducible: Option<Asked>) {
    page.words("CLASSES (`ortho` needs the first four, `quasi` the last two)\n");
    'classes: for class in CLASSES {
        put_class(page, subject, class);
    }
    page.words("  right sides of conditions irreducible: ");
    match reducible {
        None => page.words("yes\n"),
        Some(asked) => {
            page.words("no, ");
            put_reducible(page, subject, asked);
            page.words("\n");
        }
    }
    page.words("\n");
}
