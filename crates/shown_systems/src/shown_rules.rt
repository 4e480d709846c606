//! The system as it was read: its symbols and its rules with their numbers.
use crate::subject::Subject;
use lens_pages::{Naming, Page, Piece};
use term_core::{Head, Rule, System};

// The symbols in a line.
const IN_A_LINE: usize = 12;

// The symbols with their arities.
fn put_symbols(page: &mut Page<'_>, arities: &[u32]) {
    page.words("  symbols:");
    let mut f: u32 = 0;
    'symbols: for (i, arity) in arities.iter().enumerate() {
        page.words(if i > 0 && i % IN_A_LINE == 0 {
            "\n    "
        } else {
            " "
        });
        page.put(
            "#/#",
            &[Piece::Head(Head::File(f)), Piece::Number(*arity as usize)],
        );
        f = f.saturating_add(1);
    }
    page.words("\n");
}

// What stands for the conditions of join rules, where there are two symbols more than the file has.
fn put_joins(page: &mut Page<'_>, sys: &System) {
    let join = sys.own();
    if (join as usize) < sys.arities().len() {
        page.line(
            2,
            "join rules: a condition s == t of the file is #(s,t) == # here; these two symbols and the last rule are not the file's",
            &[
                Piece::Head(Head::File(join)),
                Piece::Head(Head::File(join.saturating_add(1))),
            ],
        );
    }
}

/// A rule with its number.
pub fn put_rule(page: &mut Page<'_>, naming: Naming, number: usize, rule: &Rule) {
    page.line(
        2,
        "#: #",
        &[Piece::Number(number), Piece::Rule(naming, rule)],
    );
}

/// The rules with their numbers, a line each.
pub fn put_rules(page: &mut Page<'_>, subject: &Subject<'_>) {
    let mut number: u32 = 0;
    'rules: for rule in subject.prepared.rules() {
        number = number.saturating_add(1);
        put_rule(page, subject.in_rule(number), number as usize, rule);
    }
}

/// The system as it was read.
pub fn put_system(page: &mut Page<'_>, subject: &Subject<'_>) {
    let sys: &System = subject.prepared.system();
    page.line(
        0,
        "SYSTEM: #, #",
        &[
            Piece::Count(sys.rules().len(), " rule", " rules"),
            Piece::Count(sys.arities().len(), " symbol", " symbols"),
        ],
    );
    put_symbols(page, sys.arities());
    put_joins(page, sys);
    put_rules(page, subject);
    page.words("\n");
}
