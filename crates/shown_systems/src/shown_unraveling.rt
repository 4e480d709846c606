//! The unraveled system, over which measures are judged.
use crate::shown_rules::put_rule;
use crate::subject::Subject;
use lens_pages::{Naming, Page, Piece};
use unravel::{UnravelError, Unraveled, unravel};

// The most rules that are shown.
const MOST: usize = 200;

fn put_symbols(page: &mut Page<'_>, unraveled: &Unraveled) {
    page.words("  symbols:");
    'symbols: for (head, arity) in unraveled
        .heads
        .iter()
        .zip(unraveled.system.arities().iter())
    {
        page.put(
            " #/#",
            &[Piece::Head(*head), Piece::Number(*arity as usize)],
        );
    }
    page.words("\n");
}

fn put_made(page: &mut Page<'_>, unraveled: &Unraveled) {
    let count = unraveled.system.rules().len();
    page.put("#\n", &[Piece::Count(count, " rule", " rules")]);
    put_symbols(page, unraveled);
    page.set_heads(&unraveled.heads);
    'rules: for (i, rule) in unraveled.system.rules().iter().take(MOST).enumerate() {
        put_rule(page, Naming::Numbered, i.saturating_add(1), rule);
    }
    page.set_heads(&[]);
    if count > MOST {
        page.line(2, "and # more", &[Piece::Number(count - MOST)]);
    }
}

/// The unraveled system with the numbers of its rules, of which a measure is judged.
pub fn put_unraveling(page: &mut Page<'_>, subject: &Subject<'_>) {
    page.words("UNRAVELED SYSTEM (each rule must fall under the measure of `quasi`): ");
    match unravel(page.alloc, subject.prepared.system()) {
        Ok(unraveled) => put_made(page, &unraveled),
        Err(UnravelError::TooLarge { rule }) => page.put(
            "a side that comes of rule # is too large, so that no measure is good\n",
            &[Piece::Number(rule as usize)],
        ),
        Err(UnravelError::NoMemory) => page.refuse(),
    }
    page.words("\n");
}
