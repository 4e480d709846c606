//! Evidence that conditions are never met, in words.
use cert_model::{Automaton, InfEvidence, condition};
use lens_pages::{Naming, Page, Piece};
use term_core::Cond;

fn tell_automaton(
    page: &mut Page<'_>,
    margin: usize,
    naming: Naming,
    number: u32,
    cond: &Cond,
    automaton: &Automaton,
) {
    page.line(
        margin,
        "Condition #, #, is never met, by a tree automaton with # (# accepting) and #:",
        &[
            Piece::Number(number as usize),
            Piece::Cond(naming, cond),
            Piece::Count(automaton.states as usize, " state", " states"),
            Piece::Number(automaton.accepting.len()),
            Piece::Count(automaton.transitions.len(), " transition", " transitions"),
        ],
    );
    page.line(
        margin,
        "it accepts whatever # leads to, and no instance of #.",
        &[
            Piece::Term(naming, &cond.left),
            Piece::Term(naming, &cond.right),
        ],
    )
}

fn tell_caps(page: &mut Page<'_>, margin: usize, conds: &[Cond]) {
    let conditions = if conds.len() == 1 {
        "The condition is never met, by caps: what no step can change of its left side does not fit its right side."
    } else {
        "The conditions are never all met, by caps: what no step can change of their left sides does not fit their right sides."
    };
    page.line(margin, "#", &[Piece::Words(conditions)])
}

// Tells that an automaton is given for a condition that there is not.
fn tell_no_condition(page: &mut Page<'_>, margin: usize, number: u32, count: usize) {
    page.line(
        margin,
        "!! here an automaton is given for condition #, and the number of conditions is #",
        &[Piece::Number(number as usize), Piece::Number(count)],
    )
}

/// Tells why these conditions are never met.
pub fn tell_infeasible(
    page: &mut Page<'_>,
    margin: usize,
    naming: Naming,
    conds: &[Cond],
    evidence: &InfEvidence,
) {
    match evidence {
        InfEvidence::Tcap => tell_caps(page, margin, conds),
        InfEvidence::Auto {
            cond: number,
            automaton,
        } => match condition(conds, *number) {
            Some(cond) => tell_automaton(page, margin, naming, *number, cond, automaton),
            None => tell_no_condition(page, margin, *number, conds.len()),
        },
    }
}
