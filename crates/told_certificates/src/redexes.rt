//! Redexes of the ends of a peak, each with the evidence that its conditions are never met.
ghost use Rattle.std.specs.Prelude.{◌≤◌};
ghost use Rattle.redex_conditions.specs.Judged.{IsOfSystem};

use crate::breaks::break_off;
use crate::evidence::tell_infeasible;
use crate::rules::rule_of;
use crate::scene::Scene;
use cert_model::Redex;
use lens_pages::{Naming, Page, Piece};
use matching::{Match, match_term};
use redex_conditions::conditions_at;
use term_core::{Cond, MAX_NODES, Rule, Subst, Term, subterm};

// A number above those of all variables, or `MAX_NODES` where these are larger.
fn above(t: &Term) -> u32
    ensures { result ≤ MAX_NODES }
{
    match t {
        Term::Var(x) => x.saturating_add(1).min(MAX_NODES),
        Term::Fun(_, args) => {
            let mut most = 0;
            for arg in args {
                most = above(arg).max(most);
            }
            most
        }
    }
}

// Tells where the redex is.
fn tell_place<'x>(
    page: &mut Page<'_>,
    scene: Scene<'_>,
    redex: &'x Redex,
    part: &'x Term,
    rule: &'x Rule,
) {
    let end = if redex.which == 1 { "first" } else { "second" };
    page.line(
        2,
        "In the # end, #, rule #, #, matches #.",
        &[
            Piece::Words(end),
            Piece::At(&redex.pos),
            Piece::Number(redex.rule as usize),
            Piece::Rule(scene.naming(redex.rule), rule),
            Piece::Term(Naming::Numbered, part),
        ],
    )
}

fn tell_here(page: &mut Page<'_>, conds: &[Cond]) {
    page.indent(4);
    page.words("There it asks for ");
    for (i, cond) in conds.iter().enumerate() {
        if i > 0 {
            page.words(", ");
        }
        page.put("#", &[Piece::Cond(Naming::Numbered, cond)]);
    }
    page.words(".\n")
}

// Tells that the conditions under these values are never met.
fn tell_conditions(page: &mut Page<'_>, own: u32, redex: &Redex, rule: &Rule, values: Subst)
    requires sound { IsOfSystem rule.now }
    requires own { own ≤ MAX_NODES }
{
    let made = conditions_at(page.alloc, rule, values, own);
    let Some(found) = page.got(made) else {
        return;
    };
    let Some(conds) = found else {
        return break_off(page, 4, "here its conditions are too large", &[]);
    };
    tell_here(page, &conds);
    tell_infeasible(page, 4, Naming::Numbered, &conds, &redex.evidence)
}

fn tell_redex(page: &mut Page<'_>, scene: Scene<'_>, end: &Term, redex: &Redex) {
    let Some(rule) = rule_of(scene, redex.rule) else {
        return tell_none(page, redex, end);
    };
    let Some(part) = subterm(end, &redex.pos) else {
        return tell_none(page, redex, end);
    };
    let matched = match_term(page.alloc, &rule.left, part);
    match page.got(matched) {
        Some(Match::Bound(values)) => {
            tell_place(page, scene, redex, part, rule);
            tell_conditions(page, above(end), redex, rule, values);
        }
        Some(Match::Unmatched) => tell_none(page, redex, end),
        None => {}
    }
}

// Tells that there is no such redex.
fn tell_none<'x>(page: &mut Page<'_>, redex: &'x Redex, end: &'x Term) {
    break_off(
        page,
        2,
        "here rule # is to match # in #, and does not",
        &[
            Piece::Number(redex.rule as usize),
            Piece::At(&redex.pos),
            Piece::Term(Naming::Numbered, end),
        ],
    )
}

/// Tells the redexes of two ends.
pub fn tell_redexes(
    page: &mut Page<'_>,
    scene: Scene<'_>,
    first: &Term,
    second: &Term,
    redexes: &[Redex],
) {
    for redex in redexes {
        let end = if redex.which == 1 { first } else { second };
        tell_redex(page, scene, end, redex);
    }
}
