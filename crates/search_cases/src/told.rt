//! Steps and systems as text.
use cert_model::{InfEvidence, Simp};
use cops_read::Names;
use std::alloc::{AllocError, Global};
use term_core::{Cond, Rule, System, Term};

// a longer text of a rule is told by its length
const WIDEST: usize = 200;

/// The steps, with commas between.
pub fn put_steps(alloc: Global, out: &mut String, steps: &[Simp]) -> Result<(), AllocError> {
    for (i, step) in steps.iter().enumerate() {
        if i > 0 {
            out.push_str(", ")?;
        }
        match step {
            Simp::Drop { rule, evidence } => match evidence {
                InfEvidence::Tcap => {
                    out.push_str(format!(in alloc; "drop {rule} tcap")?.as_str())?;
                }
                InfEvidence::Auto { cond, .. } => {
                    out.push_str(format!(in alloc; "drop {rule} auto {cond}")?.as_str())?;
                }
            },
            Simp::Inline { rule, cond } => {
                out.push_str(format!(in alloc; "inline {rule} {cond}")?.as_str())?;
            }
        }
    }
    Ok(())
}

// A term, with `|K` for the variable K.
fn put_term(alloc: Global, out: &mut String, names: &Names, t: &Term) -> Result<(), AllocError> {
    match t {
        Term::Var(k) => out.push_str(format!(in alloc; "|{k}")?.as_str()),
        Term::Fun(f, args) => {
            out.push_str(names.symbol_name(*f).unwrap_or("?"))?;
            for (i, arg) in args.iter().enumerate() {
                out.push_str(if i == 0 { "(" } else { "," })?;
                put_term(alloc, out, names, arg)?;
            }
            if args.is_empty() {
                return Ok(());
            }
            out.push_str(")")
        }
    }
}

fn put_conds(
    alloc: Global,
    out: &mut String,
    names: &Names,
    conds: &[Cond],
) -> Result<(), AllocError> {
    for (i, cond) in conds.iter().enumerate() {
        out.push_str(if i == 0 { " | " } else { ", " })?;
        put_term(alloc, out, names, &cond.left)?;
        out.push_str(" == ")?;
        put_term(alloc, out, names, &cond.right)?;
    }
    Ok(())
}

fn rule_text(alloc: Global, names: &Names, rule: &Rule) -> Result<String, AllocError> {
    let mut out = String::new(alloc);
    put_term(alloc, &mut out, names, &rule.left)?;
    out.push_str(" -> ")?;
    put_term(alloc, &mut out, names, &rule.right)?;
    put_conds(alloc, &mut out, names, &rule.conds)?;
    Ok(out)
}

/// The rules, each with the number of its variables, and how many symbols are the file's where these are not all.
pub fn put_rules(
    alloc: Global,
    out: &mut String,
    names: &Names,
    sys: &System,
) -> Result<(), AllocError> {
    if sys.rules().is_empty() {
        out.push_str("no rules")?;
    }
    for (i, rule) in sys.rules().iter().enumerate() {
        if i > 0 {
            out.push_str(". ")?;
        }
        let text = rule_text(alloc, names, rule)?;
        if text.len() > WIDEST {
            out.push_str(format!(in alloc; "a rule of {} bytes", text.len())?.as_str())?;
        } else {
            out.push_str(text.as_str())?;
        }
        out.push_str(format!(in alloc; " ({})", rule.vars)?.as_str())?;
    }
    let (own, all) = (sys.own(), sys.arities().len());
    if own as usize != all {
        out.push_str(format!(in alloc; "; {own} of {all} symbols are the file's")?.as_str())?;
    }
    Ok(())
}
