//! What a search answers to a line of `searches.txt`.
//!
//! `ortho BUDGET; FILE` asks for the certificate of an almost orthogonal system, `peak BUDGET; FILE` for one that the system is
//! not confluent, `quasi BUDGET; FILE` for one with a measure: the answer is its text, with a slash for each line end, or that there is none or that the budget is spent; then
//! what is left of the budget and what was spent. Where something is found, the search is asked again with its cost as the budget,
//! and with one unit less.
//! `text; FILE; OTHER; CERTIFICATE` reads the certificate with the names of the first file, and tells whether it has a text with the
//! names of the other. Certificates are written with a slash for each line end.
use crate::texts::{of_certificate, on_one_line};
use cc_count::Budget;
use cops_read::{Names, read_system};
use noncon_search::search_peak;
use ortho_search::{Search, search_ortho};
use quasi_search::search_quasi;
use std::alloc::{AllocError, Global};
use term_core::{NoMemory, System};

// Which certificate is searched for.
#[derive(Clone, Copy)]
enum Kind {
    Ortho,
    Peak,
    Quasi,
}

fn search(
    alloc: Global,
    kind: Kind,
    sys: &System,
    names: &Names,
    budget: &mut Budget,
) -> Result<Search, NoMemory> {
    match kind {
        Kind::Ortho => search_ortho(alloc, sys, names, budget),
        Kind::Peak => search_peak(alloc, sys, names, budget),
        Kind::Quasi => search_quasi(alloc, sys, names, budget),
    }
}

// What the search in a file answers within the budget.
fn of_search(alloc: Global, kind: Kind, budget: u64, file: &str) -> Result<String, AllocError> {
    match read_system(alloc, file.as_bytes()) {
        Ok((sys, names)) => of_system(alloc, kind, budget, &sys, &names),
        Err(e) => format!(in alloc; "{e}"),
    }
}

fn of_system(
    alloc: Global,
    kind: Kind,
    budget: u64,
    sys: &System,
    names: &Names,
) -> Result<String, AllocError> {
    let mut budget = Budget::new(budget);
    let found = search(alloc, kind, sys, names, &mut budget);
    let (left, spent) = (budget.left(), budget.spent());
    let mut out = text_of(alloc, names, &found)?;
    out.push_str(format!(in alloc; "; left {left}, spent {spent}")?.as_str())?;
    if matches!(found, Ok(Search::Found(_))) && !is_exact(alloc, kind, sys, names, spent) {
        out.push_str("; the price is not exact")?;
    }
    Ok(out)
}

fn text_of(
    alloc: Global,
    names: &Names,
    found: &Result<Search, NoMemory>,
) -> Result<String, AllocError> {
    match found {
        Ok(Search::Found(cert)) => on_one_line(alloc, names, cert),
        Ok(Search::Nothing) => String::from_str(alloc, "nothing"),
        Ok(Search::Spent) => String::from_str(alloc, "spent"),
        Err(_) => String::from_str(alloc, "no memory"),
    }
}

// Whether a budget of the price is enough, and one unit less is not, and nothing is left either way.
fn is_exact(alloc: Global, kind: Kind, sys: &System, names: &Names, price: u64) -> bool {
    let mut enough = Budget::new(price);
    let mut less = Budget::new(price.saturating_sub(1));
    let found = search(alloc, kind, sys, names, &mut enough);
    let stopped = search(alloc, kind, sys, names, &mut less);
    matches!(found, Ok(Search::Found(_)))
        && (price == 0 || matches!(stopped, Ok(Search::Spent)))
        && enough.left() == 0
        && less.left() == 0
}

/// What is told of a line.
pub fn of_line(alloc: Global, line: &str) -> Result<String, AllocError> {
    let (asked, rest) = line.split_once("; ").unwrap_or((line, ""));
    let mut words = asked.split_whitespace();
    let kind = words.next().unwrap_or("");
    let budget = words.next().and_then(|word| word.parse::<u64>().ok());
    match (kind, budget) {
        ("ortho", Some(budget)) => of_search(alloc, Kind::Ortho, budget, rest),
        ("peak", Some(budget)) => of_search(alloc, Kind::Peak, budget, rest),
        ("quasi", Some(budget)) => of_search(alloc, Kind::Quasi, budget, rest),
        ("text", None) => of_certificate(alloc, rest),
        _ => String::from_str(alloc, "no question"),
    }
}
