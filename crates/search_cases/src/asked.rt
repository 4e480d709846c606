//! What is answered to a query, for a line of `queries.txt`.
//!
//! `BUDGET; FILE; QUERY` asks the query of the system of the file, within so many units. The answer is what was found, with a slash for each
//! line end, what is left of the budget and what was spent; or why the text is no query, and where. Where the budget was enough, the query is
//! asked again with the units that were spent, and with one unit less. Derivations that are found are replayed.
ghost use Rattle.std.specs.Prelude.{◌≡◌, map};

use crate::lines::expanded;
use crate::replayed::are_replayed;
use cc_count::Budget;
use cert_model::Derivation;
use cert_writing::{write_cert_term, write_deriv, write_inf};
use cops_read::{Names, read_system};
use query::{Query, QueryError, Reply, ask};
use std::alloc::{AllocError, Global};
use term_core::{NoMemory, System, Term};

/// The answer to the question of a line.
pub fn of_line(alloc: Global, line: &str) -> Result<String, AllocError> {
    let (budget, rest) = line.split_once("; ").unwrap_or((line, ""));
    let (file, text) = rest.split_once("; ").unwrap_or((rest, ""));
    let Ok(budget) = budget.parse::<u64>() else {
        return String::from_str(alloc, "no question");
    };
    let file = expanded(alloc, file)?;
    let text = expanded(alloc, text)?;
    of_file(alloc, file.as_bytes(), text.as_bytes(), budget)
}

fn of_file(alloc: Global, file: &[u8], bytes: &[u8], budget: u64) -> Result<String, AllocError> {
    match read_system(alloc, file) {
        Ok((sys, names)) => of_system(alloc, &sys, &names, bytes, budget),
        Err(e) => format!(in alloc; "{e}"),
    }
}

fn of_system(
    alloc: Global,
    sys: &System,
    names: &Names,
    bytes: &[u8],
    budget: u64,
) -> Result<String, AllocError>
    requires { sys.now.arities ≡ map (λ s. s.1) names.now.symbols }
{
    let mut units = Budget::new(budget);
    match ask(alloc, sys, names, bytes, &mut units) {
        Ok((query, reply)) => {
            let (left, spent) = (units.left(), units.spent());
            let mut out = text_of(alloc, names, &query, &reply)?;
            out.push_str(format!(in alloc; "; left {left}, spent {spent}")?.as_str())?;
            if !matches!(reply, Reply::Spent) && !is_exact(alloc, sys, names, bytes, spent) {
                out.push_str("; the price is not exact")?;
            }
            if let Reply::Meets(values, ds) = &reply
                && !are_replayed(alloc, sys, &query.conds, values, ds)
            {
                out.push_str("; not replayed")?;
            }
            Ok(out)
        }
        Err(e) => format!(in alloc; "{e}"),
    }
}

// Whether so many units are enough, and one less is not, and nothing is left either way.
fn is_exact(alloc: Global, sys: &System, names: &Names, bytes: &[u8], price: u64) -> bool
    requires { sys.now.arities ≡ map (λ s. s.1) names.now.symbols }
{
    let mut enough = Budget::new(price);
    let mut less = Budget::new(price.saturating_sub(1));
    let found = ask(alloc, sys, names, bytes, &mut enough);
    let stopped = ask(alloc, sys, names, bytes, &mut less);
    !is_spent(&found) && is_spent(&stopped) && enough.left() == 0 && less.left() == 0
}

fn is_spent(answer: &Result<(Query, Reply), QueryError>) -> bool {
    matches!(answer, Ok((_, Reply::Spent)) | Err(_))
}

fn text_of(
    alloc: Global,
    names: &Names,
    query: &Query,
    reply: &Reply,
) -> Result<String, AllocError> {
    let mut out = Vec::new(alloc);
    let written = match reply {
        Reply::Infeasible(evidence) => {
            out.extend_from_slice(b"YES\n")?;
            write_inf(alloc, names, evidence, &mut out)
        }
        Reply::Meets(values, ds) => {
            out.extend_from_slice(b"NO\n")?;
            put_met(alloc, names, query, values, ds, &mut out)
        }
        Reply::Exhausted => {
            out.extend_from_slice(b"MAYBE exhausted\n")?;
            Ok(())
        }
        Reply::Spent => {
            out.extend_from_slice(b"MAYBE budget\n")?;
            Ok(())
        }
    };
    if written.is_err() {
        return String::from_str(alloc, "no memory");
    }
    std::str::from_utf8(&out)
        .unwrap_or("?")
        .replace(alloc, "\n", "/")
}

fn put_met(
    alloc: Global,
    names: &Names,
    query: &Query,
    values: &[Term],
    ds: &[Derivation],
    out: &mut Vec<u8>,
) -> Result<(), NoMemory> {
    for (i, value) in values.iter().enumerate() {
        out.extend_from_slice(b"value ")?;
        if let Some(name) = query.names.get(i) {
            out.extend_from_slice(name.as_bytes())?;
        }
        out.extend_from_slice(b" ")?;
        write_cert_term(alloc, names, value, out)?;
        out.extend_from_slice(b"\n")?;
    }
    for d in ds {
        write_deriv(alloc, names, d, out)?;
    }
    Ok(())
}
