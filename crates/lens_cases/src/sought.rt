//! What the wider search answers to each line of `sought.txt`.
//!
//! `BUDGET; FILE` asks for a certificate: the answer is what it shows by the check of its bytes and its text, with a slash for
//! each line end, or that nothing was found or that the budget was spent.
//!
//! Files are written on one line. Empty lines and those that begin with `#` are printed as they are.
ghost use Rattle.std.specs.Prelude.{◌≡◌, map};

use cc_count::Budget;
use cert_check::{Verdict, check_bytes};
use cert_model::Certificate;
use cert_text::write_cert;
use cops_read::{Names, one_reading, read_system};
use std::alloc::{AllocError, Global};
use std::{fs, io};
use term_core::System;
use wide_search::{Search, seek};

// What the certificate shows by the check of its bytes, and its text, with a slash for each line end.
fn of_certificate(
    alloc: Global,
    sys: &System,
    names: &Names,
    cert: &Certificate,
) -> Result<String, AllocError>
    requires named { sys.now.arities ≡ map (λ s. s.1) names.now.symbols }
{
    let mut bytes = Vec::new(alloc);
    if write_cert(alloc, names, cert, &mut bytes).is_err() {
        return String::from_str(alloc, "no memory");
    }
    let text = std::str::from_utf8(&bytes)
        .unwrap_or("?")
        .replace(alloc, "\n", "/")?;
    let answer = match check_bytes(alloc, sys, names, &bytes) {
        Ok(Verdict::Yes) => "YES",
        Ok(Verdict::No) => "NO",
        Err(_) => "REJECTED",
    };
    format!(in alloc; "{answer} {text}")
}

// What the search in a file finds within the budget.
fn of_search(alloc: Global, budget: u64, file: &str) -> Result<String, AllocError> {
    one_reading();
    let Ok((sys, names)) = read_system(alloc, file.as_bytes()) else {
        return String::from_str(alloc, "no system");
    };
    let mut budget = Budget::new(budget);
    match seek(alloc, &sys, &names, &mut budget) {
        Ok(Search::Found(cert)) => of_certificate(alloc, &sys, &names, &cert),
        Ok(Search::Nothing) => String::from_str(alloc, "nothing"),
        Ok(Search::Spent) => String::from_str(alloc, "spent"),
        Err(_) => String::from_str(alloc, "no memory"),
    }
}

fn told_of(alloc: Global, line: &str) -> Result<String, AllocError> {
    let (budget, file) = line.split_once("; ").unwrap_or((line, ""));
    match budget.parse::<u64>() {
        Ok(budget) => of_search(alloc, budget, file),
        Err(_) => String::from_str(alloc, "no question"),
    }
}

/// Prints what is found.
pub fn print_searches(rt: &HostRuntime) -> io::Result<()> {
    let text = fs::read_to_string(rt, "sought.txt")?;
    for line in text.as_str().lines() {
        if line.is_empty() || line.starts_with('#') {
            println!(rt; "{line}")?;
        } else {
            let told = told_of(rt.alloc(), line)?;
            println!(rt; "{line}  =>  {told}")?;
        }
    }
    Ok(())
}
