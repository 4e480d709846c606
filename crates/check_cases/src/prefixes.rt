//! The first entries of an interpretation.
ghost use Rattle.std.specs.Prelude.{◌≡◌, ◌+◌, [], IfOk, replicate};
ghost use Rattle.term_core.specs.HeadView.{head_view};
ghost use Rattle.cert_model.specs.CertificateView.{linear_entry_view};
ghost use Rattle.grid_search.specs.Prefix.{HasPrefix};

use cert_model::LinearEntry;
use grid_search::check_prefix;
use measure::Partial;
use std::alloc::Global;
use std::io;
use term_core::{Head, NoMemory, System};
use unravel::{Unraveled, unravel};

// The entry of a symbol with all numbers 1.
fn ones(alloc: Global, head: Head, arity: u32) -> Result<LinearEntry, NoMemory>
    ensures { IfOk result (λ e. linear_entry_view e ≡ record { head = head_view head; coefficients = replicate (arity + 1) 1 }) }
{
    let coeffs = vec![in alloc; 1; arity as usize + 1]?;
    Ok(LinearEntry { head, coeffs })
}

// What is said of no entry, then of one entry more each time, up to an entry for each symbol.
fn answers(alloc: Global, unraveled: &Unraveled) -> Result<Vec<Partial>, NoMemory>
    requires { HasPrefix unraveled.now [] }
{
    let arities = unraveled.system.arities();
    let mut prefix = Vec::new(alloc);
    let mut answers = Vec::new(alloc);
    answers.push(check_prefix(alloc, unraveled, &prefix)?)?;
    'symbols: for (symbol, head) in unraveled.heads.iter().enumerate() {
        prefix.push(ones(alloc, *head, arities[symbol])?)?;
        answers.push(check_prefix(alloc, unraveled, &prefix)?)?;
    }
    Ok(answers)
}

/// What is said of each prefix of the interpretation by ones alone.
pub fn print_prefixes(rt: &HostRuntime, sys: &System) -> io::Result<()> {
    // The system's own rules are over its symbols: what the prefixes rest on.
    let own_rules = sys.rules();
    prove!(own_rules.len() < u32::MAX as usize);
    let Ok(unraveled) = unravel(rt.alloc(), sys) else {
        return println!(rt; "no unraveling");
    };
    println!(rt; "{:?}", answers(rt.alloc(), &unraveled))
}
