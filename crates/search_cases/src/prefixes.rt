//! The first symbols of the precedence in which symbols stand by their numbers.
ghost use Rattle.unravel.specs.Answers.{IsUnraveled};

use lpo::lpo_prefix;
use measure::Partial;
use std::alloc::Global;
use std::io;
use term_core::{Head, NoMemory, System};
use unravel::{Unraveled, unravel};

// What is said of no symbol, then of one symbol more each time, up to all.
fn answers(alloc: Global, sys: &System, unraveled: &Unraveled) -> Result<Vec<Partial>, NoMemory>
    requires { IsUnraveled sys.now unraveled.now }
{
    let heads: &[Head] = &unraveled.heads;
    let mut answers = Vec::new(alloc);
    'counts: for count in 0..heads.len() {
        answers.push(lpo_prefix(alloc, unraveled, &heads[..count])?)?;
    }
    answers.push(lpo_prefix(alloc, unraveled, heads)?)?;
    Ok(answers)
}

/// What is said of each prefix.
pub fn print_prefixes(rt: &HostRuntime, sys: &System) -> io::Result<()> {
    let Ok(unraveled) = unravel(rt.alloc(), sys) else {
        return println!(rt; "no unraveling");
    };
    println!(rt; "{:?}", answers(rt.alloc(), sys, &unraveled))
}
