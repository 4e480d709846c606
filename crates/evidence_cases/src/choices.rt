//! Whether there are many choices of states.

use automaton_runs::has_more_choices;
use std::io;

/// Of each line with a number of states, a number of occurrences and a limit: whether there are more choices.
pub fn print_choices(rt: &HostRuntime, text: &str) -> io::Result<()> {
    for line in text.lines() {
        print_line(rt, line)?;
    }
    Ok(())
}

fn print_line(rt: &HostRuntime, line: &str) -> io::Result<()> {
    let mut words = line.split_whitespace();
    let states: u32 = words.next().unwrap_or("").parse().unwrap_or(0);
    let length: usize = words.next().unwrap_or("").parse().unwrap_or(0);
    let limit: u32 = words.next().unwrap_or("").parse().unwrap_or(1);
    if limit == 0 {
        return Ok(());
    }
    println!(rt; "{line}: more {}", has_more_choices(states, length, limit))
}
