//! Prints what operations of the searches answer to each line of the tables in `data/`; the module of a table says how its lines are spelt. Files
//! are written on one line. Empty lines and those that begin with `#` are printed as they are.
#![tactic(auto)]

mod answers;
mod asked;
mod files;
mod lines;
mod made;
mod orders;
mod prefixes;
mod questions;
mod replayed;
mod searched;
mod solving;
mod texts;
mod told;

use questions::question_of;
use std::alloc::{AllocError, Global};
use std::{fs, io};

// What the lines of a table ask for.
#[derive(Clone, Copy)]
enum Table {
    List,
    Steps,
    Certificate,
    Query,
}

// The answer to the question of a line of `lists.txt`.
fn of_list(alloc: Global, line: &str) -> Result<String, AllocError> {
    let conditions = line.strip_prefix("first ");
    let Some(question) = question_of(alloc, conditions.unwrap_or(line))? else {
        return String::from_str(alloc, "no question");
    };
    if conditions.is_some() {
        solving::of_question(alloc, &question)
    } else {
        answers::of_question(alloc, &question)
    }
}

fn told_of(alloc: Global, table: Table, line: &str) -> Result<String, AllocError> {
    match table {
        Table::List => of_list(alloc, line),
        Table::Steps => made::of_line(alloc, line),
        Table::Certificate => searched::of_line(alloc, line),
        Table::Query => asked::of_line(alloc, line),
    }
}

fn print_table(rt: &HostRuntime, table: Table, name: &str) -> io::Result<()> {
    let text = fs::read_to_string(rt, name)?;
    for line in text.as_str().lines() {
        if line.is_empty() || line.starts_with('#') {
            println!(rt; "{line}")?;
        } else {
            let told = told_of(rt.alloc(), table, line)?;
            println!(rt; "{line}  =>  {told}")?;
        }
    }
    Ok(())
}

fn main(rt: HostRuntime) -> io::Result<()> {
    print_table(&rt, Table::List, "lists.txt")?;
    print_table(&rt, Table::Steps, "steps.txt")?;
    orders::print_cases(&rt)?;
    print_table(&rt, Table::Certificate, "searches.txt")?;
    print_table(&rt, Table::Query, "queries.txt")
}
