//! The tables of certificate texts, with the answer to each text in place of the text.
//!
//! A line `system` gives the system whose symbols the texts behind it name, and a line `behind` what stands in
//! front of each text. A line `text` is a text: the answer is the certificate that is read, as it is written, or
//! the cause of the refusal, its place in the whole text, and a mark `^` before the byte there. Each text is read whole and entry by
//! entry; where the answers differ, both are printed. A line `beginnings`
//! is a text of which each proper beginning is to be refused where it ends. Other lines are printed as they are.
//! In a text `\n` is a line's end, `\s` a space, and `{3 PART}` stands for PART three times.
use crate::readings::{answer, beginnings};
use cops_read::{Names, read_system};
use std::alloc::{AllocError, Global};
use std::{fs, io};

const TABLES: [&str; 3] = ["read.txt", "refused.txt", "limits.txt"];

// What the texts of a table are judged with.
#[derive(Drop)]
struct Given<'a> {
    names: Option<Names>,
    front: &'a str,
}

// What is printed for a line of a table.
fn printed<'a>(alloc: Global, given: &mut Given<'a>, line: &'a str) -> Result<String, AllocError> {
    let (word, rest) = line.split_once(' ').unwrap_or((line, ""));
    if word == "system" {
        given.names = names_of(alloc, rest);
    }
    if word == "behind" {
        given.front = rest;
    }
    match &given.names {
        Some(names) if word == "text" => answer(alloc, names, given.front, rest),
        Some(names) if word == "beginnings" => beginnings(alloc, names, rest),
        _ => String::from_str(alloc, line),
    }
}

fn names_of(alloc: Global, system: &str) -> Option<Names> {
    match read_system(alloc, system.as_bytes()) {
        Ok((_, names)) => Some(names),
        Err(_) => None,
    }
}

/// Prints the tables.
pub fn print_tables(rt: &HostRuntime) -> io::Result<()> {
    for name in TABLES {
        let table = fs::read_to_string(rt, name)?;
        let mut given = Given {
            names: None,
            front: "",
        };
        for line in table.as_str().lines() {
            let told = printed(rt.alloc(), &mut given, line)?;
            println!(rt; "{told}")?;
        }
    }
    Ok(())
}
