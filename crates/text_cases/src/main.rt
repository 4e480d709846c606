//! Tells of each text of `data/` what it is: of a system its tokens, its tree, its system and what is written of that, or
//! the refusal and its place; and of a certificate the same. A line of a file is a text, but that a line that begins with `#` is a heading.
#![tactic(auto)]

mod answers;
mod built;
mod case;
mod cert_tables;
mod entries;
mod readings;
mod texts;

use case::bytes_of;
use std::{fs, io};

// What is told of the texts of a file.
#[derive(Clone, Copy)]
enum Told {
    Tokens,
    Tree,
    System,
    Writing,
    LastLeft,
}

fn print_line(rt: &HostRuntime, told: Told, line: &str) -> io::Result<()> {
    if line.is_empty() || line.starts_with('#') {
        return println!(rt; "{line}");
    }
    let alloc = rt.alloc();
    let bytes = bytes_of(alloc, line)?;
    let answer = match told {
        Told::Tokens => answers::of_tokens(alloc, &bytes),
        Told::Tree => answers::of_tree(alloc, &bytes),
        Told::System => answers::of_system(alloc, &bytes),
        Told::Writing => answers::of_writing(alloc, &bytes),
        Told::LastLeft => answers::of_last_left(alloc, &bytes),
    }?;
    println!(rt; "{line}  =>  {answer}")
}

fn print_file(rt: &HostRuntime, told: Told, file: &str) -> io::Result<()> {
    let text = fs::read_to_string(rt, file)?;
    for line in text.lines() {
        print_line(rt, told, line)?;
    }
    println!(rt; "")
}

fn main(rt: HostRuntime) -> io::Result<()> {
    print_file(&rt, Told::Tokens, "tokens.txt")?;
    print_file(&rt, Told::Tree, "trees.txt")?;
    print_file(&rt, Told::System, "systems.txt")?;
    print_file(&rt, Told::Writing, "written.txt")?;
    print_file(&rt, Told::LastLeft, "terms.txt")?;
    let added = built::added(rt.alloc())?;
    println!(rt; "# A symbol is added, and another of its name\n{added}")?;
    let text = built::without_rules(rt.alloc())?;
    println!(rt; "# A system with a symbol that no rule uses\n{text}")?;
    cert_tables::print_tables(&rt)
}
