//! Problems of the other format: what each is in this one, or why there is none, and where. A line of `ari.txt` is a problem, but that a
//! line that begins with `#` is a heading.
use ari_text::ari_to_cops;
use std::alloc::{AllocError, Global};
use std::{fs, io};

const PROBLEMS: [&str; 9] = [
    "bars.ari",
    "comments.ari",
    "empty.ari",
    "join.ari",
    "join_plain.ari",
    "meta.ari",
    "oriented.ari",
    "oriented_plain.ari",
    "trs.ari",
];

// The text of a problem, or why there is none.
fn told(alloc: Global, bytes: &[u8]) -> Result<String, AllocError> {
    match ari_to_cops(alloc, bytes) {
        Ok(text) => String::from_utf8_lossy(alloc, &text),
        Err(error) => format!(in alloc; "{error}\n"),
    }
}

fn print_problem(rt: &HostRuntime, file: &str) -> io::Result<()> {
    let text = fs::read_to_string(rt, file)?;
    let answer = told(rt.alloc(), text.as_bytes())?;
    println!(rt; "# {file}\n{answer}")
}

fn print_line(rt: &HostRuntime, line: &str) -> io::Result<()> {
    if line.is_empty() || line.starts_with('#') {
        return println!(rt; "{line}");
    }
    let answer = told(rt.alloc(), line.as_bytes())?;
    print!(rt; "{line}  =>  {answer}")
}

/// Prints what each problem is told as.
pub fn print_problems(rt: &HostRuntime) -> io::Result<()> {
    for file in PROBLEMS {
        print_problem(rt, file)?;
    }
    let text = fs::read_to_string(rt, "ari.txt")?;
    for line in text.lines() {
        print_line(rt, line)?;
    }
    Ok(())
}
