//! Cases of `run`: what is answered to a file and a certificate, or a query.
//!
//! Each word that the program is given names a file of cases, which begins with an account of their form. For each case it
//! prints how the run ended and what was written; and the same of runs over files and streams that fail.
#![tactic(auto)]

mod faults;

use case_texts::{Case, case_of, text_of};
use cc_io::{MemoryFile, MemoryShelf, MemorySink};
use concon_run::{Status, run};
use std::alloc::{AllocError, Global};
use std::{env, fs, io};

// The words of a case that gives none.
const USUAL_WORDS: &str = "check x.trs c.crt";

fn files_of(alloc: Global, file: &str, certificate: &str) -> Result<Vec<MemoryFile>, AllocError> {
    let mut files = Vec::new(alloc);
    files.push(MemoryFile {
        name: String::from_str(alloc, "x.trs")?,
        bytes: Vec::from_slice(alloc, file.as_bytes())?,
    })?;
    files.push(MemoryFile {
        name: String::from_str(alloc, "c.crt")?,
        bytes: Vec::from_slice(alloc, certificate.as_bytes())?,
    })?;
    files.push(MemoryFile {
        name: String::from_str(alloc, "q")?,
        bytes: Vec::from_slice(alloc, certificate.as_bytes())?,
    })?;
    Ok(files)
}

fn shelf_of(
    alloc: Global,
    file: &str,
    certificate: &str,
    fails: Vec<u64>,
) -> Result<MemoryShelf, AllocError> {
    Ok(MemoryShelf::new(files_of(alloc, file, certificate)?, fails))
}

// A run of which its caller is told the status alone, and none of its clauses.
fn status_of_run(
    alloc: Global,
    words: &[&str],
    shelf: &mut MemoryShelf,
    out: &mut MemorySink,
    err: &mut MemorySink,
) -> Status {
    run(alloc, words, shelf, out, err)
}

fn print_text(rt: &HostRuntime, name: &str, bytes: &[u8]) -> io::Result<()> {
    let text = String::from_utf8_lossy(rt.alloc(), bytes)?;
    for line in text.lines() {
        println!(rt; "{name}: {line}")?;
    }
    Ok(())
}

// Prints what is answered to the words; where it is that a system is confluent, or that it is not, what was written.
fn print_answer(
    rt: &HostRuntime,
    words: &str,
    shelf: &mut MemoryShelf,
) -> io::Result<Option<String>> {
    let alloc = rt.alloc();
    let mut list = Vec::new(alloc);
    for word in words.split_whitespace() {
        list.push(word)?;
    }
    let mut out = MemorySink::new(alloc, 200, 200, Vec::new(alloc))?;
    let mut err = MemorySink::new(alloc, 200, 200, Vec::new(alloc))?;
    let status = status_of_run(alloc, &list, shelf, &mut out, &mut err);
    println!(rt; "{status:?} {}", status.code())?;
    print_text(rt, "out", out.written())?;
    print_text(rt, "err", err.written())?;
    match status {
        Status::Yes | Status::No => Ok(Some(String::from_utf8_lossy(alloc, out.written())?)),
        _ => Ok(None),
    }
}

// Prints what is answered to a case, and what a check of a certificate answers that was found.
fn print_case(rt: &HostRuntime, case: Case, certificate: &str) -> io::Result<()> {
    let alloc = rt.alloc();
    let file = text_of(alloc, case.file)?;
    let certificate = text_of(alloc, certificate)?;
    let mut shelf = shelf_of(alloc, &file, &certificate, Vec::new(alloc))?;
    println!(rt; "= {}", case.title)?;
    let words = case.words.unwrap_or(USUAL_WORDS);
    let found = print_answer(rt, words, &mut shelf)?;
    match found {
        Some(found) if words.trim().starts_with("prove ") => {
            let mut shelf = shelf_of(alloc, &file, &found, Vec::new(alloc))?;
            println!(rt; "checked:")?;
            print_answer(rt, "check x.trs c.crt", &mut shelf)?;
            Ok(())
        }
        _ => Ok(()),
    }
}

fn print_cases(rt: &HostRuntime, name: &str) -> io::Result<()> {
    let text = fs::read_to_string(rt, name)?;
    let cases = text.strip_suffix("\n").unwrap_or(&text);
    let mut certificate = "";
    for part in cases.split("\n\n= ").skip(1) {
        let case = case_of(part);
        certificate = case.certificate.unwrap_or(certificate);
        print_case(rt, case, certificate)?;
    }
    Ok(())
}

fn main(rt: HostRuntime) -> io::Result<()> {
    for name in env::args(&rt)?.skip(1) {
        print_cases(&rt, &name)?;
    }
    faults::print_faults(&rt)
}
