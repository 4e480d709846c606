//! Cases of the companion: what is said to words, with a file and a certificate.
//!
//! Each word that the program is given names a file of cases, which begins with an account of their form. For each case it prints how the run ended and
//! what was written on the error stream. Then it prints what is said where a file or a stream fails, and last the pages themselves.
#![tactic(auto)]

mod ari;
mod faults;
mod shown;
mod sought;
mod told;

use case_texts::{Case, case_of, text_of};
use cc_io::{MemoryFile, MemoryShelf, MemorySink};
use lens_run::{Status, run};
use std::alloc::{AllocError, Global};
use std::{env, fs, io};

// The words of a case that gives none.
const USUAL_WORDS: &str = "show x.trs";

fn files_of(alloc: Global, file: &str, cert: &str) -> Result<Vec<MemoryFile>, AllocError> {
    let mut files = Vec::new(alloc);
    for (name, text) in [("x.trs", file), ("c.crt", cert)] {
        files.push(MemoryFile {
            name: String::from_str(alloc, name)?,
            bytes: Vec::from_slice(alloc, text.as_bytes())?,
        })?;
    }
    Ok(files)
}

// A run of which its caller is told the status alone, and none of its clauses.
fn status_of_run(
    alloc: Global,
    words: &str,
    shelf: &mut MemoryShelf,
    out: &mut MemorySink,
    err: &mut MemorySink,
) -> Result<Status, AllocError> {
    let mut list = Vec::new(alloc);
    for word in words.split_whitespace() {
        list.push(word)?;
    }
    Ok(run(alloc, &list, shelf, out, err))
}

fn print_text(rt: &HostRuntime, bytes: &[u8]) -> io::Result<()> {
    let text = String::from_utf8_lossy(rt.alloc(), bytes)?;
    for line in text.lines() {
        println!(rt; "| {line}")?;
    }
    Ok(())
}

fn print_case(rt: &HostRuntime, case: Case, cert: &str) -> io::Result<()> {
    let alloc = rt.alloc();
    let file = text_of(alloc, case.file)?;
    let cert = text_of(alloc, cert)?;
    let mut shelf = MemoryShelf::new(files_of(alloc, &file, &cert)?, Vec::new(alloc));
    let mut out = MemorySink::new(alloc, 1000000, 4096, Vec::new(alloc))?;
    let mut err = MemorySink::new(alloc, 1000000, 4096, Vec::new(alloc))?;
    println!(rt; "= {}", case.title)?;
    let words = case.words.unwrap_or(USUAL_WORDS);
    let status = status_of_run(alloc, words, &mut shelf, &mut out, &mut err)?;
    println!(rt; "{status:?} {}", status.code())?;
    print_text(rt, err.written())
}

fn print_cases(rt: &HostRuntime, name: &str) -> io::Result<()> {
    let text = fs::read_to_string(rt, name)?;
    let cases = text.strip_suffix("\n").unwrap_or(&text);
    let mut cert = "";
    for part in cases.split("\n\n= ").skip(1) {
        let case = case_of(part);
        cert = case.certificate.unwrap_or(cert);
        print_case(rt, case, cert)?;
    }
    Ok(())
}

fn main(rt: HostRuntime) -> io::Result<()> {
    for name in env::args(&rt)?.skip(1) {
        print_cases(&rt, &name)?;
    }
    faults::print_faults(&rt)?;
    ari::print_problems(&rt)?;
    told::print_pages(&rt)?;
    shown::print_pages(&rt)?;
    sought::print_searches(&rt)
}
