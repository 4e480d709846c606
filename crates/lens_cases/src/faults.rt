//! What is said where a file or a stream fails.
use crate::{files_of, print_text, status_of_run};
use cc_io::{MemoryShelf, MemorySink};
use std::alloc::Global;
use std::io;

const SYSTEM: &str = "(RULES a -> b a -> c)";

const PEAK: &str =
    "concon 1\npeak\nstart a\nsteps 1\nrule 1 e 0\nsteps 1\nrule 2 e 0\nnormal\nend\n";

fn failing(alloc: Global, call: u64) -> io::Result<Vec<u64>> {
    let mut fails = Vec::new(alloc);
    fails.push(call)?;
    Ok(fails)
}

// The shelf fails at a call: of three calls each file is begun, read, and read to its end.
fn print_read_fault(rt: &HostRuntime, words: &str, call: u64) -> io::Result<()> {
    let alloc = rt.alloc();
    let mut shelf = MemoryShelf::new(files_of(alloc, SYSTEM, PEAK)?, failing(alloc, call)?);
    let mut out = MemorySink::new(alloc, 100000, 100, Vec::new(alloc))?;
    let mut err = MemorySink::new(alloc, 1000, 100, Vec::new(alloc))?;
    let status = status_of_run(alloc, words, &mut shelf, &mut out, &mut err)?;
    println!(rt; "{words}, call {call}: {status:?} {}", status.code())?;
    print_text(rt, err.written())
}

// The stream for errors fails at a write, of which each takes sixteen bytes.
fn print_write_fault(rt: &HostRuntime, file: &str, words: &str, call: u64) -> io::Result<()> {
    let alloc = rt.alloc();
    let mut shelf = MemoryShelf::new(files_of(alloc, file, PEAK)?, Vec::new(alloc));
    let mut out = MemorySink::new(alloc, 1000, 100, Vec::new(alloc))?;
    let mut err = MemorySink::new(alloc, 1000, 16, failing(alloc, call)?)?;
    let status = status_of_run(alloc, words, &mut shelf, &mut out, &mut err)?;
    println!(rt; "{words}, write {call}: {status:?} {}", status.code())?;
    print_text(rt, err.written())
}

fn print_read_faults(rt: &HostRuntime, words: &str) -> io::Result<()> {
    for call in 1..8 {
        print_read_fault(rt, words, call)?;
    }
    Ok(())
}

fn print_write_faults(rt: &HostRuntime, file: &str, words: &str) -> io::Result<()> {
    for call in 1..4 {
        print_write_fault(rt, file, words, call)?;
    }
    Ok(())
}

/// Prints what is said where a call of a device fails.
pub fn print_faults(rt: &HostRuntime) -> io::Result<()> {
    println!(rt; "= A file fails")?;
    print_read_faults(rt, "show x.trs")?;
    print_read_faults(rt, "tell x.trs c.crt")?;
    println!(rt; "= A file is not there")?;
    print_read_fault(rt, "ari y.ari", 100)?;
    print_read_fault(rt, "tell x.trs d.crt", 100)?;
    println!(rt; "= A stream takes no more")?;
    print_write_faults(rt, "(RULES a -> )", "show x.trs")?;
    print_write_faults(rt, SYSTEM, "show")
}
