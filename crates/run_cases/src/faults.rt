//! What no file of cases can say: runs over files and streams that fail, or give and take little at a time.
ghost use Rattle.std.specs.Prelude.{◌<◌};

use crate::{files_of, print_text, shelf_of, status_of_run};
use cc_io::{MemoryShelf, MemorySink};
use concon_run::Status;
use std::alloc::Global;
use std::io;

const SYSTEM: &str = "(RULES a -> b a -> c)";

const PEAK: &str =
    "concon 1\npeak\nstart a\nsteps 1\nrule 1 e 0\nsteps 1\nrule 2 e 0\nnormal\nend\n";

const MINIMUM: &str =
    "(CONDITIONTYPE ORIENTED)\n(VAR x y)\n(RULES\n  le(0,y) -> true\n  le(s(x),0) -> false\n  le(s(x),s(y)) -> le(x,y)\n  min(x,y) -> x | le(x,y) == true\n  min(x,y) -> y | le(x,y) == false\n)\n";

const CONFLICT: &str = "concon 1\northo\npair 4 e 5 conflict 1 1\nend\n";

const CHECK: &[&str] = &["check", "x.trs", "c.crt"];

const PROVE: &[&str] = &["prove", "x.trs"];

const QUERY: &[&str] = &["query", "x.trs", "q"];

const NO_COMMANDS: &[&[&str]] = &[
    &[],
    &["check", "x.trs"],
    &["prove", "x.trs", "c.crt"],
    &["selftest", "0"],
    &["query", "x.trs"],
    &["query", "x.trs", "q", "--budget"],
    &["query", "x.trs", "q", "--budget", "01"],
    &["query", "x.trs", "q", "c.crt"],
];

const STATUSES: &[Status] = &[
    Status::Yes,
    Status::No,
    Status::Maybe,
    Status::Rejected,
    Status::Usage,
    Status::FileRefused,
    Status::CertRefused,
    Status::QueryRefused,
    Status::ReadFault,
    Status::WriteFault,
    Status::NoMemory,
];

// The number of the call that fails, the first being 1, or 0 where none does.
fn failing(alloc: Global, call: u64) -> io::Result<Vec<u64>> {
    let mut fails = Vec::new(alloc);
    if call > 0 {
        fails.push(call)?;
    }
    Ok(fails)
}

// A stream that takes so many bytes a call, until one fails.
fn slow(alloc: Global, bytes: usize, call: u64) -> io::Result<MemorySink>
    requires { 0 < bytes }
{
    Ok(MemorySink::new(alloc, 1000, bytes, failing(alloc, call)?)?)
}

// Prints how a run ends over this shelf and these streams, and how many bytes it wrote to each.
fn print_run(
    rt: &HostRuntime,
    words: &[&str],
    shelf: &mut MemoryShelf,
    out: &mut MemorySink,
    err: &mut MemorySink,
) -> io::Result<()> {
    let status = status_of_run(rt.alloc(), words, shelf, out, err);
    let (told, complained) = (out.written().len(), err.written().len());
    println!(rt;
        "{status:?} {}, bytes {told} and {complained}",
        status.code()
    )?;
    print_text(rt, "out", out.written())?;
    print_text(rt, "err", err.written())
}

// Each file is begun, read, and read to its end: one of these calls fails, each below a number in turn.
fn print_read_faults(rt: &HostRuntime, words: &[&str], behind: u64) -> io::Result<()> {
    let alloc = rt.alloc();
    for call in 1..behind {
        let mut shelf = shelf_of(alloc, SYSTEM, PEAK, failing(alloc, call)?)?;
        let (mut out, mut err) = (slow(alloc, 100, 0)?, slow(alloc, 100, 0)?);
        print_run(rt, words, &mut shelf, &mut out, &mut err)?;
    }
    Ok(())
}

// What is written to streams that take a byte a call, until the call with a number fails.
fn print_front(rt: &HostRuntime, file: &str, told: u64, complained: u64) -> io::Result<()> {
    let alloc = rt.alloc();
    let mut shelf = shelf_of(alloc, file, PEAK, Vec::new(alloc))?;
    let (mut out, mut err) = (slow(alloc, 1, told)?, slow(alloc, 1, complained)?);
    print_run(rt, CHECK, &mut shelf, &mut out, &mut err)
}

fn print_fronts(rt: &HostRuntime) -> io::Result<()> {
    for call in 1..4 {
        print_front(rt, SYSTEM, call, 0)?;
    }
    for call in 1..18 {
        print_front(rt, "(RULES a -> ", 0, call)?;
    }
    Ok(())
}

// A file and a certificate that come a byte a call.
fn print_in_pieces(rt: &HostRuntime, file: &str, certificate: &str) -> io::Result<()> {
    let alloc = rt.alloc();
    let files = files_of(alloc, file, certificate)?;
    let mut shelf = MemoryShelf::in_pieces(files, Vec::new(alloc), 1);
    let (mut out, mut err) = (slow(alloc, 1, 0)?, slow(alloc, 1, 0)?);
    print_run(rt, CHECK, &mut shelf, &mut out, &mut err)
}

// A run over streams of which both fail, and then one that is no command.
fn print_failing_streams(rt: &HostRuntime) -> io::Result<()> {
    let alloc = rt.alloc();
    let mut shelf = shelf_of(alloc, SYSTEM, PEAK, Vec::new(alloc))?;
    let (mut out, mut err) = (slow(alloc, 2, 2)?, slow(alloc, 2, 1)?);
    print_run(rt, CHECK, &mut shelf, &mut out, &mut err)?;
    print_run(rt, &[], &mut shelf, &mut out, &mut err)
}

// The certificate of a search, to a stream that takes so many bytes until a call fails.
fn print_found(rt: &HostRuntime, bytes: usize, call: u64) -> io::Result<()>
    requires { 0 < bytes }
{
    let alloc = rt.alloc();
    let mut shelf = shelf_of(alloc, SYSTEM, "", Vec::new(alloc))?;
    let (mut out, mut err) = (slow(alloc, bytes, call)?, slow(alloc, 2, 1)?);
    print_run(rt, PROVE, &mut shelf, &mut out, &mut err)
}

fn print_no_commands(rt: &HostRuntime) -> io::Result<()> {
    let alloc = rt.alloc();
    for words in NO_COMMANDS {
        let mut shelf = shelf_of(alloc, SYSTEM, PEAK, failing(alloc, 1)?)?;
        let (mut out, mut err) = (slow(alloc, 100, 0)?, slow(alloc, 100, 0)?);
        print_run(rt, words, &mut shelf, &mut out, &mut err)?;
    }
    Ok(())
}

fn print_statuses(rt: &HostRuntime) -> io::Result<()> {
    for status in STATUSES {
        println!(rt; "{status:?} {}", status.code())?;
    }
    Ok(())
}

/// Prints how each run ends, with what it wrote until then.
pub fn print_faults(rt: &HostRuntime) -> io::Result<()> {
    println!(rt; "= Words that are no command ask nothing of files")?;
    print_no_commands(rt)?;
    println!(rt; "= A fault of a file is named")?;
    print_read_faults(rt, CHECK, 7)?;
    print_read_faults(rt, PROVE, 4)?;
    print_read_faults(rt, QUERY, 7)?;
    println!(rt; "= Each front of an answer may be all, and each of a refusal")?;
    print_fronts(rt)?;
    print_failing_streams(rt)?;
    println!(rt; "= Files may come byte by byte")?;
    print_in_pieces(rt, SYSTEM, PEAK)?;
    print_in_pieces(rt, MINIMUM, CONFLICT)?;
    println!(rt; "= A certificate is written a byte a call, and up to a fault")?;
    print_found(rt, 1, 0)?;
    print_found(rt, 2, 4)?;
    println!(rt; "= All statuses, with their codes")?;
    print_statuses(rt)
}
