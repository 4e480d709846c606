//! The program: hands the words, the real files and the two standard streams to `concon_run`, and ends with its status.
#![tactic(auto)]

use concon_run::{Status, run};
use disk_io::{DiskShelf, StreamSink, words_of};
use std::io::ErrorKind;
use std::process::ExitCode;

// How a run ends whose words were not taken, since memory was refused or they are no texts. Nothing is written.
fn without_words(error: &std::io::Error) -> Status {
    if error.kind() == ErrorKind::OutOfMemory {
        Status::NoMemory
    } else {
        Status::Usage
    }
}

fn run_on_disk(rt: &HostRuntime) -> std::io::Result<Status> {
    let owned = words_of(rt)?;
    let mut words = Vec::new(rt.alloc());
    for word in &owned {
        words.push(word.as_str())?;
    }
    let mut shelf = DiskShelf::new(rt, &words);
    let mut out = StreamSink::new(rt.stdout());
    let mut err = StreamSink::new(rt.stderr());
    Ok(run(rt.alloc(), &words, &mut shelf, &mut out, &mut err))
}

fn main(rt: HostRuntime) -> ExitCode {
    let status = match run_on_disk(&rt) {
        Ok(status) => status,
        Err(error) => without_words(&error),
    };
    ExitCode::from(status.code())
}
