//! Shelves and sinks that give or take few bytes, fail at given calls, run full or never end: what is read and written over them.
use cc_count::ProofCount;
use cc_io::{
    Failed, MemoryFile, MemoryShelf, MemorySink, ReadAllError, Shelf, Sink, WriteFault, read_all,
    write_all,
};
use std::alloc::Global;
use std::test::Fail;

fn files(alloc: Global) -> Result<Vec<MemoryFile>, Fail> {
    let mut files = Vec::new(alloc);
    files.push(MemoryFile {
        name: String::from_str(alloc, "x.trs")?,
        bytes: Vec::from_slice(alloc, b"(RULES a -> b a -> c)")?,
    })?;
    files.push(MemoryFile {
        name: String::from_str(alloc, "empty")?,
        bytes: Vec::new(alloc),
    })?;
    files.push(MemoryFile {
        name: String::from_str(alloc, "x.trs")?,
        bytes: Vec::from_slice(alloc, b"the second of this name")?,
    })?;
    Ok(files)
}

fn shelf(alloc: Global, fails: Vec<u64>) -> Result<MemoryShelf, Fail> {
    Ok(MemoryShelf::new(files(alloc)?, fails))
}

#[test]
fn a_file_is_read_whole_and_again(rt: HostRuntime) -> Result<(), Fail> {
    let alloc = rt.alloc();
    let mut files = shelf(alloc, Vec::new(alloc))?;
    for (name, want) in [
        ("x.trs", b"(RULES a -> b a -> c)".as_slice()),
        ("empty", b"".as_slice()),
        ("x.trs", b"(RULES a -> b a -> c)".as_slice()),
    ] {
        let bytes = read_all(alloc, &mut files, name, 21)?;
        assert_eq!(rt; bytes.as_slice(), want);
    }
    Ok(())
}

#[test]
fn a_file_is_read_piece_by_piece(rt: HostRuntime) -> Result<(), Fail> {
    let alloc = rt.alloc();
    for piece in [1, 2, 20, 21, 22] {
        let mut shelf = MemoryShelf::in_pieces(files(alloc)?, Vec::new(alloc), piece);
        let bytes = read_all(alloc, &mut shelf, "x.trs", 21)?;
        assert_eq!(rt; bytes.as_slice(), b"(RULES a -> b a -> c)".as_slice());
        let mut buf = [0; 64];
        assert!(rt; shelf.begin("x.trs").is_ok());
        assert!(rt; matches!(shelf.read(&mut buf), Ok(n) if n == piece.min(21)));
    }
    Ok(())
}

#[test]
fn a_file_past_the_limit_is_too_long(rt: HostRuntime) -> Result<(), Fail> {
    let alloc = rt.alloc();
    let mut files = shelf(alloc, Vec::new(alloc))?;
    let answer = read_all(alloc, &mut files, "x.trs", 20);
    assert!(rt; matches!(answer, Err(ReadAllError::TooLong { limit: 20 })));
    Ok(())
}

#[test]
fn each_call_that_may_fail_is_counted(rt: HostRuntime) -> Result<(), Fail> {
    let alloc = rt.alloc();
    // begin and two reads make a file of few bytes
    for call in 1..7 {
        let mut fails = Vec::new(alloc);
        fails.push(call)?;
        let mut files = shelf(alloc, fails)?;
        let first = read_all(alloc, &mut files, "x.trs", 100);
        let second = read_all(alloc, &mut files, "empty", 100);
        assert_eq!(rt;
            matches!(first, Err(ReadAllError::ReadFault)),
            call <= 3,
            "first at {call}"
        );
        assert_eq!(rt;
            matches!(second, Err(ReadAllError::ReadFault)),
            call == 4 || call == 5,
            "second at {call}"
        );
    }
    let mut files = shelf(alloc, Vec::new(alloc))?;
    let lacked = read_all(alloc, &mut files, "y.trs", 100);
    assert!(rt; matches!(lacked, Err(ReadAllError::ReadFault)));
    Ok(())
}

#[test]
fn reads_of_nothing_are_not_counted(rt: HostRuntime) -> Result<(), Fail> {
    let alloc = rt.alloc();
    let mut fails = Vec::new(alloc);
    fails.push(2)?;
    let mut files = shelf(alloc, fails)?;
    let mut buf = [0u8; 4];
    assert_eq!(rt; files.read(&mut buf), Ok(0));
    assert_eq!(rt; files.begin("x.trs"), Ok(()));
    assert_eq!(rt; files.read(&mut []), Ok(0));
    assert_eq!(rt; files.read(&mut buf), Err(Failed));
    assert_eq!(rt; files.read(&mut buf), Ok(4));
    assert_eq!(rt; buf.as_slice(), b"(RUL".as_slice());
    Ok(())
}

// Endless bytes, one at a read. It counts the reads and keeps the length of the last buffer.
#[derive(Drop)]
struct Drips {
    reads: u64,
    buffer: usize,
    begun: bool,
    faults: u64,
    given: u64,
    counted: ProofCount,
}

impl Shelf for Drips {
    ghost use Rattle.std.specs.Prelude.{None, Some, codes, if◌then◌else◌, min};
    ghost use Rattle.cc_io.specs.Faults.{top};
    ghost use Rattle.std.proofs.Common.{rules};

    ghost contents = { λ _ _. None };

    ghost begun = { λ d. if d.begun then Some (codes "drips") else None };

    ghost rest = { λ _. None };

    ghost faults = { λ d _. d.faults };

    ghost given = { λ d. min d.given top };

    ghost reads = { λ d. d.counted.number };

    ghost none_unread = { λ d. Prim.search rules };

    fn begin(&mut self, name: &str) -> Result<(), Failed> {
        self.begun = false;
        if name == "drips" {
            self.begun = true;
            return Ok(());
        }
        self.faults = self.faults.saturating_add(1);
        Err(Failed)
    }

    fn read(&mut self, buf: &mut [u8]) -> Result<usize, Failed> {
        self.counted = self.counted.next();
        if buf.is_empty() || !self.begun {
            return Ok(0);
        }
        self.reads = self.reads.saturating_add(1);
        self.buffer = buf.len();
        self.given = self.given.saturating_add(1);
        Ok(1)
    }
}

#[test]
fn reading_stops_soon_after_the_limit(rt: HostRuntime) -> Result<(), Fail> {
    let mut drips = Drips {
        reads: 0,
        buffer: 0,
        begun: false,
        faults: 0,
        given: 0,
        counted: ProofCount::new(),
    };
    let answer = read_all(rt.alloc(), &mut drips, "drips", 10);
    assert!(rt; matches!(answer, Err(ReadAllError::TooLong { limit: 10 })));
    assert_eq!(rt; drips.reads, 11);
    assert_eq!(rt; drips.buffer, 65536);
    Ok(())
}

#[test]
fn writing_goes_on_piece_by_piece(rt: HostRuntime) -> Result<(), Fail> {
    let alloc = rt.alloc();
    let mut sink = MemorySink::new(alloc, 10, 2, Vec::new(alloc))?;
    assert_eq!(rt; write_all(&mut sink, b"NO\nYES\n"), Ok(()));
    assert_eq!(rt; write_all(&mut sink, b""), Ok(()));
    assert_eq!(rt;
        write_all(&mut sink, b"MAYBE"),
        Err(WriteFault { taken: 3 })
    );
    assert_eq!(rt; sink.written(), b"NO\nYES\nMAY".as_slice());
    Ok(())
}

#[test]
fn a_fault_tells_how_much_was_taken(rt: HostRuntime) -> Result<(), Fail> {
    let alloc = rt.alloc();
    let mut fails = Vec::new(alloc);
    fails.push(2)?;
    let mut sink = MemorySink::new(alloc, 10, 2, fails)?;
    assert_eq!(rt;
        write_all(&mut sink, b"YES\n"),
        Err(WriteFault { taken: 2 })
    );
    assert_eq!(rt; sink.write(b""), Ok(0));
    assert_eq!(rt; sink.write(b"S\nx"), Ok(2));
    assert_eq!(rt; sink.written(), b"YES\n".as_slice());
    Ok(())
}
