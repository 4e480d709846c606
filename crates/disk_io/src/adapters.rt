//! The real files and streams. They tell nothing of their contents, and keep one count of faults for every name.
ghost use Rattle.std.specs.Prelude.{◌≡◌, List, ℕ, None, Some, IfSome, option_map};

use cc_count::ProofCount;
use cc_io::{Failed, Shelf, Sink};
use std::fs;
use std::io::Read;
use std::rt::Files;

/// The files that the program's words name.
#[derive(Drop)]
pub struct DiskShelf<'a, R: Files> {
    rt: &'a R,
    words: &'a [&'a str],
    begun: Option<&'a str>,
    file: Option<R::File>,
    faults: u64,
    given: u64,
    reads: ProofCount,
}

impl<'a, R: Files> DiskShelf<'a, R> {
    pub fn new(rt: &'a R, words: &'a [&'a str]) -> Self
        ensures begun { ⟦<DiskShelf<'a, R> as Shelf>⟧.begun result ≡ None }
        ensures faults { (name : List ℕ) → ⟦<DiskShelf<'a, R> as Shelf>⟧.faults result name ≡ 0 }
        ensures given { ⟦<DiskShelf<'a, R> as Shelf>⟧.given result ≡ 0 }
        ensures reads { ⟦<DiskShelf<'a, R> as Shelf>⟧.reads result ≡ 0 }
    {
        DiskShelf {
            rt,
            words,
            begun: None,
            file: None,
            faults: 0,
            given: 0,
            reads: ProofCount::new(),
        }
    }
}

// the word that is this name
fn word_named<'a>(words: &[&'a str], name: &str) -> Option<&'a str>
    ensures { IfSome result (λ word. word.now ≡ name.now) }
{
    for word in words {
        if *word == name {
            return Some(*word);
        }
    }
    None
}

impl<'a, R: Files> Shelf for DiskShelf<'a, R> {
    ghost use Rattle.std.proofs.Common.{rules};

    ghost contents = { λ _ _. None };

    ghost begun = { λ s. option_map (λ word. word.now) s.begun };

    ghost rest = { λ _. None };

    ghost faults = { λ s _. s.faults };

    ghost given = { λ s. s.given };

    ghost reads = { λ s. s.reads.number };

    ghost none_unread = { λ s. Prim.search rules };

    fn begin(&mut self, name: &str) -> Result<(), Failed> {
        // What was given is bounded by its type.
        let _given = self.given;
        self.begun = None;
        self.file = None;
        if let Some(word) = word_named(self.words, name) {
            if let Ok(file) = fs::open(self.rt, name) {
                self.begun = Some(word);
                self.file = Some(file);
                return Ok(());
            }
        }
        self.faults = self.faults.saturating_add(1);
        Err(Failed)
    }

    fn read(&mut self, buf: &mut [u8]) -> Result<usize, Failed> {
        // What was given is bounded by its type.
        let _given = self.given;
        self.reads = self.reads.next();
        if buf.is_empty() {
            return Ok(0);
        }
        if self.begun.is_none() {
            return Ok(0);
        }
        let Some(file) = &mut self.file else {
            return Ok(0);
        };
        match file.read(buf) {
            Ok(n) => {
                self.given = self.given.saturating_add(n as u64);
                Ok(n)
            }
            Err(_) => {
                self.faults = self.faults.saturating_add(1);
                Err(Failed)
            }
        }
    }
}

/// A standard stream.
#[derive(Drop)]
pub struct StreamSink<P> {
    to: P,
    faults: u64,
    writes: ProofCount,
}

impl<P: Print> StreamSink<P> {
    pub fn new(to: P) -> Self
        ensures faults { ⟦<StreamSink<P> as Sink>⟧.faults result ≡ 0 }
        ensures writes { ⟦<StreamSink<P> as Sink>⟧.writes result ≡ 0 }
    {
        StreamSink {
            to,
            faults: 0,
            writes: ProofCount::new(),
        }
    }
}

impl<P: Print> Sink for StreamSink<P> {
    ghost written = { λ _. None };

    ghost faults = { λ s. s.faults };

    ghost writes = { λ s. s.writes.number };

    fn write(&mut self, bytes: &[u8]) -> Result<usize, Failed> {
        self.writes = self.writes.next();
        if bytes.is_empty() {
            return Ok(0);
        }
        match self.to.write_some(bytes) {
            Ok(n) if n > 0 => Ok(n),
            _ => {
                self.faults = self.faults.saturating_add(1);
                Err(Failed)
            }
        }
    }
}

#[cfg(test)]
mod tests {
    use super::*;
    use cc_io::{ReadAllError, read_all, write_all};
    use std::test::Fail;

    #[test]
    fn a_disk_file_is_read_by_its_word(rt: HostRuntime) -> Result<(), Fail> {
        fs::write(&rt, "read_by_its_word.trs", "(RULES )")?;
        let words = ["check", "read_by_its_word.trs"];
        let mut shelf = DiskShelf::new(&rt, &words);
        let bytes = read_all(rt.alloc(), &mut shelf, "read_by_its_word.trs", 100);
        let other = read_all(rt.alloc(), &mut shelf, "no_word.trs", 100);
        fs::remove_file(&rt, "read_by_its_word.trs")?;
        assert_eq!(rt; bytes?.as_slice(), b"(RULES )".as_slice());
        assert!(rt; matches!(other, Err(ReadAllError::ReadFault)));
        Ok(())
    }

    #[test]
    fn a_stream_takes_all_bytes(rt: HostRuntime) -> Result<(), Fail> {
        let mut out = StreamSink::new(rt.stdout());
        assert_eq!(rt; write_all(&mut out, b"a stream takes all bytes\n"), Ok(()));
        assert_eq!(rt; out.write(b""), Ok(0));
        Ok(())
    }
}
