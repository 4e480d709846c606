//! Files and a sink in memory, which fail at the calls that they are told to fail at.
ghost use Rattle.std.specs.Prelude.{◌≡◌, ◌<◌, ◌≤◌, ◌+◌, ◌-◌, ◌^◌, ◌⊎◌, ◌↔◌, min, [], Some, None, List, ℕ, Option, Contains, length, take, drop, IfOk, OnOk, OnErr, IfSome, IfNone, IsTrue, IsErr, IsSome, is_ok, if◌then◌else◌, vec_capacity};
ghost use Rattle.cc_io.specs.Faults.{Rose, raised, top};
ghost use Rattle.cc_io.specs.Memory.{bytes_at};

use crate::shelf::Shelf;
use crate::sink::{Failed, Sink};
use cc_count::ProofCount;
use std::alloc::{AllocError, Global};

/// A file in memory.
#[derive(Drop)]
pub struct MemoryFile {
    pub name: String,
    pub bytes: Vec<u8>,
}

/// Files in memory. Of two with one name it gives the first.
#[derive(Drop)]
pub struct MemoryShelf {
    files: Vec<MemoryFile>,
    fails: Vec<u64>,
    piece: usize,
    calls: u64,
    faults: u64,
    given: u64,
    reads: ProofCount,
    begun: Option<usize>,
    at: usize,
    ghost piece_some: { 0 < piece },
}

impl MemoryShelf {
    ghost use Rattle.cc_io.specs.Memory.{index_named, first_named};
    ghost use Rattle.cc_io.specs.Devices.{shelf_contents, shelf_begun, shelf_rest, shelf_faults, shelf_given, shelf_reads, shelf_calls, shelf_fails, shelf_piece};

    /// These files. Each call whose number, from 1 on, is in `fails` fails. Calls that cannot fail are not counted.
    pub fn new(files: Vec<MemoryFile>, fails: Vec<u64>) -> MemoryShelf
        ensures contents { (name : List ℕ) → shelf_contents result name ≡ first_named files.items name }
        ensures begun { shelf_begun result ≡ None }
        ensures rest { shelf_rest result ≡ Some [] }
        ensures faults { (name : List ℕ) → shelf_faults result name ≡ 0 }
        ensures given { shelf_given result ≡ 0 }
        ensures reads { shelf_reads result ≡ 0 }
        ensures calls { shelf_calls result ≡ 0 }
        ensures fails { shelf_fails result ≡ fails.items }
        ensures piece { shelf_piece result ≡ 2 ^ 64 - 1 }
    {
        MemoryShelf::in_pieces(files, fails, usize::MAX)
    }

    /// The same files, of which each `read` gives at most `piece` bytes.
    pub fn in_pieces(files: Vec<MemoryFile>, fails: Vec<u64>, piece: usize) -> MemoryShelf
        requires { 0 < piece }
        ensures contents { (name : List ℕ) → shelf_contents result name ≡ first_named files.items name }
        ensures begun { shelf_begun result ≡ None }
        ensures rest { shelf_rest result ≡ Some [] }
        ensures faults { (name : List ℕ) → shelf_faults result name ≡ 0 }
        ensures given { shelf_given result ≡ 0 }
        ensures reads { shelf_reads result ≡ 0 }
        ensures calls { shelf_calls result ≡ 0 }
        ensures fails { shelf_fails result ≡ fails.items }
        ensures piece { shelf_piece result ≡ piece }
    {
        MemoryShelf {
            files,
            fails,
            piece,
            calls: 0,
            faults: 0,
            given: 0,
            reads: ProofCount::new(),
            begun: None,
            at: 0,
        }
    }

    // the place of the first file with this name
    fn place(files: &[MemoryFile], name: &str) -> Option<usize>
        ensures place { result ≡ index_named files.now name.now }
    {
        files.iter().position(|f| f.name.as_str() == name)
    }
}

fn bytes_of(files: &[MemoryFile], place: usize) -> Option<&[u8]>
    ensures found { IfSome result (λ bytes. bytes_at files.now place ≡ Some bytes.now) }
    ensures none { IfNone result (bytes_at files.now place ≡ None) }
{
    let file = files.get(place)?;
    Some(file.bytes.as_slice())
}

// Copies what follows a place, as far as the buffer goes, but no more than a piece.
fn copy_from(bytes: &[u8], at: usize, piece: usize, buf: &mut [u8]) -> usize
    requires { 0 < piece }
    ensures within { result ≤ length buf.old }
    ensures piece { result ≤ piece }
    ensures copied { take result buf.new ≡ take result (drop at bytes.now) }
    ensures whole { length (take result buf.new) ≡ result }
    ensures end { result ≡ 0 → 0 < length buf.old → drop at bytes.now ≡ [] }
{
    if at >= bytes.len() {
        return 0;
    }
    let (_, unread) = bytes.split_at(at);
    let n = unread.len().min(buf.len()).min(piece);
    let (source, _) = unread.split_at(n);
    let (front, _) = buf.split_at_mut(n);
    front.copy_from_slice(source);
    n
}

// Counts a call, and says whether it is one of those that fail.
fn fails_now(calls: &mut u64, fails: &[u64]) -> bool
    ensures counted { calls.new ≡ raised calls.old 1 }
    ensures listed { IsTrue result ↔ Contains fails.now calls.new }
{
    *calls = calls.saturating_add(1);
    fails.contains(calls)
}

impl Shelf for MemoryShelf {
    ghost use Rattle.cc_io.specs.MemoryLaw.{none-unread};
    ghost use Rattle.cc_io.specs.Bytes.{prefixed};
    ghost use Rattle.cc_io.specs.Devices.{shelf_contents, shelf_begun, shelf_rest, shelf_faults, shelf_given, shelf_reads, shelf_calls, shelf_fails, shelf_piece};

    ghost contents = { shelf_contents };

    ghost begun = { shelf_begun };

    ghost rest = { shelf_rest };

    ghost faults = { shelf_faults };

    ghost given = { shelf_given };

    ghost reads = { shelf_reads };

    ghost none_unread = { λ m. none-unread m.files.items m.begun m.at };

    #[tactic(auto, using(crate::proofs::MemoryReads::place_named))]
    fn begin(&mut self, name: &str) -> Result<(), Failed>
        ensures begun { shelf_begun self.new ≡ (if is_ok result then Some name.now else None) }
        ensures rest { OnOk result (shelf_rest self.new ≡ shelf_contents self.old name.now) }
        ensures given { shelf_given self.new ≡ shelf_given self.old }
        ensures reads { shelf_reads self.new ≡ shelf_reads self.old }
        ensures most { shelf_given self.new ≤ top }
        ensures contents { shelf_contents self.new ≡ shelf_contents self.old }
        ensures rose { OnErr result (Rose (shelf_faults self.old name.now) (shelf_faults self.new name.now)) }
        ensures never_falls { (name : List ℕ) → shelf_faults self.old name ≤ shelf_faults self.new name }
        ensures calls { shelf_calls self.new ≡ raised (shelf_calls self.old) 1 }
        ensures fails { shelf_fails self.new ≡ shelf_fails self.old }
        ensures same_piece { shelf_piece self.new ≡ shelf_piece self.old }
        // It fails exactly at the calls that are to fail and at a name that it lacks.
        ensures exactly { IsErr result ↔ (Contains (shelf_fails self.old) (shelf_calls self.new) ⊎ (shelf_contents self.old name.now ≡ None)) }
        ensures count { (name : List ℕ) → shelf_faults self.new name ≡ (if is_ok result then shelf_faults self.old name else raised (shelf_faults self.old name) 1) }
    {
        // What was given is bounded by its type.
        let _given = self.given;
        self.at = 0;
        self.begun = None;
        if !fails_now(&mut self.calls, &self.fails) {
            self.begun = MemoryShelf::place(&self.files, name);
        }
        if self.begun.is_none() {
            self.faults = self.faults.saturating_add(1);
            return Err(Failed);
        }
        Ok(())
    }

    fn read(&mut self, buf: &mut [u8]) -> Result<usize, Failed>
        ensures begun { shelf_begun self.new ≡ shelf_begun self.old }
        ensures within { IfOk result (λ n. n ≤ length buf.old) }
        ensures bytes { IfOk result (λ n. shelf_rest self.old ≡ prefixed (take n buf.new) (shelf_rest self.new)) }
        ensures stays { OnErr result (shelf_rest self.new ≡ shelf_rest self.old) }
        ensures end { IfOk result (λ n. IfSome (shelf_rest self.old) (λ unread. n ≡ 0 → 0 < length buf.old → unread ≡ [])) }
        ensures nothing { (length buf.old ≡ 0) ⊎ (shelf_begun self.old ≡ None) → result ≡ Ok 0 }
        ensures given { IfOk result (λ n. shelf_given self.new ≡ raised (shelf_given self.old) n) }
        ensures none_given { OnErr result (shelf_given self.new ≡ shelf_given self.old) }
        ensures reads { shelf_reads self.new ≡ shelf_reads self.old + 1 }
        ensures most { shelf_given self.new ≤ top }
        ensures contents { shelf_contents self.new ≡ shelf_contents self.old }
        ensures rose { OnErr result (IfSome (shelf_begun self.old) (λ name. Rose (shelf_faults self.old name) (shelf_faults self.new name))) }
        ensures never_falls { (name : List ℕ) → shelf_faults self.old name ≤ shelf_faults self.new name }
        // A call that cannot fail is not counted.
        ensures not_counted { (length buf.old ≡ 0) ⊎ (shelf_begun self.old ≡ None) → shelf_calls self.new ≡ shelf_calls self.old }
        ensures counted { 0 < length buf.old → IsSome (shelf_begun self.old) → shelf_calls self.new ≡ raised (shelf_calls self.old) 1 }
        ensures fails { shelf_fails self.new ≡ shelf_fails self.old }
        ensures piece { IfOk result (λ n. n ≤ shelf_piece self.old) }
        ensures same_piece { shelf_piece self.new ≡ shelf_piece self.old }
        ensures exactly { 0 < length buf.old → IsSome (shelf_begun self.old) → (IsErr result ↔ Contains (shelf_fails self.old) (shelf_calls self.new)) }
        ensures count { (name : List ℕ) → shelf_faults self.new name ≡ (if is_ok result then shelf_faults self.old name else raised (shelf_faults self.old name) 1) }
    {
        self.reads = self.reads.next();
        let Some(place) = self.begun else {
            return Ok(0);
        };
        let Some(bytes) = bytes_of(&self.files, place) else {
            return Ok(0);
        };
        if buf.is_empty() {
            return Ok(0);
        }
        if fails_now(&mut self.calls, &self.fails) {
            self.faults = self.faults.saturating_add(1);
            return Err(Failed);
        }
        let n = copy_from(bytes, self.at, self.piece, buf);
        self.at += n;
        self.given = self.given.saturating_add(n as u64);
        Ok(n)
    }
}

/// A sink in memory.
#[derive(Drop)]
pub struct MemorySink {
    bytes: Vec<u8>,
    room: usize,
    piece: usize,
    fails: Vec<u64>,
    calls: u64,
    faults: u64,
    writes: ProofCount,
    ghost reserved: { room ≤ vec_capacity bytes },
    ghost piece_some: { 0 < piece },
}

impl MemorySink {
    ghost use Rattle.cc_io.specs.Devices.{sink_written, sink_faults, sink_writes, sink_calls, sink_fails, sink_room, sink_piece};

    /// A sink that takes at most `piece` bytes a call and `room` bytes in all. Each call whose number, from 1 on, is
    /// in `fails` fails. Calls that cannot fail are not counted.
    pub fn new(
        alloc: Global,
        room: usize,
        piece: usize,
        fails: Vec<u64>,
    ) -> Result<MemorySink, AllocError>
        requires { 0 < piece }
        ensures written { IfOk result (λ s. sink_written s ≡ Some []) }
        ensures faults { IfOk result (λ s. sink_faults s ≡ 0) }
        ensures writes { IfOk result (λ s. sink_writes s ≡ 0) }
        ensures calls { IfOk result (λ s. sink_calls s ≡ 0) }
        ensures fails { IfOk result (λ s. sink_fails s ≡ fails.items) }
        ensures room { IfOk result (λ s. sink_room s ≡ room) }
        ensures piece { IfOk result (λ s. sink_piece s ≡ piece) }
    {
        Ok(MemorySink {
            bytes: Vec::with_capacity(alloc, room)?,
            room,
            piece,
            fails,
            calls: 0,
            faults: 0,
            writes: ProofCount::new(),
        })
    }

    /// All bytes that it has taken.
    pub fn written(&self) -> &[u8]
        ensures { sink_written self.now ≡ Some result.now }
    {
        &self.bytes
    }
}

impl Sink for MemorySink {
    ghost use Rattle.cc_io.specs.Bytes.{appended};
    ghost use Rattle.cc_io.specs.Devices.{sink_written, sink_faults, sink_writes, sink_calls, sink_fails, sink_room, sink_piece};

    ghost written = { sink_written };

    ghost faults = { sink_faults };

    ghost writes = { sink_writes };

    fn write(&mut self, bytes: &[u8]) -> Result<usize, Failed>
        ensures within { IfOk result (λ n. n ≤ length bytes.now) }
        ensures some { IfOk result (λ n. 0 < length bytes.now → 0 < n) }
        ensures taken { IfOk result (λ n. sink_written self.new ≡ appended (sink_written self.old) (take n bytes.now)) }
        ensures untouched { OnErr result (sink_written self.new ≡ sink_written self.old) }
        ensures not_empty { OnErr result (0 < length bytes.now) }
        ensures rose { OnErr result (Rose (sink_faults self.old) (sink_faults self.new)) }
        ensures never_falls { sink_faults self.old ≤ sink_faults self.new }
        ensures writes { sink_writes self.new ≡ sink_writes self.old + 1 }
        ensures piece { IfOk result (λ n. n ≤ sink_piece self.old) }
        // An empty piece is not counted.
        ensures not_counted { length bytes.now ≡ 0 → sink_calls self.new ≡ sink_calls self.old }
        ensures counted { 0 < length bytes.now → sink_calls self.new ≡ raised (sink_calls self.old) 1 }
        ensures fails { sink_fails self.new ≡ sink_fails self.old }
        ensures room { sink_room self.new ≡ sink_room self.old }
        ensures same_piece { sink_piece self.new ≡ sink_piece self.old }
        // It fails exactly at the calls that are to fail and where its room is full.
        ensures exactly { 0 < length bytes.now → (IsErr result ↔ (Contains (sink_fails self.old) (sink_calls self.new)
            ⊎ IfSome (sink_written self.old) (λ taken. sink_room self.old ≤ length taken))) }
        ensures count { sink_faults self.new ≡ (if is_ok result then sink_faults self.old else raised (sink_faults self.old) 1) }
    {
        self.writes = self.writes.next();
        if bytes.is_empty() {
            return Ok(0);
        }
        let left = self.room.saturating_sub(self.bytes.len());
        if fails_now(&mut self.calls, &self.fails) || left == 0 {
            self.faults = self.faults.saturating_add(1);
            return Err(Failed);
        }
        let n = bytes.len().min(self.piece).min(left);
        let (front, _) = bytes.split_at(n);
        self.bytes.extend_from_slice(front).unwrap();
        Ok(n)
    }
}
