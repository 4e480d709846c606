//! Files that are read by name, from their start to their end.
ghost use Rattle.std.specs.Prelude.{◌≡◌, ◌<◌, ◌≤◌, ◌⊎◌, ◌+◌, List, ℕ, [], Option, length, take, IfOk, OnOk, OnErr, IfSome, IfNone, IfErr, IsErrOf, if◌then◌else◌, is_ok};
ghost use Rattle.cc_io.specs.Faults.{Rose, raised, top, GrewPast};
ghost use Rattle.cc_io.specs.Bytes.{prefixed};
ghost use Rattle.cc_io.specs.declared.shelf.ReadAllError.TheVariants.{NoMemory, ReadFault};
ghost use Rattle.cc_io.specs.Errors.{IsTooLong, TooLongIfMemory, IsBegunIfAny};

use crate::sink::Failed;
use std::alloc::{AllocError, Global};

/// Named files, of which one at a time is read. It may tell what they hold or not.
pub trait Shelf {
    /// The bytes of a file, where it tells them. They never change.
    ghost contents: { Self → List ℕ → Option (List ℕ) };

    /// The name of the last `begin`, where that answered Ok.
    ghost begun: { Self → Option (List ℕ) };

    /// What is unread of the file that is begun, where it tells it.
    ghost rest: { Self → Option (List ℕ) };

    /// How often it has failed at a name. One count may serve for all names.
    ghost faults: { Self → List ℕ → ℕ };

    /// How many bytes it has given, up to the greatest 64-bit number.
    ghost given: { Self → ℕ };

    /// How often `read` was called, whatever it answered.
    ghost reads: { Self → ℕ };

    /// Starts a file anew.
    fn begin(&mut self, name: &str) -> Result<(), Failed>
        ensures begun { begun self.new ≡ (if is_ok result then Some name.now else None) }
        ensures rest { OnOk result (rest self.new ≡ contents self.old name.now) }
        ensures given { given self.new ≡ given self.old }
        ensures reads { reads self.new ≡ reads self.old }
        ensures most { given self.new ≤ top }
        ensures contents { contents self.new ≡ contents self.old }
        ensures rose { OnErr result (Rose (faults self.old name.now) (faults self.new name.now)) }
        ensures never_falls { (name : List ℕ) → faults self.old name ≤ faults self.new name };

    /// Reads on in the file that is begun, and tells how many bytes of the buffer it filled.
    fn read(&mut self, buf: &mut [u8]) -> Result<usize, Failed>
        ensures begun { begun self.new ≡ begun self.old }
        ensures within { IfOk result (λ n. n ≤ length buf.old) }
        // The first n bytes of the buffer are the first n of what was unread, which loses them.
        ensures bytes { IfOk result (λ n. rest self.old ≡ prefixed (take n buf.new) (rest self.new)) }
        ensures stays { OnErr result (rest self.new ≡ rest self.old) }
        ensures end { IfOk result (λ n. IfSome (rest self.old) (λ unread. n ≡ 0 → 0 < length buf.old → unread ≡ [])) }
        ensures nothing { (length buf.old ≡ 0) ⊎ (begun self.old ≡ None) → result ≡ Ok 0 }
        ensures given { IfOk result (λ n. given self.new ≡ raised (given self.old) n) }
        ensures none_given { OnErr result (given self.new ≡ given self.old) }
        ensures reads { reads self.new ≡ reads self.old + 1 }
        ensures most { given self.new ≤ top }
        ensures contents { contents self.new ≡ contents self.old }
        ensures rose { OnErr result (IfSome (begun self.old) (λ name. Rose (faults self.old name) (faults self.new name))) }
        ensures never_falls { (name : List ℕ) → faults self.old name ≤ faults self.new name };

    /// Where no file is begun, nothing is unread.
    ghost none_unread: { (s : Self) → IfNone (begun s) (IfSome (rest s) (λ unread. unread ≡ [])) };
}

/// Why a whole file was not read.
#[derive(Debug, Drop)]
pub enum ReadAllError {
    /// The shelf failed.
    ReadFault,
    /// The file has more than `limit` bytes.
    TooLong { limit: u64 },
    /// Memory was refused.
    NoMemory,
}

impl From<AllocError> for ReadAllError {
    ghost from_gives = { λ _ e. e ≡ NoMemory };

    fn from(_: AllocError) -> Self {
        ReadAllError::NoMemory
    }
}

impl From<Failed> for ReadAllError {
    ghost from_gives = { λ _ e. e ≡ ReadFault };

    fn from(_: Failed) -> Self {
        ReadAllError::ReadFault
    }
}

// how many bytes are asked for at each read
const PIECE: usize = 65536;

/// The bytes of a file, of which there may be at most `limit`.
pub fn read_all<S: Shelf>(
    alloc: Global,
    shelf: &mut S,
    name: &str,
    limit: u64,
) -> Result<Vec<u8>, ReadAllError>
    ensures all { IfOk result (λ v. IfSome (S.contents shelf.old name.now) (λ bytes. v.items ≡ bytes)) }
    ensures limit { IfOk result (λ v. length v.items ≤ limit) }
    ensures given { IfOk result (λ v. S.given shelf.new ≡ raised (S.given shelf.old) (length v.items)) }
    ensures few_reads { S.reads shelf.new ≤ S.reads shelf.old + (limit + 1) }
    // Each read but the last gave a byte.
    ensures each_gives { IfOk result (λ v. S.reads shelf.new ≤ S.reads shelf.old + (length v.items + 1)) }
    ensures fault { IsErrOf result ReadAllError.ReadFault → Rose (S.faults shelf.old name.now) (S.faults shelf.new name.now) }
    ensures too_long { IfErr result (λ e. IsTooLong e → GrewPast limit (S.given shelf.old) (S.given shelf.new)) }
    ensures which_limit { (n : ℕ) → IsErrOf result (ReadAllError.TooLong n) → n ≡ limit }
    ensures longer { IfErr result (λ e. IsTooLong e → IfSome (S.contents shelf.old name.now) (λ bytes. limit < length bytes)) }
    // A file that is too long is refused as such, where no fault rose.
    ensures exactly { IfSome (S.contents shelf.old name.now) (λ bytes. limit < length bytes →
        (Rose (S.faults shelf.old name.now) (S.faults shelf.new name.now) → ⊥) → TooLongIfMemory result) }
    ensures begun { OnOk result (S.begun shelf.new ≡ Some name.now) }
    ensures begun_if_any { IsBegunIfAny name.now (S.begun shelf.new) }
    ensures contents { S.contents shelf.new ≡ S.contents shelf.old }
    ensures never_falls { (name : List ℕ) → S.faults shelf.old name ≤ S.faults shelf.new name }
{
    let mut bytes = Vec::new(alloc);
    shelf.begin(name)?;
    let mut buf = [0u8; PIECE];
    'reading: loop {
        let n = shelf.read(&mut buf)?;
        if n == 0 {
            return Ok(bytes);
        }
        bytes.extend_from_slice(&buf[..n])?;
        if bytes.len() as u64 > limit {
            return Err(ReadAllError::TooLong { limit });
        }
    }
}
