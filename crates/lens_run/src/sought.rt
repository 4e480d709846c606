//! What a wider search finds, below what it shows.
ghost use Rattle.std.specs.Prelude.{IfOk, List, ℕ};
ghost use Rattle.cops_read.specs.File.{IsFile};
ghost use Rattle.run_parts.specs.Devices.{shelf_run, HasFailed};
ghost use Rattle.run_parts.specs.Bytes.{told_or_any};
ghost use Rattle.lens_run.specs.Runs.{IsSought};
ghost use Rattle.lens_run.specs.Said.{reply_said};
ghost use Rattle.lens_run.specs.Sought.{IsSoughtSaid};

use crate::files::system_of;
use crate::reply::Reply;
use cc_count::Budget;
use cc_io::Shelf;
use cops_names::Names;
use cops_read::one_reading;
use run_parts::proof_text;
use std::alloc::Global;
use term_core::{NoMemory, System};
use wide_search::{Search, seek};

// What the search finds with so many units.
fn found_with(alloc: Global, sys: &System, names: &Names, units: u64) -> Result<Reply, NoMemory>
    requires { (file : List ℕ) × IsFile file sys.now names.now }
    ensures { IfOk result (λ reply. IsSoughtSaid sys.now names.now (reply_said reply)) }
{
    one_reading();
    let mut budget = Budget::new(units);
    match seek(alloc, sys, names, &mut budget)? {
        Search::Found(cert) => {
            let text = proof_text(alloc, names, &cert)?;
            Ok(Reply::Page(text))
        }
        Search::Nothing => Ok(Reply::Nothing(b"MAYBE: nothing was found\n")),
        Search::Spent => Ok(Reply::Nothing(b"MAYBE: nothing was found with so many units\n")),
    }
}

/// What a wider search finds for a file's system.
pub fn sought<S: Shelf>(alloc: Global, shelf: &mut S, file: &str, units: u64) -> Reply
    ensures { IsSought (told_or_any (S.contents shelf.old file.now)) (HasFailed (shelf_run S.Shelf shelf.old shelf.new) file.now) file.now (reply_said result) }
{
    let (sys, names) = match system_of(alloc, shelf, file) {
        Ok(found) => found,
        Err(reply) => return reply,
    };
    match found_with(alloc, &sys, &names, units) {
        Ok(reply) => reply,
        Err(NoMemory) => Reply::NoMemory,
    }
}
