//! Reads the file of a system, and says why it gives none.
ghost use Rattle.std.specs.Prelude.{◌≡◌, ◌≤◌, ℕ, List};
ghost use Rattle.cc_io.specs.Errors.{IsBegunIfAny};
ghost use Rattle.cc_io.specs.Faults.{Rose};
ghost use Rattle.run_parts.specs.Bytes.{told_or_any};
ghost use Rattle.concon_run.specs.Files.{SystemAnswers, no_system_said};
ghost use Rattle.concon_run.specs.Replies.{reply_said};
ghost use Rattle.concon_run.specs.Said.{IsSaidIfMemory};

use crate::refusals::{refused, unread};
use crate::reply::Reply;
use crate::status::Status;
use cc_io::{ReadAllError, Shelf, read_all};
use cops_read::{Names, ReadError, read_system};
use refusal_texts::file_refusal;
use run_parts::FILE_LIMIT;
use std::alloc::Global;
use term_core::System;

/// Why a file gives no system.
#[derive(Drop)]
pub enum NoSystem {
    /// It was not read whole.
    Unread(ReadAllError),
    /// It is no text of a system.
    Refused(ReadError),
}

/// The system that the file spells, with its names.
pub fn system_of<S: Shelf>(
    alloc: Global,
    shelf: &mut S,
    file: &str,
) -> Result<(System, Names), NoSystem>
    ensures answers { SystemAnswers (told_or_any (S.contents shelf.old file.now)) (Rose (S.faults shelf.old file.now) (S.faults shelf.new file.now)) result }
    ensures begun { IsBegunIfAny file.now (S.begun shelf.new) }
    ensures contents { S.contents shelf.new ≡ S.contents shelf.old }
    ensures never_falls { (name : List ℕ) → S.faults shelf.old name ≤ S.faults shelf.new name }
{
    let bytes = match read_all(alloc, shelf, file, FILE_LIMIT) {
        Ok(bytes) => bytes,
        Err(error) => return Err(NoSystem::Unread(error)),
    };
    match read_system(alloc, &bytes) {
        Ok(found) => Ok(found),
        Err(error) => Err(NoSystem::Refused(error)),
    }
}

/// Says why a file gives no system.
pub fn no_system_reply(alloc: Global, file: &str, why: &NoSystem) -> Reply
    ensures { IsSaidIfMemory (no_system_said file.now why.now) (reply_said result) }
{
    match why {
        NoSystem::Unread(error) => unread(alloc, file, error, Status::FileRefused, FILE_LIMIT),
        NoSystem::Refused(error) => refused(alloc, Status::FileRefused, file, file_refusal(error)),
    }
}
