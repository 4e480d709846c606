//! What is said of a text that is refused, or was not read whole: its status, the place, and why.
ghost use Rattle.std.specs.Prelude.{Some, option_map};
ghost use Rattle.refusal_texts.specs.Refusals.{place_and_words};
ghost use Rattle.concon_run.specs.Refusals.{refused_said, unread_said};
ghost use Rattle.concon_run.specs.Replies.{reply_said};
ghost use Rattle.concon_run.specs.Said.{IsSaidIfMemory, read_fault_said};

use crate::pieces::Piece;
use crate::reply::{Reply, Text, complaint, no_memory};
use crate::status::Status;
use cc_io::ReadAllError;
use refusal_texts::Refusal;
use run_parts::read_fault_text;
use std::alloc::{AllocError, Global};

fn placed(alloc: Global, status: Status, name: &str, at: u64, why: &'static [u8]) -> Reply
    ensures { IsSaidIfMemory (refused_said status name.now (Some (at, why.now))) (reply_said result) }
{
    complaint(
        alloc,
        status,
        &[
            Piece::Name(name),
            Piece::Text(b":"),
            Piece::Place(at),
            Piece::Text(b": "),
            Piece::Text(why),
            Piece::Text(b"\n"),
        ],
    )
}

/// Says where and why a text is refused, or that memory was.
pub fn refused(alloc: Global, status: Status, name: &str, refusal: Option<Refusal>) -> Reply
    ensures { IsSaidIfMemory (refused_said status name.now (option_map place_and_words refusal)) (reply_said result) }
{
    match refusal {
        Some(refusal) => placed(alloc, status, name, refusal.at as u64, refusal.why),
        None => no_memory(),
    }
}

fn fault(alloc: Global, name: &str) -> Reply
    ensures { IsSaidIfMemory (read_fault_said name.now) (reply_said result) }
{
    match read_fault_text(alloc, name) {
        Ok(text) => Reply {
            status: Status::ReadFault,
            to_out: false,
            text: Text::Made(text),
        },
        Err(AllocError) => no_memory(),
    }
}

/// Says why a text was not read whole; this status tells that it is longer than the limit.
pub fn unread(
    alloc: Global,
    name: &str,
    error: &ReadAllError,
    too_long: Status,
    limit: u64,
) -> Reply
    ensures { IsSaidIfMemory (unread_said name.now error.now too_long limit) (reply_said result) }
{
    match error {
        ReadAllError::ReadFault => fault(alloc, name),
        ReadAllError::TooLong { .. } => placed(alloc, too_long, name, limit, b"too long"),
        ReadAllError::NoMemory => no_memory(),
    }
}
