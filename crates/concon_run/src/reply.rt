//! What is to be said, made whole before any of it is written.
ghost use Rattle.std.specs.Prelude.{◌≡◌, IfOk, []};
ghost use Rattle.run_parts.specs.Devices.{sink_run};
ghost use Rattle.concon_run.specs.Pieces.{pieces_text};
ghost use Rattle.concon_run.specs.Replies.{text_bytes, reply_said};
ghost use Rattle.concon_run.specs.Said.{IsTold, IsSaidIfMemory, no_memory_said};

use crate::pieces::{Piece, put_all};
use crate::status::Status;
use cc_io::Sink;
use run_parts::{no_memory_text, written};
use std::alloc::{AllocError, Global};

/// A text that was made, or that the program has.
#[derive(Drop)]
pub enum Text {
    Fixed(&'static [u8]),
    Made(Vec<u8>),
}

/// A status, and the text for out or for err.
#[derive(Drop)]
pub struct Reply {
    pub status: Status,
    pub to_out: bool,
    pub text: Text,
}

fn bytes_of_text(text: &Text) -> &[u8]
    ensures { result.now ≡ text_bytes text.now }
{
    match text {
        Text::Fixed(bytes) => *bytes,
        Text::Made(bytes) => bytes.as_slice(),
    }
}

/// Says that memory was refused.
pub fn no_memory() -> Reply
    ensures { reply_said result ≡ no_memory_said }
{
    Reply {
        status: Status::NoMemory,
        to_out: false,
        text: Text::Fixed(no_memory_text()),
    }
}

fn text_of(alloc: Global, pieces: &[Piece]) -> Result<Vec<u8>, AllocError>
    ensures { IfOk result (λ v. v.items ≡ pieces_text pieces.now) }
{
    let mut text = Vec::new(alloc);
    put_all(&mut text, pieces)?;
    Ok(text)
}

/// Says these pieces on err, or that memory was refused.
pub fn complaint(alloc: Global, status: Status, pieces: &[Piece]) -> Reply
    ensures { IsSaidIfMemory (record { status = status; out = []; err = pieces_text pieces.now }) (reply_said result) }
{
    match text_of(alloc, pieces) {
        Ok(text) => Reply {
            status,
            to_out: false,
            text: Text::Made(text),
        },
        Err(AllocError) => no_memory(),
    }
}

/// Says these pieces on out, or that memory was refused.
pub fn answer(alloc: Global, status: Status, pieces: &[Piece]) -> Reply
    ensures { IsSaidIfMemory (record { status = status; out = pieces_text pieces.now; err = [] }) (reply_said result) }
{
    match text_of(alloc, pieces) {
        Ok(text) => Reply {
            status,
            to_out: true,
            text: Text::Made(text),
        },
        Err(AllocError) => no_memory(),
    }
}

/// Writes a reply, and gives the status with which the run ends.
pub fn deliver<K: Sink, E: Sink>(reply: &Reply, out: &mut K, err: &mut E) -> Status
    ensures { IsTold (reply_said reply.now) result (sink_run K.Sink out.old out.new) (sink_run E.Sink err.old err.new) }
{
    let bytes = bytes_of_text(&reply.text);
    if reply.to_out {
        written(out, bytes, reply.status, Status::WriteFault)
    } else {
        written(err, bytes, reply.status, Status::WriteFault)
    }
}
