//! What is to be said, made whole before any of it is written.
ghost use Rattle.run_parts.specs.Devices.{sink_run};
ghost use Rattle.lens_run.specs.Said.{IsTold, reply_said};

use crate::status::Status;
use cc_io::Sink;
use run_parts::{no_memory_text, written};

/// What is to be said.
#[derive(Drop)]
pub enum Reply {
    /// A page, for out.
    Page(Vec<u8>),
    /// That nothing was found, for out.
    Nothing(&'static [u8]),
    /// Why there is none, for err.
    Complaint { status: Status, text: Vec<u8> },
    /// How the program is used.
    Usage,
    /// That memory was refused.
    NoMemory,
}

const USAGE: &[u8] =
    b"usage: lens show FILE [--skeleton ortho|quasi|peak]\n       lens tell FILE CERT [--svg]\n       lens ari FILE\n       lens seek FILE [--budget N]\n";

/// Writes a reply, and gives the status with which the run ends.
pub fn deliver<K: Sink, E: Sink>(reply: &Reply, out: &mut K, err: &mut E) -> Status
    ensures { IsTold (reply_said reply.now) result (sink_run K.Sink out.old out.new) (sink_run E.Sink err.old err.new) }
{
    match reply {
        Reply::Page(page) => written(out, page, Status::Done, Status::WriteFault),
        Reply::Nothing(text) => written(out, *text, Status::Nothing, Status::WriteFault),
        Reply::Complaint { status, text } => written(err, text, *status, Status::WriteFault),
        Reply::Usage => written(err, USAGE, Status::Usage, Status::WriteFault),
        Reply::NoMemory => written(err, no_memory_text(), Status::NoMemory, Status::WriteFault),
    }
}
