//! What is said of a text that is refused, or was not read whole.
ghost use Rattle.std.specs.Prelude.{◌≡◌, ◌++◌, OnOk, IfOk, codes, decimal, option_map};
ghost use Rattle.refusal_texts.specs.Refusals.{place_and_words};
ghost use Rattle.lens_run.specs.Runs.{IsSaidRefused, IsSaidUnread};
ghost use Rattle.lens_run.specs.Said.{reply_said};
ghost use Rattle.lens_run.specs.Texts.{IsRefusalText, too_long_text};

use crate::reply::Reply;
use crate::status::Status;
use cc_io::ReadAllError;
use itoa::Buffer;
use refusal_texts::Refusal;
use run_parts::read_fault_text;
use std::alloc::{AllocError, Global};
use text_places::{place_of, push_marked};

fn push_number(out: &mut Vec<u8>, n: usize) -> Result<(), AllocError>
    ensures { OnOk result (out.new.items ≡ out.old.items ++ decimal n) }
{
    let mut buffer = Buffer::new();
    out.extend_from_slice(buffer.format(n).as_bytes())
}

fn push_line(
    out: &mut Vec<u8>,
    name: &str,
    line: usize,
    column: usize,
    why: &[u8],
) -> Result<(), AllocError>
    ensures { OnOk result (out.new.items ≡ out.old.items ++ (name.now ++ (codes ":" ++ (decimal line ++ (codes ":" ++ (decimal column ++ (codes ": " ++ (why.now ++ codes "\n")))))))) }
{
    out.extend_from_slice(name.as_bytes())?;
    out.push(b':')?;
    push_number(out, line)?;
    out.push(b':')?;
    push_number(out, column)?;
    out.extend_from_slice(b": ")?;
    out.extend_from_slice(why)?;
    out.push(b'\n')?;
    Ok(())
}

fn refusal_text(
    alloc: Global,
    name: &str,
    bytes: &[u8],
    refusal: Refusal,
) -> Result<Vec<u8>, AllocError>
    ensures { IfOk result (λ v. IsRefusalText name.now bytes.now refusal.at refusal.why.now v.items) }
{
    let mut text = Vec::new(alloc);
    let place = place_of(bytes, refusal.at);
    push_line(&mut text, name, place.line, place.column, refusal.why)?;
    push_marked(bytes, refusal.at, &mut text)?;
    text.extend_from_slice(refusal.may_stand)?;
    text.push(b'\n')?;
    Ok(text)
}

/// Says where and why a text is refused, with its line there and what may stand there; or that memory was.
pub fn refused(
    alloc: Global,
    status: Status,
    name: &str,
    bytes: &[u8],
    refusal: Option<Refusal>,
) -> Reply
    ensures { IsSaidRefused status name.now bytes.now (option_map place_and_words refusal) (reply_said result) }
{
    let Some(refusal) = refusal else {
        return Reply::NoMemory;
    };
    match refusal_text(alloc, name, bytes, refusal) {
        Ok(text) => Reply::Complaint { status, text },
        Err(AllocError) => Reply::NoMemory,
    }
}

fn too_long_text(alloc: Global, name: &str, most: &[u8]) -> Result<Vec<u8>, AllocError>
    ensures { IfOk result (λ v. v.items ≡ too_long_text name.now most.now) }
{
    let mut text = Vec::from_slice(alloc, name.as_bytes())?;
    text.extend_from_slice(b": too long\n")?;
    text.extend_from_slice(most)?;
    Ok(text)
}

/// Says why a text was not read whole; this status and these words tell that it is too long.
pub fn unread(
    alloc: Global,
    name: &str,
    error: &ReadAllError,
    too_long: Status,
    most: &'static [u8],
) -> Reply
    ensures { IsSaidUnread too_long name.now error.now (reply_said result) }
{
    let (status, text) = match error {
        ReadAllError::ReadFault => (Status::ReadFault, read_fault_text(alloc, name)),
        ReadAllError::TooLong { .. } => (too_long, too_long_text(alloc, name, most)),
        ReadAllError::NoMemory => return Reply::NoMemory,
    };
    match text {
        Ok(text) => Reply::Complaint { status, text },
        Err(AllocError) => Reply::NoMemory,
    }
}
