//! What the reader and the writer answer.

use crate::entries::gathered;
use crate::texts::Text;
use cert_model::Certificate;
use cert_text::{CertError, read_cert, text_len, write_cert};
use cops_read::Names;
use std::alloc::{AllocError, Global};

// Longer texts are not printed.
const LONGEST: u64 = 1_000;

/// The certificate that is read, as it is written, or the refusal with its place marked in the row. Where it is read entry by
/// entry the answer is to be the same, else both are told.
pub fn answer(alloc: Global, names: &Names, front: &str, row: &str) -> Result<String, AllocError> {
    let front = Text::of(alloc, front)?;
    let text = Text::of(alloc, row)?;
    let mut bytes = Vec::from_slice(alloc, &front.bytes)?;
    bytes.extend_from_slice(&text.bytes)?;
    let whole = told(
        alloc,
        names,
        &front,
        &text,
        row,
        read_cert(alloc, names, &bytes),
    )?;
    let by_entries = told(
        alloc,
        names,
        &front,
        &text,
        row,
        gathered(alloc, names, &bytes),
    )?;
    if whole == by_entries {
        return Ok(whole);
    }
    format!(in alloc; "{whole}, but entry by entry: {by_entries}")
}

fn told(
    alloc: Global,
    names: &Names,
    front: &Text,
    text: &Text,
    row: &str,
    found: Result<Certificate, CertError>,
) -> Result<String, AllocError> {
    match found {
        Ok(cert) => read(alloc, names, &cert),
        Err(error) => {
            let behind_front = place(&error).saturating_sub(front.bytes.len());
            refused(alloc, error, row, text.place(behind_front))
        }
    }
}

fn read(alloc: Global, names: &Names, cert: &Certificate) -> Result<String, AllocError> {
    let Ok(length) = text_len(alloc, names, cert) else {
        return Err(AllocError);
    };
    if length > LONGEST {
        return format!(in alloc; "read, {length} bytes");
    }
    let mut line = Vec::from_slice(alloc, b"read, ")?;
    if write_cert(alloc, names, cert, &mut line).is_err() {
        return Err(AllocError);
    }
    let line = one_line(alloc, &line)?;
    format!(in alloc; "{line} ({length} bytes)")
}

// The text with a backslash and an n for each line's end.
fn one_line(alloc: Global, text: &[u8]) -> Result<String, AllocError> {
    let mut line = String::new(alloc);
    for b in text {
        if *b == b'\n' {
            line.push_str("\\n")?;
        } else {
            line.push(*b as char)?;
        }
    }
    Ok(line)
}

fn refused(alloc: Global, error: CertError, row: &str, at: usize) -> Result<String, AllocError> {
    let row = marked(alloc, row, at)?;
    match error {
        CertError::TooMany { what, at } => { format!(in alloc; "too many {what:?} at {at}: {row}") }
        other => format!(in alloc; "{other}: {row}"),
    }
}

// The row with a mark before the byte at a place.
fn marked(alloc: Global, row: &str, at: usize) -> Result<String, AllocError> {
    let mut line = String::new(alloc);
    for (i, c) in row.char_indices() {
        if i == at {
            line.push('^')?;
        }
        line.push(c)?;
    }
    if at >= row.len() {
        line.push('^')?;
    }
    Ok(line)
}

fn place(error: &CertError) -> usize {
    match error {
        CertError::CertSyntax { at }
        | CertError::UnknownName { at }
        | CertError::WrongArity { at }
        | CertError::BadNumber { at }
        | CertError::BadShare { at }
        | CertError::CertTooDeep { at }
        | CertError::TooMany { what: _, at } => *at,
        CertError::NoMemory => 0,
    }
}

/// Whether each proper beginning of the text is refused at its end, or at the name that is cut there.
pub fn beginnings(alloc: Global, names: &Names, row: &str) -> Result<String, AllocError> {
    let text = Text::of(alloc, row)?;
    for length in 0..text.bytes.len() {
        let (front, _) = text.bytes.split_at(length);
        if !is_refused_at_its_end(alloc, names, front) {
            return format!(in alloc; "not refused there: the first {length} bytes of {row}");
        }
    }
    format!(in alloc;
        "each of {} beginnings is refused at its end: {row}",
        text.bytes.len()
    )
}

fn is_refused_at_its_end(alloc: Global, names: &Names, front: &[u8]) -> bool {
    match read_cert(alloc, names, front) {
        Err(CertError::CertSyntax { at }) => at == front.len(),
        Err(CertError::UnknownName { at }) => at == last_name(front),
        _ => false,
    }
}

// The place of the name at the end, or the length.
fn last_name(text: &[u8]) -> usize {
    match text.iter().rposition(|b| *b == b' ') {
        Some(space) => space.saturating_add(1),
        None => text.len(),
    }
}
