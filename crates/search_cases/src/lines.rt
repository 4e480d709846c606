//! What the brackets of a line stand for: `{N*PIECE}` is PIECE so many times with commas between, `{N+PIECE}` with nothing between,
//! `{A-B#PIECE}` PIECE with each of the numbers from A to B behind it, with commas between, and `{A-B&PIECE}` with blanks between.
use std::alloc::{AllocError, Global};

/// The text with what its brackets stand for, the innermost first: at most ten of them.
pub fn expanded(alloc: Global, text: &str) -> Result<String, AllocError> {
    let mut all = String::from_str(alloc, text)?;
    for _ in 0..10 {
        all = with_last_expanded(alloc, all.as_str())?;
    }
    Ok(all)
}

fn with_last_expanded(alloc: Global, text: &str) -> Result<String, AllocError> {
    let Some((before, after)) = text.rsplit_once('{') else {
        return String::from_str(alloc, text);
    };
    let (inside, behind) = after.split_once('}').unwrap_or((after, ""));
    let mut out = String::from_str(alloc, before)?;
    if let Some((times, piece)) = inside.split_once('*') {
        put_many(&mut out, times, piece, ",")?;
    } else if let Some((times, piece)) = inside.split_once('+') {
        put_many(&mut out, times, piece, "")?;
    } else if let Some((range, piece)) = inside.split_once('#') {
        put_numbered(alloc, &mut out, range, piece, ",")?;
    } else if let Some((range, piece)) = inside.split_once('&') {
        put_numbered(alloc, &mut out, range, piece, " ")?;
    }
    out.push_str(behind)?;
    Ok(out)
}

fn put_many(out: &mut String, times: &str, piece: &str, between: &str) -> Result<(), AllocError> {
    for i in 0..times.parse::<u32>().unwrap_or(0) {
        if i > 0 {
            out.push_str(between)?;
        }
        out.push_str(piece)?;
    }
    Ok(())
}

fn put_numbered(
    alloc: Global,
    out: &mut String,
    range: &str,
    piece: &str,
    between: &str,
) -> Result<(), AllocError> {
    let (first, last) = range.split_once('-').unwrap_or((range, range));
    let first = first.parse::<u32>().unwrap_or(0);
    let last = last.parse::<u32>().unwrap_or(0).min(1000);
    for i in first..last + 1 {
        if i > first {
            out.push_str(between)?;
        }
        out.push_str(format!(in alloc; "{piece}{i}")?.as_str())?;
    }
    Ok(())
}
