//! A line of a text, with a mark below it.
ghost use Rattle.std.specs.Prelude.{◌≡◌, ◌≤◌, ◌+◌, ◌++◌, List, ℕ, OnOk, map};
ghost use Rattle.std.specs.List.{flat_map};
ghost use Rattle.text_places.specs.Marks.{shown, blank, line_text, mark_text, IsMarked};

use crate::place::{Place, place_of};
use std::alloc::AllocError;

// How many bytes of a line are shown.
const MOST_SHOWN: usize = 120;

// The first byte of a line that is shown.
fn shown_from(place: &Place, at: usize) -> usize
    requires start { place.now.start ≤ at }
    requires end { at ≤ place.now.end }
    ensures start { place.now.start ≤ result }
    ensures before { result ≤ at }
    ensures behind { at ≤ result + MOST_SHOWN }
{
    if place.end - place.start <= MOST_SHOWN {
        return place.start;
    }
    at.saturating_sub(MOST_SHOWN / 2)
        .max(place.start)
        .min(place.end - MOST_SHOWN)
}

fn shown_byte(byte: u8) -> u8
    ensures { result ≡ shown byte }
{
    match byte {
        b'\t' => byte,
        b'\r' => b' ',
        0..=31 | 127 => b'?',
        _ => byte,
    }
}

fn push_shown(bytes: &[u8], out: &mut Vec<u8>) -> Result<(), AllocError>
    ensures { OnOk result (out.new.items ≡ out.old.items ++ map shown bytes.now) }
{
    for byte in bytes {
        out.push(shown_byte(*byte))?;
    }
    Ok(())
}

fn push_blank(byte: u8, out: &mut Vec<u8>) -> Result<(), AllocError>
    ensures { OnOk result (out.new.items ≡ out.old.items ++ blank byte) }
{
    match byte {
        b'\t' => out.extend_from_slice(b"\t"),
        128..=191 => Ok(()),
        _ => out.extend_from_slice(b" "),
    }
}

fn push_blanks(bytes: &[u8], out: &mut Vec<u8>) -> Result<(), AllocError>
    ensures { OnOk result (out.new.items ≡ out.old.items ++ flat_map blank bytes.now) }
{
    for byte in bytes {
        push_blank(*byte, out)?;
    }
    Ok(())
}

fn push_line(
    more_before: bool,
    bytes: &[u8],
    more_behind: bool,
    out: &mut Vec<u8>,
) -> Result<(), AllocError>
    ensures { OnOk result (out.new.items ≡ out.old.items ++ line_text more_before bytes.now more_behind) }
{
    if more_before {
        out.extend_from_slice(b"...")?;
    }
    push_shown(bytes, out)?;
    if more_behind {
        out.extend_from_slice(b"...")?;
    }
    out.extend_from_slice(b"\n")
}

fn push_mark(more_before: bool, before: &[u8], out: &mut Vec<u8>) -> Result<(), AllocError>
    ensures { OnOk result (out.new.items ≡ out.old.items ++ mark_text more_before before.now) }
{
    if more_before {
        out.extend_from_slice(b"   ")?;
    }
    push_blanks(before, out)?;
    out.extend_from_slice(b"^\n")
}

/// Puts the line of the byte with this number, and below it a line with a mark under the byte. Of a long line 120 bytes around it stand between dots.
pub fn push_marked(bytes: &[u8], at: usize, out: &mut Vec<u8>) -> Result<(), AllocError>
    ensures { OnOk result ((text : List ℕ) × IsMarked bytes.now at text × (out.new.items ≡ out.old.items ++ text)) }
{
    let place = place_of(bytes, at);
    let at = at.min(bytes.len());
    let from = shown_from(&place, at);
    let to = from.saturating_add(MOST_SHOWN).min(place.end);
    let more_before = place.start < from;
    push_line(more_before, &bytes[from..to], to < place.end, out)?;
    push_mark(more_before, &bytes[from..at], out)
}
