//! Texts that are put together of pieces.
ghost use Rattle.std.specs.Prelude.{◌≡◌, ◌++◌, OnOk, decimal};
ghost use Rattle.cert_grammar.specs.Words.{each_behind, position_text};
ghost use Rattle.concon_run.specs.Paths.{path_text};
ghost use Rattle.concon_run.specs.Pieces.{piece_text, pieces_text};

use itoa::Buffer;
use std::alloc::AllocError;

/// A piece of a text.
#[derive(Clone, Copy)]
pub enum Piece<'a> {
    Text(&'static [u8]),
    Number(u32),
    /// The number of a byte.
    Place(u64),
    /// How many there are.
    Count(u64),
    /// Numbers with dots between them.
    Path(&'a [u32]),
    /// The same, and `e` for the root.
    Position(&'a [u32]),
    /// Numbers, each behind a space.
    States(&'a [u32]),
    Name(&'a str),
}

fn put_number(out: &mut Vec<u8>, n: u32) -> Result<(), AllocError>
    ensures { OnOk result (out.new.items ≡ out.old.items ++ decimal n) }
{
    let mut buffer = Buffer::new();
    out.extend_from_slice(buffer.format(n).as_bytes())
}

fn put_long(out: &mut Vec<u8>, n: u64) -> Result<(), AllocError>
    ensures { OnOk result (out.new.items ≡ out.old.items ++ decimal n) }
{
    let mut buffer = Buffer::new();
    out.extend_from_slice(buffer.format(n).as_bytes())
}

fn put_each(out: &mut Vec<u8>, byte: u8, numbers: &[u32]) -> Result<(), AllocError>
    ensures { OnOk result (out.new.items ≡ out.old.items ++ each_behind byte numbers.now) }
{
    'numbers: for n in numbers {
        out.push(byte)?;
        put_number(out, *n)?;
    }
    Ok(())
}

fn put_position(out: &mut Vec<u8>, numbers: &[u32]) -> Result<(), AllocError>
    ensures { OnOk result (out.new.items ≡ out.old.items ++ position_text numbers.now) }
{
    match numbers {
        [] => {
            out.push(b'e')?;
            Ok(())
        }
        [first, others @ ..] => {
            put_number(out, *first)?;
            put_each(out, b'.', others)
        }
    }
}

fn put_path(out: &mut Vec<u8>, numbers: &[u32]) -> Result<(), AllocError>
    ensures { OnOk result (out.new.items ≡ out.old.items ++ path_text numbers.now) }
{
    if numbers.is_empty() {
        Ok(())
    } else {
        put_position(out, numbers)
    }
}

fn put(out: &mut Vec<u8>, piece: Piece) -> Result<(), AllocError>
    ensures { OnOk result (out.new.items ≡ out.old.items ++ piece_text piece.entry) }
{
    match piece {
        Piece::Text(bytes) => out.extend_from_slice(bytes),
        Piece::Number(n) => put_number(out, n),
        Piece::Place(at) => put_long(out, at),
        Piece::Count(n) => put_long(out, n),
        Piece::Path(numbers) => put_path(out, numbers),
        Piece::Position(numbers) => put_position(out, numbers),
        Piece::States(numbers) => put_each(out, b' ', numbers),
        Piece::Name(name) => out.extend_from_slice(name.as_bytes()),
    }
}

/// Puts one piece after the other.
pub fn put_all(out: &mut Vec<u8>, pieces: &[Piece]) -> Result<(), AllocError>
    ensures { OnOk result (out.new.items ≡ out.old.items ++ pieces_text pieces.now) }
{
    'pieces: for piece in pieces {
        put(out, *piece)?;
    }
    Ok(())
}
