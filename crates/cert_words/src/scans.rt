//! The words of a certificate byte by byte: how each word may go on.

ghost use Rattle.std.specs.Prelude.{◌≡◌, ◌≤◌, ◌==◌, if◌then◌else◌, Some, None, ◌∷◌, [], option_map, length};
ghost use Rattle.cert_grammar.specs.Scans as spec;
ghost use Rattle.cert_words.specs.Words.{mode_view};

use cops_lex::is_id;

/// How far a word has been read.
#[derive(Clone, Copy, Drop)]
pub enum Mode {
    /// These bytes are left of it.
    Spelling(&'static [u8]),
    /// This byte is left of it.
    Byte(u8),
    /// A bar and a number: nothing.
    BarBegins,
    /// A number: nothing, the digit 0 alone, or digits.
    NumberBegins,
    NumberZero,
    NumberMore,
    /// A position: nothing, the letter e; of one of its numbers nothing, the digit 0 alone, or digits.
    PlaceBegins,
    PlaceRoot,
    PlaceNumber,
    PlaceZero,
    PlaceMore,
    /// A name: nothing, bytes that end with - or with =, or others.
    NameBegins,
    NameDash,
    NameEquals,
    NameMore,
}

fn is_digit(b: u8) -> bool
    ensures { result ≡ spec.is_digit b }
{
    b'0' <= b && b <= b'9'
}

fn spelling_next(left: &'static [u8], b: u8) -> Option<Mode>
    ensures { option_map mode_view result ≡ spec.spelling_next left.now b }
{
    match left {
        [a, rest @ ..] if *a == b => Some(Mode::Spelling(rest)),
        _ => None,
    }
}

// this one, where a byte fits
fn when(fits: bool, mode: Mode) -> Option<Mode>
    ensures { option_map mode_view result ≡ (if fits then Some (mode_view mode) else None) }
{
    if fits { Some(mode) } else { None }
}

// a number begins, with or without the digit 0
fn number_next(zero: Mode, more: Mode, b: u8) -> Option<Mode>
    ensures { option_map mode_view result ≡ spec.number_next (mode_view zero) (mode_view more) b }
{
    if b == b'0' {
        Some(zero)
    } else {
        when(is_digit(b), more)
    }
}

// any byte of a name
fn name_next(b: u8) -> Option<Mode>
    ensures { option_map mode_view result ≡ spec.name_next b }
{
    if b == b'-' {
        Some(Mode::NameDash)
    } else if b == b'=' {
        Some(Mode::NameEquals)
    } else if is_id(b) {
        Some(Mode::NameMore)
    } else {
        None
    }
}

// any byte of a name but one
fn name_next_but(other: u8, b: u8) -> Option<Mode>
    ensures { option_map mode_view result ≡ (if b == other then None else spec.name_next b) }
{
    if b == other { None } else { name_next(b) }
}

fn place_begins_next(b: u8) -> Option<Mode>
    ensures { option_map mode_view result ≡ spec.next spec.place_begins b }
{
    if b == b'e' {
        Some(Mode::PlaceRoot)
    } else {
        number_next(Mode::PlaceZero, Mode::PlaceMore, b)
    }
}

fn place_more_next(b: u8) -> Option<Mode>
    ensures { option_map mode_view result ≡ spec.next spec.place_more b }
{
    if is_digit(b) {
        Some(Mode::PlaceMore)
    } else {
        when(b == b'.', Mode::PlaceNumber)
    }
}

// how far it has been read with one more byte, if it can go on so
fn next(mode: Mode, b: u8) -> Option<Mode>
    ensures { option_map mode_view result ≡ spec.next (mode_view mode) b }
{
    match mode {
        Mode::Spelling(left) => spelling_next(left, b),
        Mode::Byte(left) => when(left == b, Mode::Spelling(b"")),
        Mode::BarBegins => when(b == b'|', Mode::NumberBegins),
        Mode::NumberBegins => number_next(Mode::NumberZero, Mode::NumberMore, b),
        Mode::NumberZero | Mode::PlaceRoot => None,
        Mode::NumberMore => when(is_digit(b), Mode::NumberMore),
        Mode::PlaceBegins => place_begins_next(b),
        Mode::PlaceNumber => number_next(Mode::PlaceZero, Mode::PlaceMore, b),
        Mode::PlaceZero => when(b == b'.', Mode::PlaceNumber),
        Mode::PlaceMore => place_more_next(b),
        Mode::NameBegins | Mode::NameMore => name_next(b),
        Mode::NameDash => name_next_but(b'>', b),
        Mode::NameEquals => name_next_but(b'=', b),
    }
}

/// Whether what has been read is a word.
pub fn is_word(mode: Mode) -> bool
    ensures { result ≡ spec.is_word (mode_view mode) }
{
    match mode {
        Mode::Spelling(left) => left.is_empty(),
        Mode::Byte(_)
        | Mode::BarBegins
        | Mode::NumberBegins
        | Mode::PlaceBegins
        | Mode::PlaceNumber
        | Mode::NameBegins => false,
        Mode::NumberZero
        | Mode::NumberMore
        | Mode::PlaceRoot
        | Mode::PlaceZero
        | Mode::PlaceMore
        | Mode::NameDash
        | Mode::NameEquals
        | Mode::NameMore => true,
    }
}

// how many digits stand at the front
fn digits(bytes: &[u8]) -> usize
    ensures size { result ≡ (spec.scan spec.number_more bytes.now).size }
    ensures within { result ≤ length bytes.now }
{
    'digits: for (size, b) in bytes.iter().enumerate() {
        if !is_digit(*b) {
            return size;
        }
    }
    bytes.len()
}

/// How long the longest front is that begins a word, and how far the word has been read with it.
pub fn scan(begins: Mode, bytes: &[u8]) -> (usize, Mode)
    ensures size { result.0 ≡ (spec.scan (mode_view begins) bytes.now).size }
    ensures mode { mode_view result.1 ≡ (spec.scan (mode_view begins) bytes.now).mode }
    ensures within { result.0 ≤ length bytes.now }
{
    let mut mode = begins;
    'bytes: for (size, b) in bytes.iter().enumerate() {
        match next(mode, *b) {
            Some(Mode::NumberMore) => {
                return (size + 1 + digits(&bytes[size + 1..]), Mode::NumberMore);
            }
            Some(further) => mode = further,
            None => return (size, mode),
        }
    }
    (bytes.len(), mode)
}
