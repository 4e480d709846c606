//! What stands at the front of bytes.
ghost use Rattle.std.specs.Prelude.{◌≡◌, ◌<◌, ◌≤◌, ◌+◌, length, Some, IfSome};
ghost use Rattle.file_text.specs.Bytes as spec;
ghost use Rattle.file_text.specs.Bytes.{white_len, run_len, comment_len};
ghost use Rattle.file_text.specs.Tokens.{kind_at, len_at};
ghost use Rattle.file_text.specs.Tokens as text;

use crate::Kind;

fn is_white(b: u8) -> bool
    ensures { result ≡ spec.is_white b }
{
    b == 9 || b == 10 || b == 13 || b == 32
}

/// Whether the byte is one of identifiers.
pub fn is_id(b: u8) -> bool
    ensures { result ≡ spec.is_id b }
{
    b > 32
        && b < 127
        && !(b == b'(' || b == b')' || b == b',' || b == b'|' || b == b'"' || b == b'\\')
}

fn begins_arrow(bytes: &[u8]) -> bool
    ensures { result ≡ spec.begins_arrow bytes.now }
{
    match bytes {
        [a, b, ..] => *a == b'-' && *b == b'>',
        _ => false,
    }
}

fn begins_equal(bytes: &[u8]) -> bool
    ensures { result ≡ spec.begins_equal bytes.now }
{
    match bytes {
        [a, b, ..] => *a == b'=' && *b == b'=',
        _ => false,
    }
}

/// How much white space stands at the front.
#[tactic(auto, using(crate::proofs::Runs::white_more, crate::proofs::Runs::white_stops, crate::proofs::Runs::white_end))]
pub fn skip_white(bytes: &[u8]) -> usize
    ensures len { result ≡ white_len bytes.now }
    ensures within { result ≤ length bytes.now }
{
    let mut n = 0;
    'white: while n < bytes.len() {
        if !is_white(bytes[n]) {
            break;
        }
        n += 1;
    }
    n
}

// how long the identifier at the front is
#[tactic(auto, using(crate::proofs::Runs::run_more, crate::proofs::Runs::run_stops_byte, crate::proofs::Runs::run_stops_arrow, crate::proofs::Runs::run_stops_equal, crate::proofs::Runs::run_end))]
fn skip_run(bytes: &[u8]) -> usize
    ensures len { result ≡ run_len bytes.now }
    ensures within { result ≤ length bytes.now }
{
    let mut n = 0;
    'run: while n < bytes.len() {
        let (_, left) = bytes.split_at(n);
        if !is_id(bytes[n]) || begins_arrow(left) || begins_equal(left) {
            break;
        }
        n += 1;
    }
    n
}

/// The kind of the token at the front.
pub fn kind_of(bytes: &[u8]) -> Option<Kind>
    ensures { result ≡ kind_at bytes.now }
{
    match bytes {
        [] => None,
        [b'(', ..] => Some(Kind::LeftParen),
        [b')', ..] => Some(Kind::RightParen),
        [b',', ..] => Some(Kind::Comma),
        [b'|', ..] => Some(Kind::Bar),
        [b, ..] => {
            if begins_arrow(bytes) {
                Some(Kind::Arrow)
            } else if begins_equal(bytes) {
                Some(Kind::Equal)
            } else if is_id(*b) {
                Some(Kind::Id)
            } else {
                None
            }
        }
    }
}

/// How many bytes the token at the front has, which is of this kind.
#[tactic(auto, using(crate::proofs::Fronts::id_runs, crate::proofs::Fronts::arrow_two, crate::proofs::Fronts::equal_two, crate::proofs::Fronts::kind_some))]
pub fn len_of(kind: Kind, bytes: &[u8]) -> usize
    requires { kind_at bytes.now ≡ Some kind }
    ensures len { result ≡ len_at kind bytes.now }
    ensures within { result ≤ length bytes.now }
    ensures some { 0 < result }
{
    match kind {
        Kind::Id => skip_run(bytes),
        Kind::LeftParen | Kind::RightParen | Kind::Comma | Kind::Bar => 1,
        Kind::Arrow | Kind::Equal => 2,
    }
}

// whether a bracket stands at the front, and behind any white space the identifier COMMENT
fn begins_comment(bytes: &[u8]) -> bool
    ensures { result ≡ spec.begins_comment bytes.now }
{
    match bytes {
        [b'(', inner @ ..] => {
            let (_, behind) = inner.split_at(skip_white(inner));
            let (word, _) = behind.split_at(skip_run(behind));
            word == b"COMMENT".as_slice()
        }
        _ => false,
    }
}

/// Whether a comment begins at the front, where so many brackets are open.
pub fn is_comment_at(count: usize, bytes: &[u8]) -> bool
    ensures { result ≡ text.is_comment_at count bytes.now }
{
    count == 0 && begins_comment(bytes)
}

// the count of open brackets, a byte later
fn count_after(count: usize, byte: u8) -> usize
    requires { count < usize.MAX }
    ensures { result ≡ spec.count_after count byte }
{
    match byte {
        b'(' => count + 1,
        b')' => count.saturating_sub(1),
        _ => count,
    }
}

/// How long the comment at the front is, if it is closed.
#[tactic(auto, using(crate::proofs::Runs::comment_start))]
pub fn skip_comment(bytes: &[u8]) -> Option<usize>
    ensures len { result ≡ comment_len bytes.now }
    ensures within { IfSome result (λ n. n ≤ length bytes.now) }
    ensures some { IfSome result (λ n. 0 < n) }
{
    let mut count = 0;
    let mut n = 0;
    'comment: while n < bytes.len() {
        count = count_after(count, bytes[n]);
        n += 1;
        if count == 0 {
            return Some(n);
        }
    }
    None
}

/// The count of open brackets behind a token.
pub fn open_after(count: usize, kind: Kind) -> usize
    requires { count < usize.MAX }
    ensures opened { result ≡ text.open_after count kind }
    ensures within { result ≤ count + 1 }
{
    match kind {
        Kind::LeftParen => count + 1,
        Kind::RightParen => count.saturating_sub(1),
        Kind::Id | Kind::Comma | Kind::Bar | Kind::Arrow | Kind::Equal => count,
    }
}
