//! The line and the column of a byte.
ghost use Rattle.std.specs.Prelude.{◌≡◌, ◌≤◌, ◌+◌, length};
ghost use Rattle.text_places.specs.Places.{BeginsLine, EndsLine, IsPlace, HasNoFeed, feeds};

/// Where a byte stands: the numbers of its line and its column, from 1, and the line's bytes, without the line feed.
#[derive(Clone, Copy, Debug, PartialEq, Eq)]
pub struct Place {
    pub line: usize,
    pub column: usize,
    pub start: usize,
    pub end: usize,
}

// A line that is begun: its number, and its first byte's.
#[derive(Clone, Copy)]
struct Begun {
    line: usize,
    start: usize,
}

// The line that goes on behind these bytes.
fn line_behind(bytes: &[u8]) -> Begun
    ensures line { result.line ≡ feeds bytes.now + 1 }
    ensures within { result.start ≤ length bytes.now }
    ensures begins { BeginsLine bytes.now result.start }
    ensures one { HasNoFeed bytes.now result.start (length bytes.now) }
{
    let mut line = 1;
    let mut start = 0;
    for (i, byte) in bytes.iter().enumerate() {
        if *byte == b'\n' {
            line += 1;
            start = i + 1;
        }
    }
    Begun { line, start }
}

// Where the line of a place ends.
fn line_end(bytes: &[u8], at: usize) -> usize
    requires { at ≤ length bytes.now }
    ensures from { at ≤ result }
    ensures within { result ≤ length bytes.now }
    ensures ends { EndsLine bytes.now result }
    ensures one { HasNoFeed bytes.now at result }
{
    let mut end = at;
    while end < bytes.len() && bytes[end] != b'\n' {
        end += 1;
    }
    end
}

/// Where the byte with this number, from 0, stands. The end of the text has a place too, and what is behind it has that one.
pub fn place_of(bytes: &[u8], at: usize) -> Place
    ensures { IsPlace bytes.now at result }
{
    let at = at.min(bytes.len());
    let (before, _) = bytes.split_at(at);
    let Begun { line, start } = line_behind(before);
    let end = line_end(bytes, at);
    Place {
        line,
        column: at - start + 1,
        start,
        end,
    }
}
