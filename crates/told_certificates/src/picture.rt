//! Parts of a picture, written tag by tag. Lengths are those of letters of one width.
use lens_pages::{Page, Piece};

/// The width of a letter.
pub const LETTER: usize = 9;

/// How wide a text is.
pub fn width(text: &[u8]) -> usize {
    let mut letters: usize = 0;
    for byte in text {
        if *byte < 128 || *byte >= 192 {
            letters = letters.saturating_add(1);
        }
    }
    letters.saturating_mul(LETTER)
}

/// Where a text stands about its place.
#[derive(Clone, Copy)]
pub enum Anchor {
    Start,
    Middle,
    End,
}

// Writes a text of an element.
fn put_escaped(picture: &mut Page<'_>, text: &[u8]) {
    for byte in text {
        match *byte {
            b'<' => picture.words("&lt;"),
            b'>' => picture.words("&gt;"),
            b'&' => picture.words("&amp;"),
            other => picture.bytes(&[other]),
        }
    }
}

/// Begins a picture of this size.
pub fn begin(picture: &mut Page<'_>, width: usize, height: usize) {
    picture.put(
        "<svg xmlns=\"http://www.w3.org/2000/svg\" viewBox=\"0 0 # #\" font-family=\"monospace\" font-size=\"14\">\n",
        &[Piece::Number(width), Piece::Number(height)],
    );
    picture.words(
        "<defs><marker id=\"tip\" viewBox=\"0 0 8 8\" refX=\"7\" refY=\"4\" markerWidth=\"8\" markerHeight=\"8\" orient=\"auto\"><path d=\"M0 0L8 4L0 8z\"/></marker></defs>\n",
    );
}

/// Writes a text at a place.
pub fn put_text(picture: &mut Page<'_>, x: usize, y: usize, anchor: Anchor, text: &[u8]) {
    let name = match anchor {
        Anchor::Start => "start",
        Anchor::Middle => "middle",
        Anchor::End => "end",
    };
    picture.put(
        "<text x=\"#\" y=\"#\" text-anchor=\"#\">",
        &[Piece::Number(x), Piece::Number(y), Piece::Words(name)],
    );
    put_escaped(picture, text);
    picture.words("</text>\n");
}

/// Draws an arrow from one place to another one.
pub fn put_arrow(picture: &mut Page<'_>, x: usize, y: usize, to_x: usize, to_y: usize) {
    picture.put(
        "<line x1=\"#\" y1=\"#\" x2=\"#\" y2=\"#\" stroke=\"black\"",
        &[
            Piece::Number(x),
            Piece::Number(y),
            Piece::Number(to_x),
            Piece::Number(to_y),
        ],
    );
    picture.words(" marker-end=\"url(#tip)\"/>\n");
}
