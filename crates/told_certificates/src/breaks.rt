//! Where a certificate breaks.
use lens_pages::{Page, Piece};

/// Says that something breaks off, even where the page is quiet.
pub fn break_off(page: &mut Page<'_>, margin: usize, why: &str, pieces: &[Piece<'_>]) {
    let was = page.set_quiet(false);
    page.indent(margin);
    page.words("!! ");
    page.put(why, pieces);
    page.words("\n");
    page.set_quiet(was);
}
