//! Peaks as pictures: the start above, both ways down.
use crate::derivations::{Stage, after_step};
use crate::peaks::stage_of;
use crate::picture::{Anchor, begin, put_arrow, put_text, width};
use crate::scene::Scene;
use cert_model::{Derivation, Peak, Step};
use lens_pages::{Naming, Page, Piece};
use term_core::{NoMemory, Term, try_clone};

// How far a term stands below the one before it.
const ROW: usize = 70;

// What is left free at each side.
const EDGE: usize = 20;

// How far beside an arrow that points down its label is.
const BESIDE: usize = 16;

// How far beside the middle of a slanted arrow its label ends, which the arrow falls away from.
const NEAR: usize = 4;

// How far below the term above that label stands.
const OVER: usize = 23;

// A term, and by what it is reached.
#[derive(Drop)]
struct Row {
    term: Vec<u8>,
    label: Vec<u8>,
}

fn text_of(page: &Page<'_>, t: &Term) -> Result<Vec<u8>, NoMemory> {
    let mut text = Page::new(page.alloc, page.names);
    text.put("#", &[Piece::Term(Naming::Numbered, t)]);
    text.into_text()
}

fn put_label(label: &mut Page<'_>, rule: u32, pos: &[u32], conds: usize) {
    label.put("rule #", &[Piece::Number(rule as usize)]);
    if !pos.is_empty() {
        label.put(" #", &[Piece::At(pos)]);
    }
    if conds > 0 {
        label.put(", #", &[Piece::Count(conds, " condition", " conditions")]);
    }
}

// What stands beside the arrow of a step.
fn label_of(page: &Page<'_>, step: &Step) -> Result<Vec<u8>, NoMemory> {
    let mut label = Page::new(page.alloc, page.names);
    match step {
        Step::Rule { rule, pos, conds } => put_label(&mut label, *rule, pos, conds.len()),
        Step::Hyp { number, .. } => label.put("condition #", &[Piece::Number(*number as usize)]),
    }
    label.into_text()
}

// Puts the row of a step last.
fn push_row(
    page: &Page<'_>,
    step: &Step,
    next: &Term,
    rows: &mut Vec<Row>,
) -> Result<(), NoMemory> {
    let term = text_of(page, next)?;
    let label = label_of(page, step)?;
    rows.push(Row { term, label })?;
    Ok(())
}

// Puts the terms last to which the steps of one way lead, as far as they apply; the page takes what is told of that.
fn push_rows(
    page: &mut Page<'_>,
    stage: Stage<'_>,
    start: &Term,
    d: &Derivation,
    rows: &mut Vec<Row>,
) -> Result<(), NoMemory> {
    let mut t = try_clone(page.alloc, start)?;
    for step in &d.steps {
        let Some(next) = after_step(page, step, stage, &t) else {
            return Ok(());
        };
        push_row(page, step, &next, rows)?;
        t = next;
    }
    Ok(())
}

// How far one way goes to the left and to the right of its middle.
fn half_of(rows: &[Row]) -> usize {
    let mut most = 0;
    for row in rows {
        let half = width(&row.term) / 2;
        let beside = width(&row.label).saturating_add(BESIDE);
        most = half.max(beside).max(most);
    }
    most
}

// Where the two ways and the start stand, and how wide and high the picture is.
#[derive(Clone, Copy)]
struct Layout {
    left: usize,
    right: usize,
    middle: usize,
    width: usize,
    height: usize,
}

fn layout_of(start: &[u8], first: &[Row], second: &[Row]) -> Layout {
    let (half_left, half_right) = (half_of(first), half_of(second));
    let half = width(start) / 2;
    let left = half_left.saturating_add(EDGE);
    let right = left
        .saturating_add(half_left)
        .saturating_add(half_right)
        .saturating_add(2 * EDGE);
    let middle = left / 2 + right / 2;
    let shift = half.saturating_add(EDGE).saturating_sub(middle);
    let end = right
        .saturating_add(half_right)
        .max(middle.saturating_add(half));
    let rows = first.len().max(second.len());
    Layout {
        left: left.saturating_add(shift),
        right: right.saturating_add(shift),
        middle: middle.saturating_add(shift),
        width: end.saturating_add(shift).saturating_add(EDGE),
        height: rows.saturating_mul(ROW).saturating_add(100),
    }
}

// Writes the label of an arrow from below the height y, on the outer side of the way.
fn draw_label(
    picture: &mut Page<'_>,
    above: usize,
    x: usize,
    y: usize,
    anchor: Anchor,
    label: &[u8],
) {
    let (off, down) = if above == x {
        (BESIDE, ROW / 2)
    } else {
        (NEAR, OVER)
    };
    let middle = above / 2 + x / 2;
    let beside = match anchor {
        Anchor::End => middle.saturating_sub(off),
        _ => middle.saturating_add(off),
    };
    put_text(picture, beside, y.saturating_add(down), anchor, label);
}

// Draws one way below the start.
fn draw_way(picture: &mut Page<'_>, from: usize, x: usize, anchor: Anchor, rows: &[Row]) {
    let mut above = from;
    let mut y: usize = 40;
    for row in rows {
        let next = y.saturating_add(ROW);
        put_arrow(
            picture,
            above,
            y.saturating_add(8),
            x,
            next.saturating_sub(18),
        );
        draw_label(picture, above, x, y, anchor, &row.label);
        put_text(picture, x, next, Anchor::Middle, &row.term);
        above = x;
        y = next;
    }
}

// Draws all of it.
fn draw(picture: &mut Page<'_>, start: &[u8], first: &[Row], second: &[Row]) {
    let layout = layout_of(start, first, second);
    begin(picture, layout.width, layout.height);
    put_text(picture, layout.middle, 40, Anchor::Middle, start);
    draw_way(picture, layout.middle, layout.left, Anchor::End, first);
    draw_way(picture, layout.middle, layout.right, Anchor::Start, second);
    let below = layout.height.saturating_sub(EDGE);
    put_text(
        picture,
        layout.middle,
        below,
        Anchor::Middle,
        b"no common reduct",
    );
    picture.words("</svg>\n");
}

/// A picture of a text alone.
pub fn draw_text(picture: &mut Page<'_>, text: &[u8]) {
    let across = width(text).saturating_add(2 * EDGE);
    begin(picture, across, 60);
    put_text(picture, across / 2, 40, Anchor::Middle, text);
    picture.words("</svg>\n");
}

/// Draws a peak; the page takes what is told of its steps.
pub fn draw_peak(
    page: &mut Page<'_>,
    scene: Scene<'_>,
    peak: &Peak,
    picture: &mut Page<'_>,
) -> Result<(), NoMemory> {
    let mut first = Vec::new(page.alloc);
    push_rows(page, stage_of(scene), &peak.start, &peak.first, &mut first)?;
    let mut second = Vec::new(page.alloc);
    push_rows(
        page,
        stage_of(scene),
        &peak.start,
        &peak.second,
        &mut second,
    )?;
    let start = text_of(page, &peak.start)?;
    draw(picture, &start, &first, &second);
    Ok(())
}
