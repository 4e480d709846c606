//! Whole certificates.
use crate::drawn::{draw_peak, draw_text};
use crate::entries::tell_entries;
use crate::measures::tell_measure;
use crate::peaks::tell_peak;
use crate::rejected::tell_rejection;
use crate::scene::{Scene, tell_rules};
use crate::simplified::{Staged, tell_steps};
use cert_model::{Certificate, Rejected};
use cops_names::Names;
use lens_pages::{Page, Piece};
use simplify::copied;
use std::alloc::Global;
use term_core::{NoMemory, System};

// Tells what a certificate is to show, if it is valid.
fn tell_claim(page: &mut Page<'_>, cert: &Certificate) {
    let claim = match cert {
        Certificate::Ortho(_) =>
            "A certificate that the system is confluent, as it is almost orthogonal.",
        Certificate::Quasi(..) =>
            "A certificate that the system is confluent, by a measure under which its steps descend.",
        Certificate::Peak(_) => "A certificate that the system is not confluent.",
        Certificate::Simplified { .. } =>
            "A certificate whose steps simplify the system: in the one that they leave each term reaches the same terms.",
    };
    page.line(0, claim, &[]);
    page.words("\n");
}

// Tells the rules, and what the two symbols are that the file does not have.
fn tell_system(page: &mut Page<'_>, scene: Scene<'_>) {
    page.words(if scene.is_file {
        "The rules:\n"
    } else {
        "The rules, whose variables have numbers:\n"
    });
    tell_rules(page, scene);
    if (scene.sys.own() as usize) < scene.sys.arities().len() {
        page.words(
            "  (The conditions of the file ask for common reducts: the last rule tells when two terms have one.)\n",
        );
    }
    page.words("\n");
}

// Tells a certificate without steps that simplify.
fn tell_body(page: &mut Page<'_>, scene: Scene<'_>, cert: &Certificate) {
    tell_claim(page, cert);
    tell_system(page, scene);
    match cert {
        Certificate::Ortho(pairs) => tell_entries(page, scene, pairs),
        Certificate::Quasi(measure, pairs) => {
            tell_measure(page, scene, measure);
            tell_entries(page, scene, pairs);
        }
        Certificate::Peak(peak) => tell_peak(page, scene, peak),
        Certificate::Simplified { .. } => {}
    }
}

// Tells the steps of each level, the outermost first, and answers the system that they leave and the innermost body; none where a
// step is not good, which is told.
fn behind_steps<'c>(
    page: &mut Page<'_>,
    sys: &System,
    cert: &'c Certificate,
) -> Option<(Staged, &'c Certificate)> {
    let copy = copied(page.alloc, sys);
    let mut current = Staged {
        sys: page.got(copy)?,
        is_file: true,
    };
    let mut body = cert;
    'levels: while let Certificate::Simplified { steps, body: inner } = body {
        tell_claim(page, body);
        tell_system(page, current.scene());
        current = tell_steps(page, current, steps)?;
        page.words("\n");
        body = inner;
    }
    Some((current, body))
}

/// A certificate of a file's system in words.
pub fn tell(
    alloc: Global,
    sys: &System,
    names: &Names,
    cert: &Certificate,
) -> Result<Vec<u8>, NoMemory> {
    let mut page = Page::new(alloc, names);
    if let Some((system, body)) = behind_steps(&mut page, sys, cert) {
        tell_body(&mut page, system.scene(), body);
    }
    page.into_text()
}

/// Where a certificate of a file's system breaks that the check rejected for this reason, and what is expected there.
pub fn tell_rejected(
    alloc: Global,
    sys: &System,
    names: &Names,
    cert: &Certificate,
    reason: &Rejected,
) -> Result<Vec<u8>, NoMemory> {
    let mut page = Page::new(alloc, names);
    page.words("The certificate is rejected.\n");
    if let Rejected::SimpFails { step, .. } = reason {
        page.line(
            0,
            "Step # that simplifies is not good:",
            &[Piece::Number(*step as usize)],
        );
    }
    page.set_quiet(true);
    let found = behind_steps(&mut page, sys, cert);
    page.set_quiet(false);
    if let Some((system, body)) = found {
        tell_rejection(&mut page, system.scene(), body, reason);
    }
    page.into_text()
}

// Draws the body of a certificate; the page takes what is told of its steps.
fn draw(
    page: &mut Page<'_>,
    sys: &System,
    cert: &Certificate,
    picture: &mut Page<'_>,
) -> Result<(), NoMemory> {
    let Some((system, body)) = behind_steps(page, sys, cert) else {
        draw_text(picture, b"no peak");
        return Ok(());
    };
    if let Certificate::Peak(peak) = body {
        return draw_peak(page, system.scene(), peak, picture);
    }
    draw_text(picture, b"no peak");
    Ok(())
}

/// The peak of a certificate as a picture, in SVG: the start above, both ways down, with the numbers of the rules beside the
/// arrows; of another certificate a picture of the text `no peak`.
pub fn svg(
    alloc: Global,
    sys: &System,
    names: &Names,
    cert: &Certificate,
) -> Result<Vec<u8>, NoMemory> {
    let mut page = Page::new(alloc, names);
    let mut picture = Page::new(alloc, names);
    draw(&mut page, sys, cert, &mut picture)?;
    let _told = page.into_text()?;
    picture.into_text()
}
