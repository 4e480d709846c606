//! A system of which a page speaks.
use critical_pairs::Overlap;
use lens_pages::{Naming, Page, Piece};
use term_core::{Rule, System};

/// A system whose terms are told. The variables of a file's rules have names, those of other rules numbers.
#[derive(Clone, Copy)]
pub struct Scene<'a> {
    pub sys: &'a System,
    pub is_file: bool,
}

/// Writes a rule with its number.
pub fn tell_rule(page: &mut Page<'_>, scene: Scene<'_>, number: u32, rule: &Rule) {
    page.line(
        2,
        "#  #",
        &[
            Piece::Number(number as usize),
            Piece::Rule(scene.naming(number), rule),
        ],
    );
}

/// Writes the rules with their numbers.
pub fn tell_rules(page: &mut Page<'_>, scene: Scene<'_>) {
    let mut number: u32 = 0;
    for rule in scene.sys.rules() {
        number = number.saturating_add(1);
        tell_rule(page, scene, number, rule);
    }
}

impl<'a> Scene<'a> {
    /// How the variables of a rule are named.
    pub fn naming(self, number: u32) -> Naming {
        if self.is_file {
            Naming::OfRule(number)
        } else {
            Naming::Numbered
        }
    }

    /// How those of an overlap are named.
    pub fn overlap_naming(self, overlap: &Overlap) -> Naming {
        if self.is_file {
            Naming::OfOverlap {
                inner: overlap.inner,
                outer: overlap.outer,
            }
        } else {
            Naming::Numbered
        }
    }
}
