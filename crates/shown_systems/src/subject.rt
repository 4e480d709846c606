//! The system of which a page speaks.
use critical_pairs::Overlap;
use lens_pages::Naming;
use prepared_system::PreparedSystem;

/// A system. Behind steps that simplify the variables of its rules have numbers alone.
#[derive(Drop)]
pub struct Subject<'a> {
    pub prepared: &'a PreparedSystem<'a>,
    pub is_file: bool,
    /// The units for the search of each space.
    pub units: u64,
}

// With so many rules a unit that pays for a look at all of them is no matter.
const FEW_RULES: u64 = 100;

// How many looks at a rule are paid for, where there are more.
const LOOKS: u64 = 4_000_000;

impl<'a> Subject<'a> {
    /// The units for searches of which a unit may pay for a look at each rule: fewer where there are many.
    pub fn units_for_looks(&self) -> u64 {
        let rules = self.prepared.rules().len() as u64;
        if rules > FEW_RULES {
            self.units.min(LOOKS / rules)
        } else {
            self.units
        }
    }

    /// How the variables of a rule are named.
    pub fn in_rule(&self, rule: u32) -> Naming {
        if self.is_file {
            Naming::OfRule(rule)
        } else {
            Naming::Numbered
        }
    }

    /// How those of an overlap are named.
    pub fn in_overlap(&self, overlap: &Overlap) -> Naming {
        if self.is_file {
            Naming::OfOverlap {
                inner: overlap.inner,
                outer: overlap.outer,
            }
        } else {
            Naming::Numbered
        }
    }
}
