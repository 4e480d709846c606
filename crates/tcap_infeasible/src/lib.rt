//! Caps of terms, and the evidence that conditions are never met by them.
#![tactic(auto)]

mod capping;
mod comparing;
mod evidence;
mod keys;
mod thawing;

pub use capping::FIRST_HOLE;
pub use comparing::{ComparedCaps, compare_caps, compare_rigid_caps, made_caps_clash};
pub use evidence::TcapEvidence;
use term_core::Term;
pub use thawing::{rigid_cap, rigid_cap_in, tcap, tcap_in};

/// The cap of a term.
#[derive(Debug, Drop)]
pub enum Cap {
    Capped(Term),
    /// A run of unification inside passes the size.
    TooLarge,
}
