//! Certificates told to a person, in words and as a picture.
#![tactic(auto)]

mod breaks;
mod classes;
mod derivations;
mod drawn;
mod ends;
mod entries;
mod evidence;
mod measures;
mod peaks;
mod picture;
mod polynomials;
mod reasons;
mod redexes;
mod rejected;
mod rules;
mod scene;
mod settled;
mod simplified;
mod whole;

pub use whole::{svg, tell, tell_rejected};
