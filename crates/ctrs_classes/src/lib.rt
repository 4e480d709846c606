//! Classes of conditional systems, with the first rule that is outside.
#![tactic(auto)]

mod classes;
mod constructors;
mod regions;
mod rules;

pub use classes::{
    is_deterministic, is_extended_oriented, is_left_linear, is_right_stable, is_type3, why_not,
};
pub use constructors::is_constructor;
