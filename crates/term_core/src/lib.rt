//! Terms, positions, substitutions, rules and systems.
#![tactic(auto)]

mod joins;
mod positions;
mod soundness;
mod subst;
mod systems;
mod terms;
mod variables;

pub use joins::{JoinError, join_sound, join_system};
pub use positions::{replace, subterm};
pub use soundness::{has_symbols_below, is_over};
pub use subst::Subst;
pub use systems::{Cond, Head, Rule, System, SystemFault, is_same_head};
pub use terms::{
    MAX_CONDITIONS, MAX_DEPTH, MAX_NODES, NoMemory, Term, TermError, depth, equal, fits,
    room_after, size, try_clone,
};
pub use variables::{has_variables_below, is_linear, occurs, occurs_in_right_sides, vars};
