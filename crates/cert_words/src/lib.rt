//! The words of a certificate's text: each is read with what it must meet, or the text is refused, at its place.
#![tactic(auto)]

mod choices;
mod demands;
mod error;
mod leads;
mod nodes;
mod places;
mod reading;
mod scans;
mod shared;
mod words;

pub use choices::choose;
pub use demands::{BOUND, limit};
pub use error::{CertCount, CertError};
pub use leads::{Lead, front, stuck};
pub use nodes::{Next, Node, closed_or, next_node, opened_or};
pub use places::position;
pub use reading::Reading;
pub use shared::{begins, ended, last_word, used};
pub use words::{
    checked, counted, counted_or, counted_steps, either, has_so_many, name, name_or, nested,
    number, numbered, opened, put, text,
};
