//! Why a text of a system, of a certificate or of a query is refused: in words, with the place, and what may stand there.
#![tactic(auto)]

mod cert;
mod file;
mod query;
mod refusal;

pub use cert::cert_refusal;
pub use file::{file_refusal, most_of_count, words_of_count};
pub use query::query_refusal;
pub use refusal::Refusal;
