//! What the programs share: words of a command line, what the files and the two streams tell of a run, and the answer with its certificate.
#![tactic(auto)]

mod answers;
mod limits;
mod taken;
mod texts;
mod words;

pub use answers::{proof_text, verdict_line, verdict_of};
pub use limits::{CERT_LIMIT, FILE_LIMIT, QUERY_LIMIT};
pub use taken::written;
pub use texts::{no_memory_text, read_fault_text};
pub use words::{
    USUAL_BUDGET, around_option, before_option, budget_of, one_word, two_around_option, two_words,
};
