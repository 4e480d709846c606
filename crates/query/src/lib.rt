//! Queries of a system: conditions of which it is asked whether values for their variables meet them; read from a text, and
//! answered by evidence that they are never met, or by such values with a derivation for each condition.
//!
//! A text is `(VAR x y) (CONDITION le(x,y) == true)`: the block of variables may be absent. The definitions stand in `query_text`
//! (which query a text is, or why it is none) and `query_space` (what is tried in which order, and what it costs).
#![tactic(auto)]

ghost use Rattle.std.specs.Prelude.{◌≡◌, ℕ, map};
ghost use Rattle.cc_count.specs.Counts.{Spends};
ghost use Rattle.query.specs.Answers.{AskAnswers, IsAnswerable, IsAnswerTo};

use cc_count::Budget;
use cops_names::Names;
pub use query_search::{Reply, answer};
pub use query_terms::{Query, QueryError, read_query};
use std::alloc::Global;
use term_core::System;

/// The query that the text is, over a system with these names, and its answer; or why the text is no query.
pub fn ask(
    alloc: Global,
    sys: &System,
    names: &Names,
    bytes: &[u8],
    budget: &mut Budget,
) -> Result<(Query, Reply), QueryError>
    requires { sys.now.arities ≡ map (λ s. s.1) names.now.symbols }
    ensures answered { AskAnswers sys.now names.now.symbols bytes.now budget.old budget.new result }
    ensures paid { (n : ℕ) × Spends budget.old n budget.new }
    ensures enough { IsAnswerable sys.now names.now.symbols bytes.now budget.old.left → IsAnswerTo result }
{
    let query = read_query(alloc, sys, names, bytes)?;
    match answer(alloc, sys, &query, budget) {
        Ok(reply) => Ok((query, reply)),
        Err(_) => Err(QueryError::NoMemory),
    }
}
