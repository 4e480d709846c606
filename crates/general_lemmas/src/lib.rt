//! Lemmas on numbers, Booleans, lists and what stands in them, which std has not: no term, rule or text is in them.
#![tactic(auto)]
