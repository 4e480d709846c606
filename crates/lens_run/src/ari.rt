//! Refusals of a file in the ARI format.
use ari_text::AriError;
use refusal_texts::{Refusal, most_of_count, words_of_count};

// Why the text is refused.
fn words(error: &AriError) -> &'static [u8] {
    match error {
        AriError::BadByte { .. } => b"bad byte",
        AriError::NotClosed { .. } => b"not closed",
        AriError::Syntax { .. } => b"syntax",
        AriError::MissingFormat { .. } => b"missing format",
        AriError::RepeatedFormat { .. } => b"repeated format",
        AriError::FormatOther { .. } => b"format other",
        AriError::ConditionTypeOther { .. } => b"condition type other",
        AriError::Sorts { .. } => b"sorts",
        AriError::Theory { .. } => b"theory",
        AriError::LateFunction { .. } => b"function behind a rule",
        AriError::UnknownItem { .. } => b"unknown item",
        AriError::BadNumber { .. } => b"bad number",
        AriError::DeclaredTwice { .. } => b"declared twice",
        AriError::NotSpelt { .. } => b"name cannot be spelt",
        AriError::WrongArity { .. } => b"wrong arity",
        AriError::Undeclared { .. } => b"undeclared function",
        AriError::ConditionsWithoutType { .. } => b"conditions without type",
        AriError::LeftVariable { .. } => b"left side is a variable",
        AriError::TooDeep { .. } => b"too deep",
        AriError::TooMany { what, .. } => words_of_count(*what),
        AriError::NoMemory => b"no memory",
    }
}

// What may stand in a part that is not that of a rule.
fn part_may_be(error: &AriError) -> &'static [u8] {
    match error {
        AriError::MissingFormat { .. } =>
            b"a file begins with (format TRS), (format CTRS oriented) or (format CTRS join)",
        AriError::RepeatedFormat { .. } =>
            b"the format stands once, before all functions and rules",
        AriError::FormatOther { .. } =>
            b"here may stand TRS or CTRS; concon reads no systems of other formats",
        AriError::ConditionTypeOther { .. } =>
            b"here may stand oriented or join; concon reads no semi-equational conditions",
        AriError::Sorts { .. } =>
            b"concon reads no sorts: here may stand the next (fun f 2) or (rule l r), and behind the name of a function the number of its arguments",
        AriError::Theory { .. } =>
            b"concon reads no theories: here may stand the next (fun f 2) or (rule l r)",
        AriError::LateFunction { .. } =>
            b"here may stand a rule: all functions stand before the first one",
        AriError::UnknownItem { .. } => b"here may stand format, fun, rule or meta-info",
        AriError::BadNumber { .. } =>
            b"here may stand how many arguments the function has: a decimal number, at most 20",
        AriError::DeclaredTwice { .. } =>
            b"here may stand the name of another function: one part (fun f 2) tells of each",
        _ =>
            b"a part is (meta-info ..), (format ..), (fun f 2) or (rule l r); a rule may have (= s t) behind its right side, and a term is a name, or (f s t)",
    }
}

// A sentence of what may stand at the place.
fn may_stand(error: &AriError) -> &'static [u8] {
    match error {
        AriError::BadByte { .. } =>
            b"here may stand white space, a bracket, a comment behind ; or a name; names are of the bytes 33 to 126",
        AriError::NotClosed { .. } =>
            b"here a name in bars or a text in quotes begins, which a second bar or quote ends",
        AriError::NotSpelt { .. } =>
            b"concon reads names of at most 255 of the bytes 33 to 126, without ( ) , | \" and \\, and without -> and ==: give this one another name everywhere",
        AriError::WrongArity { .. } =>
            b"this function has another number of arguments where it is declared",
        AriError::Undeclared { .. } =>
            b"here may stand the name of a function that (fun f 2) tells of; a variable has no bracket before it",
        AriError::ConditionsWithoutType { .. } =>
            b"here may stand the end of the rule; rules with conditions need (format CTRS oriented) or (format CTRS join)",
        AriError::LeftVariable { .. } =>
            b"a rule begins with a function; no part (fun f 2) tells of this one, so it is a variable",
        AriError::TooDeep { .. } => b"a term has depth 200 at most",
        AriError::TooMany { what, .. } => most_of_count(*what),
        _ => part_may_be(error),
    }
}

/// Where and why a text of the ARI format is refused; want of memory is no refusal.
pub fn ari_refusal(error: &AriError) -> Option<Refusal> {
    let at = error.at()?;
    Some(Refusal {
        at,
        why: words(error),
        may_stand: may_stand(error),
    })
}
