//! A case, as a file of cases spells it.
use std::alloc::{AllocError, Global};

/// The words, and the two texts.
#[derive(Clone, Copy)]
pub struct Case<'a> {
    pub title: &'a str,
    /// `None` where no line with a dollar sign gives them.
    pub words: Option<&'a str>,
    pub file: &'a str,
    /// `None` where it is the certificate of the case before.
    pub certificate: Option<&'a str>,
}

/// The case that a part of a file of cases is.
pub fn case_of(part: &str) -> Case<'_> {
    let (title, rest) = part.split_once('\n').unwrap_or((part, ""));
    let (words, rest) = match rest.strip_prefix("$") {
        Some(rest) => {
            let (words, rest) = rest.split_once('\n').unwrap_or((rest, ""));
            (Some(words), rest)
        }
        None => (None, rest),
    };
    match rest.split_once("\n-\n") {
        Some((file, certificate)) => Case {
            title,
            words,
            file,
            certificate: Some(certificate),
        },
        None => Case {
            title,
            words,
            file: rest,
            certificate: None,
        },
    }
}

// Puts what stands behind an opening brace: a text so often, and what follows the closing brace.
fn put_repeated(text: &mut String, piece: &str) -> Result<(), AllocError> {
    let Some((repeated, rest)) = piece.split_once('}') else {
        return text.push_str(piece);
    };
    let (times, part) = repeated.split_once(' ').unwrap_or(("0", ""));
    let times: u32 = times.parse().unwrap_or(0);
    for _ in 0..times {
        text.push_str(part)?;
    }
    text.push_str(rest)
}

/// The text that a case gives in short.
pub fn text_of(alloc: Global, short: &str) -> Result<String, AllocError> {
    let mut text = String::new(alloc);
    let mut short_lines = String::from_str(alloc, short)?;
    short_lines.push('\n')?;
    for line in short_lines.split("\\\n") {
        for piece in line.split('{') {
            put_repeated(&mut text, piece)?;
        }
    }
    Ok(text)
}
