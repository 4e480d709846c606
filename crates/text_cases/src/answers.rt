//! What the readers and the writer tell of bytes, each on one line.
use cops_lex::{Kind, tokens};
use cops_read::{ReadError, read_system};
use cops_syntax::{CondText, ConditionType, FileText, Node, RuleText, parse};
use cops_write::{write_system, write_term};
use std::alloc::{AllocError, Global};
use term_core::fits;

// a longer term of a tree is told by the number of its identifiers
const LONGEST: usize = 20;

/// The tokens with their places.
pub fn of_tokens(alloc: Global, bytes: &[u8]) -> Result<String, AllocError> {
    let found = match tokens(alloc, bytes) {
        Ok(found) => found,
        Err(error) => return format!(in alloc; "{error}"),
    };
    if found.is_empty() {
        return String::from_str(alloc, "no tokens");
    }
    let mut out = String::new(alloc);
    for token in &found {
        if !out.is_empty() {
            out.push_str("  ")?;
        }
        let kind = kind_name(token.kind);
        out.push_str(format!(in alloc; "{kind} {}..{}", token.from, token.to)?.as_str())?;
    }
    Ok(out)
}

fn kind_name(kind: Kind) -> &'static str {
    match kind {
        Kind::Id => "id",
        Kind::LeftParen => "(",
        Kind::RightParen => ")",
        Kind::Comma => ",",
        Kind::Bar => "|",
        Kind::Arrow => "->",
        Kind::Equal => "==",
    }
}

/// The tree: each identifier with the number of its arguments if it has brackets, each bar with its place.
pub fn of_tree(alloc: Global, bytes: &[u8]) -> Result<String, AllocError> {
    let file = match parse(alloc, bytes) {
        Ok(file) => file,
        Err(error) => return format!(in alloc; "{error}"),
    };
    let mut out = String::from_str(alloc, type_name(file.condition_type))?;
    out.push_str("; variables")?;
    for name in &file.variables {
        out.push_str(" ")?;
        out.push_str(name.text)?;
    }
    out.push_str(format!(in alloc; "; rules {}", file.rules.len())?.as_str())?;
    for rule in &file.rules {
        out.push_str("; ")?;
        put_rule(alloc, &mut out, rule)?;
    }
    Ok(out)
}

fn type_name(condition_type: Option<ConditionType>) -> &'static str {
    match condition_type {
        Some(ConditionType::Oriented) => "oriented",
        Some(ConditionType::Join) => "join",
        None => "no type",
    }
}

fn put_rule(alloc: Global, out: &mut String, rule: &RuleText) -> Result<(), AllocError> {
    put_term(alloc, out, &rule.left)?;
    out.push_str(" -> ")?;
    put_term(alloc, out, &rule.right)?;
    if let Some(at) = rule.bar {
        out.push_str(format!(in alloc; " |{at}")?.as_str())?;
    }
    for condition in &rule.conditions {
        out.push_str(" ")?;
        put_condition(alloc, out, condition)?;
    }
    Ok(())
}

fn put_condition(alloc: Global, out: &mut String, condition: &CondText) -> Result<(), AllocError> {
    put_term(alloc, out, &condition.left)?;
    out.push_str(" == ")?;
    put_term(alloc, out, &condition.right)
}

fn put_term(alloc: Global, out: &mut String, nodes: &[Node]) -> Result<(), AllocError> {
    if nodes.len() > LONGEST {
        return out.push_str(format!(in alloc; "{} identifiers", nodes.len())?.as_str());
    }
    for (i, node) in nodes.iter().enumerate() {
        if i > 0 {
            out.push_str(" ")?;
        }
        out.push_str(node.name.text)?;
        if node.brackets {
            out.push_str(format!(in alloc; "/{}", node.arguments)?.as_str())?;
        }
    }
    Ok(())
}

fn refusal(alloc: Global, error: &ReadError) -> Result<String, AllocError> {
    match error {
        ReadError::TooMany { limit, .. } => format!(in alloc; "{error}, more than {limit}"),
        _ => format!(in alloc; "{error}"),
    }
}

/// The size of the system, and how many symbols are its file's, where not all are.
pub fn of_system(alloc: Global, bytes: &[u8]) -> Result<String, AllocError> {
    let system = match read_system(alloc, bytes) {
        Ok((system, _)) => system,
        Err(error) => return refusal(alloc, &error),
    };
    let (rules, symbols, own) = (system.rules().len(), system.arities().len(), system.own());
    if own as usize == symbols {
        return format!(in alloc; "rules {rules}, symbols {symbols}");
    }
    format!(in alloc; "rules {rules}, symbols {symbols}, of the file {own}")
}

/// What is written of the system, behind other bytes.
pub fn of_writing(alloc: Global, bytes: &[u8]) -> Result<String, AllocError> {
    let (system, names) = match read_system(alloc, bytes) {
        Ok(found) => found,
        Err(error) => return refusal(alloc, &error),
    };
    let mut out = Vec::from_slice(alloc, b"> ")?;
    match write_system(alloc, &names, &system, &mut out) {
        Ok(()) => on_one_line(alloc, &out),
        Err(_) => String::from_str(alloc, "no memory"),
    }
}

/// What is written of the left side of the last rule, behind other bytes.
pub fn of_last_left(alloc: Global, bytes: &[u8]) -> Result<String, AllocError> {
    let (system, names) = match read_system(alloc, bytes) {
        Ok(found) => found,
        Err(error) => return refusal(alloc, &error),
    };
    let rules = system.rules();
    let Some(rule) = rules.last() else {
        return String::from_str(alloc, "no rules");
    };
    if !fits(&rule.left) {
        return String::from_str(alloc, "too large");
    }
    let number = u32::try_from(rules.len()).unwrap_or(0);
    let mut out = Vec::from_slice(alloc, b"> ")?;
    match write_term(alloc, &names, number, &rule.left, &mut out) {
        Ok(()) => on_one_line(alloc, &out),
        Err(_) => String::from_str(alloc, "no memory"),
    }
}

/// The text with `\n` in place of each line end.
pub fn on_one_line(alloc: Global, text: &[u8]) -> Result<String, AllocError> {
    let mut out = String::new(alloc);
    for (i, line) in std::str::from_utf8(text)
        .unwrap_or("?")
        .split('\n')
        .enumerate()
    {
        if i > 0 {
            out.push_str("\\n")?;
        }
        out.push_str(line)?;
    }
    Ok(out)
}
