//! The parts before the rules: the format and the functions.
ghost use Rattle.std.specs.Prelude.{◌≡◌, ◌∷◌, ◌≤◌, OnOk, IfOk, codes, decimal, length};
ghost use Rattle.ari_text.specs.Signs.{opening, name as name_sign};
ghost use Rattle.ari_text.specs.Grammar.{IsBehindMetas, format_signs};
ghost use Rattle.ari_text.specs.Reads.{IsFunctionRead};
ghost use Rattle.ari_text.specs.Texts.{type_of};

use crate::errors::AriError;
use crate::reader::{Reader, is};
use crate::scope::{Scope, arity_of};
use crate::words::Word;
use cops_syntax::{ConditionType, Name};
use std::alloc::Global;

// The formats whose systems have a text.
#[derive(Clone, Copy, PartialEq, Eq)]
pub(crate) enum Format {
    Plain,
    Oriented,
    Join,
}

impl Format {
    // The condition type of the rules, which are read as oriented ones.
    pub(crate) fn condition_type(self) -> Option<ConditionType>
        ensures { result ≡ type_of self }
    {
        match self {
            Format::Plain => None,
            Format::Oriented | Format::Join => Some(ConditionType::Oriented),
        }
    }
}

// The condition type of a format.
fn read_type(reader: &mut Reader<'_>) -> Result<Format, AriError>
    ensures word { IfOk result (λ format. name_sign (codes "CTRS") ∷ reader.old ≡ format_signs format reader.new) }
    ensures onward { length reader.new ≤ length reader.old }
{
    let kind = reader.name()?;
    if is(kind, "oriented") {
        reader.close()?;
        Ok(Format::Oriented)
    } else if is(kind, "join") {
        reader.close()?;
        Ok(Format::Join)
    } else {
        Err(AriError::ConditionTypeOther { at: kind.at })
    }
}

// The format behind its key word.
fn read_format_name(reader: &mut Reader<'_>) -> Result<Format, AriError>
    ensures word { IfOk result (λ format. reader.old ≡ format_signs format reader.new) }
    ensures onward { length reader.new ≤ length reader.old }
{
    let name = reader.name()?;
    if is(name, "TRS") {
        reader.close()?;
        Ok(Format::Plain)
    } else if is(name, "CTRS") {
        read_type(reader)
    } else {
        Err(AriError::FormatOther { at: name.at })
    }
}

// The format, which is the first part.
pub(crate) fn read_format(reader: &mut Reader<'_>) -> Result<Format, AriError>
    ensures { IfOk result (λ format. IsBehindMetas reader.old (opening ∷ name_sign (codes "format") ∷ format_signs format reader.new)) }
{
    let Some(key) = reader.key()? else {
        return Err(AriError::MissingFormat { at: reader.end() });
    };
    if is(key, "format") {
        read_format_name(reader)
    } else {
        Err(AriError::MissingFormat { at: key.at })
    }
}

// How many arguments a function has, behind its name.
fn read_arity(reader: &mut Reader<'_>) -> Result<u32, AriError>
    ensures word { IfOk result (λ n. reader.old ≡ name_sign (decimal n) ∷ reader.new) }
    ensures onward { length reader.new ≤ length reader.old }
{
    match reader.next() {
        Some(Word::Id(number)) => arity_of(number),
        Some(Word::Open(at)) => Err(AriError::Sorts { at }),
        other => Err(reader.unexpected(other)),
    }
}

// Declares a function behind its key word.
pub(crate) fn read_function<'a>(
    alloc: Global,
    reader: &mut Reader<'a>,
    scope: &mut Scope<'a>,
) -> Result<(), AriError>
    ensures function { OnOk result (IsFunctionRead reader.old reader.new scope.old.functions scope.new.functions) }
    ensures onward { length reader.new ≤ length reader.old }
{
    let name = reader.name()?;
    scope.check_new(name)?;
    let arity = read_arity(reader)?;
    reader.close()?;
    let added = scope
        .functions
        .add_symbol(String::from_str(alloc, name.text)?, arity)?;
    if !added {
        return Err(AriError::DeclaredTwice { at: name.at });
    }
    Ok(())
}

// What a part calls for that may not stand where it does, by its key word.
pub(crate) fn other_part(key: Name<'_>) -> AriError {
    let at = key.at;
    match key.text {
        "fun" => AriError::LateFunction { at },
        "format" => AriError::RepeatedFormat { at },
        "sort" => AriError::Sorts { at },
        "theory" | "define-fun" => AriError::Theory { at },
        _ => AriError::UnknownItem { at },
    }
}
