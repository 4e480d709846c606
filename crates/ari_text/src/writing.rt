//! The text of the system.
ghost use Rattle.std.specs.Prelude.{OnOk, IfOk};
ghost use Rattle.cops_names.specs.NameTable.{NameTable};
ghost use Rattle.cops_read.specs.File.{IsFile, IsSystemOf};
ghost use Rattle.file_text.specs.Syntax.{FileTree};
ghost use Rattle.join_systems.specs.Joined.{joined};
ghost use Rattle.ari_text.specs.Texts.{IsTyped, IsRetyped, IsTextOf};

use crate::errors::AriError;
use crate::heads::Format;
use crate::same::is_same;
use cops_names::Names;
use cops_read::read_system;
use cops_write::write_system;
use std::alloc::Global;
use term_core::{System, join_sound};

// Whether the text begins with the condition type of oriented rules.
fn is_typed(text: &[u8]) -> bool
    ensures { IsTyped text.now result }
{
    text.starts_with(b"(CONDITIONTYPE ORIENTED)\n")
}

// That a text is one of the join system of these rules, which it is.
fn check_join(alloc: Global, text: &[u8], list: System) -> Result<(), AriError>
    requires { (tree : FileTree) × (names : NameTable) × IsSystemOf tree list names }
    ensures { OnOk result ((names : NameTable) × IsFile text.now (joined list) names) }
{
    let (read, _names) = read_system(alloc, text)?;
    let system = join_sound(alloc, list)?;
    if !is_same(&read, &system) {
        return Err(AriError::Syntax { at: 0 });
    }
    Ok(())
}

// The text with the condition type of join rules, if it has one.
fn with_join(alloc: Global, text: &[u8], list: System) -> Result<Vec<u8>, AriError>
    requires { (tree : FileTree) × (names : NameTable) × IsSystemOf tree list names }
    ensures { IfOk result (λ out. IsRetyped list text.now out.items) }
{
    let mut out = Vec::new(alloc);
    if is_typed(text) {
        let (_, rest) = text.split_at(25);
        out.extend_from_slice(b"(CONDITIONTYPE JOIN)\n")?;
        out.extend_from_slice(rest)?;
        check_join(alloc, &out, list)?;
        return Ok(out);
    }
    out.extend_from_slice(text)?;
    Ok(out)
}

// The text of the rules, whose conditions are those of the format.
pub(crate) fn write_text(
    alloc: Global,
    format: Format,
    sys: System,
    names: &Names,
) -> Result<Vec<u8>, AriError>
    requires { (tree : FileTree) × IsSystemOf tree sys names.now }
    ensures { IfOk result (λ text. IsTextOf format names.now sys text.items) }
{
    let mut text = Vec::new(alloc);
    write_system(alloc, names, &sys, &mut text)?;
    match format {
        Format::Plain => Ok(text),
        Format::Oriented => Ok(text),
        Format::Join => with_join(alloc, &text, sys),
    }
}
