//! Values that no text gives.
use crate::answers::on_one_line;
use cops_read::Names;
use cops_write::write_system;
use std::alloc::{AllocError, Global};
use term_core::{NoMemory, System};

// A symbol, and another of its name.
fn twice(alloc: Global) -> Result<(bool, bool), NoMemory> {
    let mut names = Names::new(alloc);
    let first = names.add_symbol(String::from_str(alloc, "f")?, 2)?;
    let again = names.add_symbol(String::from_str(alloc, "f")?, 1)?;
    Ok((first, again))
}

/// Whether a symbol is added, and another one of its name.
pub fn added(alloc: Global) -> Result<String, AllocError> {
    match twice(alloc) {
        Ok((first, again)) => format!(in alloc; "{first}, {again}"),
        Err(_) => String::from_str(alloc, "no memory"),
    }
}

// A symbol and no rule.
fn unused(alloc: Global) -> Result<Vec<u8>, NoMemory> {
    let mut out = Vec::from_slice(alloc, b"> ")?;
    let mut names = Names::new(alloc);
    names.add_symbol(String::from_str(alloc, "f")?, 1)?;
    if let Ok(system) = System::make(vec![in alloc; 1]?, Vec::new(alloc)) {
        write_system(alloc, &names, &system, &mut out)?;
    }
    Ok(out)
}

/// What is written of a system with a symbol that no rule uses.
pub fn without_rules(alloc: Global) -> Result<String, AllocError> {
    match unused(alloc) {
        Ok(text) => on_one_line(alloc, &text),
        Err(_) => String::from_str(alloc, "no memory"),
    }
}
