//! The system of a line.
use crate::lines::expanded;
use cops_read::{Names, read_system};
use std::alloc::{AllocError, Global};
use term_core::System;

/// The system with its names, or none where the text is no file.
pub fn file_of(alloc: Global, text: &str) -> Result<Option<(System, Names)>, AllocError> {
    let whole = expanded(alloc, text)?;
    match read_system(alloc, whole.as_bytes()) {
        Ok((sys, names)) => Ok(Some((sys, names))),
        Err(_) => Ok(None),
    }
}
