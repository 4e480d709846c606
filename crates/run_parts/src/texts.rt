//! What is said where nothing can be answered.
ghost use Rattle.std.specs.Prelude.{◌≡◌, IfOk};
ghost use Rattle.run_parts.specs.Texts.{no_memory_text, read_fault_text};

use std::alloc::{AllocError, Global};

/// That memory was refused.
pub fn no_memory_text() -> &'static [u8]
    ensures { result.now ≡ no_memory_text }
{
    b"no memory\n"
}

/// That a file was not read.
pub fn read_fault_text(alloc: Global, name: &str) -> Result<Vec<u8>, AllocError>
    ensures { IfOk result (λ text. text.items ≡ read_fault_text name.now) }
{
    let mut text = Vec::from_slice(alloc, name.as_bytes())?;
    text.extend_from_slice(b": read fault\n")?;
    Ok(text)
}
