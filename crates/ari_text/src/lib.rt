//! Problems in the ARI format of the confluence competition, written as the same systems in the text of `cops_read`.
#![tactic(auto)]

mod errors;
mod heads;
mod reader;
mod rules;
mod same;
mod scope;
mod terms;
mod words;
mod writing;

ghost use Rattle.std.specs.Prelude.{IfOk};
ghost use Rattle.ari_text.specs.Texts.{IsWritten};

use crate::heads::read_format;
use crate::reader::Reader;
use crate::rules::read_parts;
use crate::scope::{Scope, check_symbols, check_variables};
use crate::words::read_words;
use crate::writing::write_text;
pub use cops_read::Count;
use cops_read::read_file;
use cops_syntax::FileText;
pub use errors::AriError;
use std::alloc::Global;

/// The system of a problem in the ARI format, in the text that `cops_read` reads; or why there is none, and where.
pub fn ari_to_cops(alloc: Global, bytes: &[u8]) -> Result<Vec<u8>, AriError>
    ensures { IfOk result (λ text. IsWritten bytes.now text.items) }
{
    let mut reader = Reader::new(read_words(alloc, bytes)?, bytes.len());
    let format = read_format(&mut reader)?;
    let mut scope = Scope::new(alloc);
    let rules = read_parts(alloc, &mut reader, &mut scope)?;
    check_variables(&scope.functions, &scope.variables)?;
    let file = FileText {
        condition_type: format.condition_type(),
        variables: scope.variables,
        rules,
    };
    let (sys, names) = read_file(alloc, file)?;
    check_symbols(&scope.functions, &names)?;
    let text = write_text(alloc, format, sys, &names)?;
    Ok(text)
}
