//! What is known while parts are read: the functions that are declared, and the variables.
ghost use Rattle.std.specs.Prelude.{◌≡◌, ◌<◌, [], OnOk, IfOk, decimal, length};
ghost use Rattle.std.specs.Bool.{OnTrue};
ghost use Rattle.cops_syntax.specs.View.{names_view};
ghost use Rattle.ari_text.specs.Functions.{arity_of, AreUndeclared, AreDeclared};

use crate::errors::AriError;
use cops_names::Names;
use cops_read::{Count, MOST_SYMBOLS};
use cops_syntax::Name;
use itoa::Buffer;
use std::alloc::Global;

// The functions with their numbers of arguments, and each use of a variable.
#[derive(Drop)]
pub(crate) struct Scope<'a> {
    pub(crate) functions: Names,
    pub(crate) variables: Vec<Name<'a>>,
}

// Whether this is the decimal text of the number.
fn is_decimal(text: &str, number: u32) -> bool
    ensures { OnTrue result (text.now ≡ decimal number) }
{
    let mut buffer = Buffer::new();
    text == buffer.format(number)
}

// The number of arguments that a function may have, from its text.
pub(crate) fn arity_of(number: Name<'_>) -> Result<u32, AriError>
    ensures { IfOk result (λ n. number.entry.text.now ≡ decimal n) }
{
    'arities: for arity in 0..=Count::Arity.limit() {
        if is_decimal(number.text, arity) {
            return Ok(arity);
        }
    }
    Err(AriError::BadNumber { at: number.at })
}

// How many arguments the function with a name has, if there is one.
fn arity_in(functions: &Names, name: &str) -> Option<u32>
    ensures { result ≡ arity_of functions.now.symbols name.now }
{
    let number = functions.symbol_number(name)?;
    functions.arity(number)
}

// Refuses a variable that is a function, which none is.
pub(crate) fn check_variables(functions: &Names, variables: &[Name<'_>]) -> Result<(), AriError>
    ensures { OnOk result (AreUndeclared functions.now.symbols (names_view variables.now)) }
{
    'variables: for i in 0..variables.len() {
        let Some(name) = variables.get(i) else {
            return Ok(());
        };
        if arity_in(functions, name.text).is_some() {
            return Err(AriError::Undeclared { at: name.at });
        }
    }
    Ok(())
}

// Refuses a symbol that is no function with as many arguments, which each is.
pub(crate) fn check_symbols(functions: &Names, names: &Names) -> Result<(), AriError>
    ensures { OnOk result (AreDeclared functions.now.symbols names.now.symbols) }
{
    'symbols: for n in 0..names.symbol_count() {
        let (Some(name), Some(arity)) = (names.symbol_name(n), names.arity(n)) else {
            return Err(AriError::Undeclared { at: 0 });
        };
        let Some(found) = arity_in(functions, name) else {
            return Err(AriError::Undeclared { at: 0 });
        };
        if found != arity {
            return Err(AriError::Undeclared { at: 0 });
        }
    }
    Ok(())
}

impl<'a> Scope<'a> {
    // No function and no variable.
    pub(crate) fn new(alloc: Global) -> Self
        ensures { result.functions.symbols ≡ [] }
    {
        Scope {
            functions: Names::new(alloc),
            variables: Vec::new(alloc),
        }
    }

    // How many arguments the function has, if it is one.
    pub(crate) fn arity(&self, name: &str) -> Option<u32> {
        arity_in(&self.functions, name)
    }

    // Refuses the name of one more function where it is not new, or there are too many.
    pub(crate) fn check_new(&self, name: Name<'a>) -> Result<(), AriError>
        ensures { OnOk result (length self.now.functions.symbols < MOST_SYMBOLS) }
    {
        let what = Count::Symbols;
        let limit = what.limit();
        let at = name.at;
        if self.functions.symbol_number(name.text).is_some() {
            return Err(AriError::DeclaredTwice { at });
        }
        if self.functions.symbol_count() >= limit {
            return Err(AriError::TooMany { what, limit, at });
        }
        Ok(())
    }
}
