//! The text of a rule's term, with the names of its symbols and variables.
ghost use Rattle.std.specs.Prelude.{◌≡◌, OnOk};
ghost use Rattle.term_core.specs.View.{view, views};
ghost use Rattle.cops_write.specs.Grows.{Grows};
ghost use Rattle.cops_write.specs.Text.{symbol_text, variable_text, term_text, arguments_text};

use cops_names::Names;
use term_core::{NoMemory, Term};

// Puts bytes last.
pub(crate) fn put(out: &mut Vec<u8>, bytes: &[u8]) -> Result<(), NoMemory>
    ensures { OnOk result (Grows out.old.items bytes.now out.new.items) }
{
    out.extend_from_slice(bytes)?;
    Ok(())
}

fn put_symbol(out: &mut Vec<u8>, names: &Names, symbol: u32) -> Result<(), NoMemory>
    ensures { OnOk result (Grows out.old.items (symbol_text names.now symbol) out.new.items) }
{
    put(out, names.symbol_name(symbol).unwrap_or("").as_bytes())
}

// The name of a rule's variable; nothing where there is none.
pub(crate) fn variable_name<'a>(names: &'a Names, rule: u32, x: u32) -> &'a str
    ensures { result.now ≡ variable_text names.now rule x }
{
    names.variable_name(rule, x).unwrap_or("")
}

fn put_variable(out: &mut Vec<u8>, names: &Names, rule: u32, x: u32) -> Result<(), NoMemory>
    ensures { OnOk result (Grows out.old.items (variable_text names.now rule x) out.new.items) }
{
    put(out, variable_name(names, rule, x).as_bytes())
}

// A term of a rule; the recursion goes as deep as the term.
#[cycle(put_term)]
pub(crate) fn put_term(
    out: &mut Vec<u8>,
    names: &Names,
    rule: u32,
    term: &Term,
) -> Result<(), NoMemory>
    ensures { OnOk result (Grows out.old.items (term_text names.now rule (view term.now)) out.new.items) }
{
    match term {
        Term::Var(x) => put_variable(out, names, rule, *x),
        Term::Fun(f, args) => {
            put_symbol(out, names, *f)?;
            put_arguments(out, names, rule, args)
        }
    }
}

// The arguments of a symbol, in brackets if there are any.
#[cycle(put_term)]
fn put_arguments(out: &mut Vec<u8>, names: &Names, rule: u32, args: &[Term]) -> Result<(), NoMemory>
    ensures { OnOk result (Grows out.old.items (arguments_text names.now rule (views args.now)) out.new.items) }
{
    if let [first, rest @ ..] = args {
        put(out, b"(")?;
        put_term(out, names, rule, first)?;
        'further: for arg in rest {
            put(out, b",")?;
            put_term(out, names, rule, arg)?;
        }
        put(out, b")")?;
    }
    Ok(())
}
