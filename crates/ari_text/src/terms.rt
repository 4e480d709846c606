//! Terms from words to the list of their names.
ghost use Rattle.std.specs.Prelude.{◌≡◌, ◌∷◌, ◌++◌, [], ◌<◌, ◌≤◌, ◌^◌, OnOk, length};
ghost use Rattle.cops_syntax.specs.View.{name_view, nodes_view};
ghost use Rattle.ari_text.specs.Signs.{opening, closing};
ghost use Rattle.ari_text.specs.Reads.{IsTermRead, IsBarePut};

use crate::errors::AriError;
use crate::reader::Reader;
use crate::scope::Scope;
use crate::words::Word;
use cops_read::MOST_DEPTH;
use cops_syntax::{Name, Node};

// Puts a name without brackets last: a constant or a variable.
fn put_bare<'a>(
    scope: &mut Scope<'a>,
    nodes: &mut Vec<Node<'a>>,
    name: Name<'a>,
) -> Result<(), AriError>
    ensures node { OnOk result (IsBarePut (name_view name.entry) nodes.old.items nodes.new.items) }
    ensures functions { scope.new.functions ≡ scope.old.functions }
{
    match scope.arity(name.text) {
        Some(0) => {}
        Some(_) => return Err(AriError::WrongArity { at: name.at }),
        None => scope.variables.push(name)?,
    }
    nodes.push(Node {
        name,
        brackets: false,
        arguments: 0,
    })?;
    Ok(())
}

// Refuses a name that stands too deep in its term.
fn check_depth(name: Name<'_>, depth: usize) -> Result<(), AriError>
    ensures { OnOk result (depth ≤ MOST_DEPTH) }
{
    if depth > MOST_DEPTH {
        return Err(AriError::TooDeep { at: name.at });
    }
    Ok(())
}

// The bracket behind the last argument of a function.
fn close_call<'a>(reader: &mut Reader<'a>, name: Name<'a>) -> Result<(), AriError>
    ensures word { OnOk result (reader.old ≡ closing ∷ reader.new) }
    ensures onward { length reader.new ≤ length reader.old }
{
    match reader.next() {
        Some(Word::Close(_)) => Ok(()),
        Some(Word::Open(_) | Word::Id(_)) => Err(AriError::WrongArity { at: name.at }),
        other => Err(reader.unexpected(other)),
    }
}

// Reads the term that comes next, which is so deep; its names are put last.
#[cycle(read_term)]
pub(crate) fn read_term<'a>(
    reader: &mut Reader<'a>,
    scope: &mut Scope<'a>,
    nodes: &mut Vec<Node<'a>>,
    depth: usize,
) -> Result<(), AriError>
    ensures term { OnOk result (IsTermRead reader.old reader.new nodes.old.items nodes.new.items) }
    ensures onward { length reader.new ≤ length reader.old }
    ensures functions { scope.new.functions ≡ scope.old.functions }
{
    match reader.next() {
        Some(Word::Id(name)) => {
            check_depth(name, depth)?;
            put_bare(scope, nodes, name)?;
            Ok(())
        }
        Some(Word::Open(_)) => read_call(reader, scope, nodes, depth),
        other => Err(reader.unexpected(other)),
    }
}

// Reads a function with its arguments behind their bracket.
#[cycle(read_term)]
fn read_call<'a>(
    reader: &mut Reader<'a>,
    scope: &mut Scope<'a>,
    nodes: &mut Vec<Node<'a>>,
    depth: usize,
) -> Result<(), AriError>
    ensures term { OnOk result (IsTermRead (opening ∷ reader.old) reader.new nodes.old.items nodes.new.items) }
    ensures onward { length reader.new ≤ length reader.old }
    ensures functions { scope.new.functions ≡ scope.old.functions }
{
    let name = reader.name()?;
    check_depth(name, depth)?;
    let Some(arity) = scope.arity(name.text) else {
        return Err(AriError::Undeclared { at: name.at });
    };
    nodes.push(Node {
        name,
        brackets: true,
        arguments: arity as usize,
    })?;
    'arguments: for _ in 0..arity {
        if reader.closes() {
            return Err(AriError::WrongArity { at: name.at });
        }
        read_term(reader, scope, nodes, depth + 1)?;
    }
    close_call(reader, name)?;
    Ok(())
}
