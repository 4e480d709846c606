//! Terms from flat lists of identifiers: each symbol takes as many arguments as stand in its brackets.
ghost use Rattle.std.specs.Prelude.{◌≡◌, ◌+◌, ◌<◌, ◌≤◌, ◌^◌, ◌++◌, ℕ, List, Option, OnOk, drop, length, map};
ghost use Rattle.file_text.specs.Syntax as syntax;
ghost use Rattle.cops_read.specs.Bounds.{most_variables, most_levels};
ghost use Rattle.cops_read.specs.Uses.{Use};
ghost use Rattle.cops_read.specs.Heads.{side_at, used_at};
ghost use Rattle.cops_read.specs.Texts.{IsTermThere, AreTermsThere};
ghost use Rattle.cops_read.specs.Walks.{HeadAnswers, TermAnswers, ArgumentsAnswers, GoesOn};

use crate::heads::{NodePlace, VariableOrSymbol};
use std::alloc::Global;
use term_core::Term;

/// What tells the variable or the symbol that an identifier means, and keeps the names so far.
pub trait HeadReader {
    /// An identifier.
    type Node;
    /// Why identifiers mean nothing.
    type Error: Drop;

    ghost Cause: { Type 0 };

    /// What stays as it is.
    ghost Kept: { Type 0 };

    ghost node_of: { Self.Node → syntax.Node };

    ghost kept: { Self → Self.Kept };

    /// The names that are variables.
    ghost block: { Self.Kept → List (List ℕ) };

    /// The symbols so far, each with its arity.
    ghost symbols: { Self → List (List ℕ × ℕ) };

    /// The variables so far.
    ghost variables: { Self → List (List ℕ) };

    /// The cause at an identifier, with the symbols and the variables before it.
    ghost cause: { Self.Kept → List (List ℕ × ℕ) → List (List ℕ) → Use → Option Self.Cause };

    /// The error tells a cause and a place, or want of memory.
    ghost tells: { Self.Error → Option (Self.Cause × ℕ) → Type 0 };

    /// The variable or the symbol that stands at a place.
    fn read_head(
        &mut self,
        alloc: Global,
        node: &Self::Node,
        place: NodePlace,
    ) -> Result<VariableOrSymbol, Self::Error>
        requires place { place.before + 1 < 2 ^ 64 }
        requires few { length (variables self.old) ≤ most_variables }
        ensures head { HeadAnswers (cause (kept self.old)) (block (kept self.old)) tells (symbols self.old) (variables self.old) (used_at place (Self.node_of node.now)) (symbols self.new) (variables self.new) result }
        ensures deep { OnOk result (place.depth ≤ most_levels) }
        ensures few { OnOk result (length (variables self.new) ≤ most_variables) }
        ensures kept { kept self.new ≡ kept self.old };

    /// How many arguments an identifier has.
    fn arguments(node: &Self::Node) -> usize
        ensures { result ≡ (Self.node_of node.now).arguments };

    /// The error for want of memory.
    fn no_memory() -> Self::Error
        ensures { (refusal : Option (Self.Cause × ℕ)) → tells result refusal };

    /// What is told of a part is told of the whole.
    ghost goes_on: { GoesOn tells };
}

// The term that begins at a place of the list of identifiers, and how many identifiers stand before
// its end.
#[cycle(term)]
pub(crate) fn read_term<H: HeadReader>(
    alloc: Global,
    reader: &mut H,
    nodes: &[H::Node],
    place: NodePlace,
) -> Result<(Term, usize), H::Error>
    requires there { IsTermThere H.node_of nodes.now place.before }
    requires few { length (H.variables reader.old) ≤ most_variables }
    ensures term { (p : syntax.Phrase) (rest : List syntax.Node) → map H.node_of (drop place.before nodes.now) ≡ syntax.flat p ++ rest → TermAnswers (H.cause (H.kept reader.old)) (H.block (H.kept reader.old)) H.tells (H.symbols reader.old) (H.variables reader.old) (side_at place) place.depth place.argument place.before p (H.symbols reader.new) (H.variables reader.new) result }
    ensures few { OnOk result (length (H.variables reader.new) ≤ most_variables) }
    ensures kept { H.kept reader.new ≡ H.kept reader.old }
{
    let Some(node) = nodes.get(place.before) else {
        unreachable!();
    };
    match reader.read_head(alloc, node, place)? {
        VariableOrSymbol::Variable(number) => Ok((Term::Var(number), place.before + 1)),
        VariableOrSymbol::Symbol(number) => {
            let first = NodePlace {
                depth: place.depth + 1,
                argument: 1,
                before: place.before + 1,
                ..place
            };
            let count = H::arguments(node);
            let (terms, next) = read_arguments(alloc, reader, nodes, first, count)?;
            Ok((Term::Fun(number, terms), next))
        }
    }
}

// So many terms, of which the first begins at a place, and how many identifiers stand before their end.
#[cycle(term)]
fn read_arguments<H: HeadReader>(
    alloc: Global,
    reader: &mut H,
    nodes: &[H::Node],
    first: NodePlace,
    count: usize,
) -> Result<(Vec<Term>, usize), H::Error>
    requires there { AreTermsThere H.node_of nodes.now first.before count }
    requires few { length (H.variables reader.old) ≤ most_variables }
    ensures few { OnOk result (length (H.variables reader.new) ≤ most_variables) }
    ensures terms { (ps : syntax.Phrases) (rest : List syntax.Node) → count ≡ syntax.count ps → map H.node_of (drop first.before nodes.now) ≡ syntax.flat_all ps ++ rest → ArgumentsAnswers (H.cause (H.kept reader.old)) (H.block (H.kept reader.old)) H.tells (H.symbols reader.old) (H.variables reader.old) (side_at first) first.depth first.before ps (H.symbols reader.new) (H.variables reader.new) result }
    ensures kept { H.kept reader.new ≡ H.kept reader.old }
{
    let Ok(mut terms) = Vec::with_capacity(alloc, count) else {
        return Err(H::no_memory());
    };
    let mut before = first.before;
    'arguments: for argument in 0..count {
        let place = NodePlace {
            argument: argument + 1,
            before,
            ..first
        };
        let (term, next) = read_term(alloc, reader, nodes, place)?;
        if terms.push(term).is_err() {
            return Err(H::no_memory());
        }
        before = next;
    }
    Ok((terms, before))
}
