//! Terms.

ghost use Rattle.std.specs.Prelude.{◌≡◌, ◌≤◌, ◌<◌, ◌+◌, ◌++◌, ℕ, suc, true, List, [], ◌∷◌, None, length, codes};
ghost use Rattle.cert_reading.specs.Prelude.{NameTable, name_of, meets, has_arity, fixed, behind, Frame, Reads};
ghost use Rattle.rewriting.specs.Prelude.{size, size_all};
ghost use Rattle.term_core.specs.Prelude.{view, views};
ghost use Rattle.cert_reading.specs.Arguments.{argument_end, behind_argument};
ghost use Rattle.cert_words.specs.Nodes.{inner_marks};
ghost use Rattle.cert_grammar.specs.WordMarks as marks;
ghost use Rattle.cert_grammar.specs.Items as spec;

use cert_words::{
    Next, Node, Reading, checked, closed_or, either, has_so_many, next_node, opened, opened_or,
    put, text,
};
use cops_names::Names;
use std::alloc::Global;
use term_core::{MAX_DEPTH, MAX_NODES, Term};

// The comma or the bracket behind a symbol with so many arguments; whether it is a comma.
fn argument_closed(end: usize, at: &mut Reading, met: bool) -> bool
    ensures { (names : NameTable) (f k n : ℕ) (g : Frame) (fs : List Frame) → meets names (has_arity (name_of names f) k) ≡ met → Reads names end (spec.term_closed n (name_of names f) k (g ∷ fs) ∷ []) (λ u. behind (has_arity (u f) k) ∷ argument_end result ∷ []) (behind_argument result n g fs ∷ []) at.old at.new }
{
    if closed_or(end, at, met) {
        text(end, at, b",");
        return true;
    }
    text(end, at, b")");
    false
}

// A symbol's argument at a depth, from this node on, with the comma or the bracket behind it; whether that is a
// comma, and the number of the next node.
#[cycle(argument)]
fn argument(
    alloc: Global,
    names: &Names,
    end: usize,
    at: &mut Reading,
    depth: usize,
    n: usize,
) -> (Term, bool, usize)
    requires inner { 2 ≤ depth }
    requires deep { depth ≤ MAX_DEPTH + 1 }
    requires many { n ≤ MAX_NODES + 1 }
    ensures read { (f : Frame) (fs : List Frame) → suc (suc (length fs)) ≡ depth → Reads names.now end (spec.node n (f ∷ fs) ∷ []) (λ u. marks.term_marks u depth n (view result.0) ++ (argument_end result.1 ∷ [])) (behind_argument result.1 result.2 f fs ∷ []) at.old at.new }
    ensures counted { at.new.refused ≡ None → result.2 ≡ n + size (view result.0) }
    ensures many { result.2 ≤ MAX_NODES + 1 }
    ensures more { result.1 ≡ true → n < result.2 }
    ensures low { n ≤ result.2 }
{
    let node = next_node(names, end, at, depth, n);
    if at.refused.is_some() {
        return (Term::Var(0), false, n);
    }
    match node {
        Node::Variable(x) => {
            let comma = either(end, at, b",", b")");
            (Term::Var(x), comma, n + 1)
        }
        Node::Symbol(f) => match opened_or(end, at, has_so_many(names, f, 0)) {
            Next::Comma => {
                text(end, at, b",");
                (Term::Fun(f, Vec::new(alloc)), true, n + 1)
            }
            Next::Close => {
                text(end, at, b")");
                (Term::Fun(f, Vec::new(alloc)), false, n + 1)
            }
            Next::Open => {
                let (args, next) = arguments(alloc, names, end, at, depth + 1, n + 1);
                let comma = argument_closed(end, at, has_so_many(names, f, args.len()));
                (Term::Fun(f, args), comma, next)
            }
        },
    }
}

// The arguments behind a symbol's bracket, up to the other, and the number of the next node.
#[cycle(argument)]
fn arguments(
    alloc: Global,
    names: &Names,
    end: usize,
    at: &mut Reading,
    depth: usize,
    n: usize,
) -> (Vec<Term>, usize)
    requires inner { 2 ≤ depth }
    requires deep { depth ≤ MAX_DEPTH + 1 }
    requires many { n ≤ MAX_NODES + 1 }
    ensures read { (name : List ℕ) (fs : List Frame) → suc (suc (length fs)) ≡ depth → Reads names.now end (spec.node n (record { name = name; argument = 1 } ∷ fs) ∷ []) (λ u. inner_marks u depth n (views result.0.items)) (spec.term_closed result.1 name (length result.0.items) fs ∷ []) at.old at.new }
    ensures counted { at.new.refused ≡ None → result.1 ≡ n + size_all (views result.0.items) }
    ensures some { at.new.refused ≡ None → 0 < length result.0.items }
    ensures many { result.1 ≤ MAX_NODES + 1 }
    ensures low { n ≤ result.1 }
{
    let mut args = Vec::new(alloc);
    let mut next = n;
    let mut more = true;
    'arguments: while more {
        let (arg, comma, behind) = argument(alloc, names, end, at, depth, next);
        put(at, &mut args, arg);
        next = behind;
        more = comma;
    }
    (args, next)
}

/// The term on the start's line, and the line's end.
pub fn start_term(alloc: Global, names: &Names, end: usize, at: &mut Reading) -> Term
    ensures { Reads names.now end (spec.node 1 [] ∷ []) (λ u. marks.term_marks u 1 1 (view result) ++ (fixed (codes "\n") ∷ [])) [] at.old at.new }
{
    let node = next_node(names, end, at, 1, 1);
    if at.refused.is_some() {
        return Term::Var(0);
    }
    match node {
        Node::Variable(x) => {
            text(end, at, b"\n");
            Term::Var(x)
        }
        Node::Symbol(f) => {
            if !opened(end, at, b"(", b'\n', has_so_many(names, f, 0)) {
                text(end, at, b"\n");
                return Term::Fun(f, Vec::new(alloc));
            }
            let (args, _) = arguments(alloc, names, end, at, 2, 2);
            checked(end, at, b'\n', has_so_many(names, f, args.len()));
            text(end, at, b"\n");
            Term::Fun(f, args)
        }
    }
}
