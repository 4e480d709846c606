//! Nodes of terms, and what stands behind symbols.

ghost use Rattle.std.specs.Prelude.{◌≡◌, ◌≤◌, ◌+◌, ℕ, true, false, List, [], ◌∷◌, None, length, codes, MatchOption};
ghost use Rattle.cops_names.specs.NameTable.{NameTable};
ghost use Rattle.cert_grammar.specs.Prelude.{name_of, meets, verdict, has_arity, fixed, behind, is_node, Item, leads};
ghost use Rattle.cert_grammar.specs.Items as spec;
ghost use Rattle.cert_words.specs.Choices.{IsVerdict};
ghost use Rattle.cert_words.specs.Walks.{Reads};
ghost use Rattle.cert_words.specs.Nodes.{NodeRead, IsFoundNode, IsBarNumber};
ghost use Rattle.cert_words.specs.declared.nodes.Next.TheVariants as next;

use crate::choices::{first, judged, one_of};
use crate::demands::{symbol, value};
use crate::error::{CertCount, CertError};
use crate::leads::Lead;
use crate::reading::Reading;
use crate::words::{place, wrong_arity};
use cops_names::Names;
use term_core::{MAX_DEPTH, MAX_NODES};

/// A node: the number of its symbol, or of its variable.
#[derive(Clone, Copy, Drop)]
pub enum Node {
    Symbol(u32),
    Variable(u32),
}

/// What stands behind a symbol's name.
#[derive(Clone, Copy, Drop)]
pub enum Next {
    Open,
    Comma,
    Close,
}

// why a node may not have this depth and this number
fn missed(depth: usize, n: usize, at: usize) -> Option<CertError>
    ensures refused { (names : NameTable) → IsVerdict names at (is_node depth n) result }
    ensures shallow { result ≡ None → depth ≤ MAX_DEPTH }
    ensures few { result ≡ None → n ≤ MAX_NODES }
{
    if n > MAX_NODES as usize {
        return Some(CertError::TooMany {
            what: CertCount::Nodes,
            at,
        });
    }
    if depth > MAX_DEPTH as usize {
        return Some(CertError::CertTooDeep { at });
    }
    None
}

// the number behind the bar
fn bar_number(word: &[u8]) -> Option<u32>
    ensures { IsBarNumber word.now result }
{
    match word {
        [] => None,
        [_, digits @ ..] => value(digits),
    }
}

/// A node at this depth, the one with this number.
pub fn next_node(names: &Names, end: usize, at: &mut Reading, depth: usize, n: usize) -> Node
    ensures read { (i : Item) (new : List ℕ → List Item) (other : List Item) → leads i ≡ spec.name_lead (is_node depth n) new ∷ spec.variable_lead (is_node depth n) other ∷ [] → NodeRead names.now end i depth n new other at.old at.new result }
    ensures found { at.new.refused ≡ None → IsFoundNode names.now result }
    ensures shallow { at.new.refused ≡ None → depth ≤ MAX_DEPTH }
    ensures few { at.new.refused ≡ None → n ≤ MAX_NODES }
{
    let Some(found) = first(end, at, &[Lead::Name, Lead::Variable]) else {
        return Node::Variable(0);
    };
    if found.which == 0 {
        let Some(f) = symbol(names, found.word) else {
            at.refused = Some(CertError::UnknownName { at: found.here });
            return Node::Variable(0);
        };
        judged(at, found, missed(depth, n, found.here));
        return Node::Symbol(f);
    }
    let Some(x) = bar_number(found.word) else {
        at.refused = Some(CertError::BadNumber { at: found.here + 1 });
        return Node::Variable(0);
    };
    judged(at, found, missed(depth, n, found.here));
    Node::Variable(x)
}

/// A bracket; or none, and a comma or the other bracket comes next, where a symbol has no arguments.
pub fn opened_or(end: usize, at: &mut Reading, met: bool) -> Next
    ensures opened { result ≡ next.Open → (names : NameTable) (f n : ℕ) (i : Item) (new comma close : List Item) → leads i ≡ spec.text (codes "(") new ∷ spec.check (has_arity (name_of names f) n) 44 comma ∷ spec.check (has_arity (name_of names f) n) 41 close ∷ [] → Reads names end (i ∷ []) (λ u. fixed (codes "(") ∷ []) new at.old at.new }
    ensures comma { result ≡ next.Comma → (names : NameTable) (f n : ℕ) (i : Item) (new comma close : List Item) → leads i ≡ spec.text (codes "(") new ∷ spec.check (has_arity (name_of names f) n) 44 comma ∷ spec.check (has_arity (name_of names f) n) 41 close ∷ [] → meets names (has_arity (name_of names f) n) ≡ met → Reads names end (i ∷ []) (λ u. behind (has_arity (u f) n) ∷ []) comma at.old at.new }
    ensures close { result ≡ next.Close → (names : NameTable) (f n : ℕ) (i : Item) (new comma close : List Item) → leads i ≡ spec.text (codes "(") new ∷ spec.check (has_arity (name_of names f) n) 44 comma ∷ spec.check (has_arity (name_of names f) n) 41 close ∷ [] → meets names (has_arity (name_of names f) n) ≡ met → Reads names end (i ∷ []) (λ u. behind (has_arity (u f) n) ∷ []) close at.old at.new }
{
    let leads = [Lead::Text(b"("), Lead::Check(b','), Lead::Check(b')')];
    let Some(found) = first(end, at, &leads) else {
        return Next::Close;
    };
    if found.which == 0 {
        judged(at, found, None);
        return Next::Open;
    }
    judged(at, found, wrong_arity(met, found.here));
    if found.which == 1 {
        Next::Comma
    } else {
        Next::Close
    }
}

/// Whether a comma comes next, or else the bracket, behind a symbol with so many arguments.
pub fn closed_or(end: usize, at: &mut Reading, met: bool) -> bool
    ensures comma { result ≡ true → (names : NameTable) (f n : ℕ) (i : Item) (comma close : List Item) → leads i ≡ spec.check (has_arity (name_of names f) n) 44 comma ∷ spec.check (has_arity (name_of names f) n) 41 close ∷ [] → meets names (has_arity (name_of names f) n) ≡ met → Reads names end (i ∷ []) (λ u. behind (has_arity (u f) n) ∷ []) comma at.old at.new }
    ensures close { result ≡ false → (names : NameTable) (f n : ℕ) (i : Item) (comma close : List Item) → leads i ≡ spec.check (has_arity (name_of names f) n) 44 comma ∷ spec.check (has_arity (name_of names f) n) 41 close ∷ [] → meets names (has_arity (name_of names f) n) ≡ met → Reads names end (i ∷ []) (λ u. behind (has_arity (u f) n) ∷ []) close at.old at.new }
{
    let here = place(end, at.left);
    let (comma, close) = (Lead::Check(b','), Lead::Check(b')'));
    one_of(
        end,
        at,
        comma,
        wrong_arity(met, here),
        close,
        wrong_arity(met, here),
    )
}
