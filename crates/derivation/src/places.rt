//! Terms with their numbers of nodes: taking out the subterm at a position, and putting another in its place within the limits.
ghost use Rattle.std.specs.Prelude.{◌≡◌, Some, None, IsSome, IfSome, IfNone};
ghost use Rattle.rewriting.specs.Terms as math;
ghost use Rattle.rewriting.specs.Positions as position;
ghost use Rattle.term_core.specs.View.{view};
ghost use Rattle.derivation.specs.Judged.{IsCounted, IsOpened, HasSizeAt};

use std::mem;
use term_core::{MAX_DEPTH, MAX_NODES, Term, room_after, size, subterm};

// A term, and the number of its nodes.
#[derive(Debug, Drop)]
pub struct Counted {
    pub term: Term,
    pub nodes: u32,
}

// Puts another term at a position; what stood there.
fn exchange(t: &mut Term, p: &[u32], part: Term) -> Term
    requires there { IsSome (position.subterm (view t.old) p.now) }
    ensures was { position.subterm (view t.old) p.now ≡ Some (view result) }
    ensures put { position.replace (view t.old) p.now (view part) ≡ Some (view t.new) }
{
    let Some((k, rest)) = p.split_first() else {
        return mem::replace(t, part);
    };
    match mem::replace(t, Term::Var(0)) {
        Term::Var(_) => part,
        Term::Fun(f, mut args) => {
            let was = exchange(&mut args[*k as usize - 1], rest, part);
            *t = Term::Fun(f, args);
            was
        }
    }
}

// A term that was taken out, and the whole with a variable in its place.
#[derive(Drop)]
pub struct Opened {
    pub part: Term,
    pub rest: Counted,
}

// Takes out what stands at a position.
pub fn open_at(t: Counted, p: &[u32]) -> Option<Opened>
    requires { IsCounted t }
    ensures some { IfSome result (λ o. IsOpened (view t.term) p.now o) }
    ensures none { IfNone result (position.subterm (view t.term) p.now ≡ None) }
{
    let was = size(subterm(&t.term, p)?);
    let mut term = t.term;
    let part = exchange(&mut term, p, Term::Var(0));
    let nodes = t.nodes - was + 1;
    Some(Opened {
        part,
        rest: Counted { term, nodes },
    })
}

// The term with another one at a position, where that has some nodes now; none where it would not fit.
pub fn replaced(t: Counted, p: &[u32], was: u32, part: Term) -> Option<Counted>
    requires counted { IsCounted t }
    requires there { HasSizeAt (view t.term) p.now was }
    ensures some { IfSome result (λ u. (position.replace (view t.term) p.now (view part) ≡ Some (view u.term)) × IsCounted u) }
    ensures none { IfNone result ((v : math.Term) → position.replace (view t.term) p.now (view part) ≡ Some v → math.Fits v → ⊥) }
{
    let room = MAX_NODES - (t.nodes - was);
    let levels = MAX_DEPTH - p.len() as u32;
    let left = room_after(&part, room, levels)?;
    let nodes = MAX_NODES - left;
    let mut term = t.term;
    let _gone = exchange(&mut term, p, part);
    Some(Counted { term, nodes })
}
