//! Laying a term out as a chain of cells, and reading a term off such a chain.
ghost use Rattle.std.specs.Prelude.{◌≡◌, ◌+◌, ◌<◌, ◌≤◌, [], IfOk, length};
ghost use Rattle.rewriting.specs.Terms as math;
ghost use Rattle.term_core.specs.View.{view};
ghost use Rattle.flatterm.specs.Cells.{IsAt};
ghost use Rattle.flatterm.specs.Marks.{ReadsOne};
ghost use Rattle.flatterm.specs.Laid.{Laid, IsOpenAt, BeginsAt, IsWhole};

use crate::lone::LoneCell;
use crate::{Body, Cell, Chain, Node};
use cc_count::ProofCount;
use std::alloc::{AllocError, Global};
use std::ptr;
use term_core::{MAX_NODES, NoMemory, Term};

// A cell that leads nowhere yet.
fn unlinked(cell: Option<Cell>) -> Node
    ensures { result.body.cell ≡ cell }
{
    Node {
        next: ptr::null_mut(),
        last: true,
        prev: ptr::null_mut(),
        body: Body {
            end: ptr::null_mut(),
            cell,
        },
    }
}

// A subterm's first cell and its end, with nothing inside.
fn opened(alloc: Global, cell: Cell) -> Result<Chain, AllocError>
    ensures { IfOk result (λ c. (c.place ≡ 0) × IsOpenAt cell [] c.items) }
{
    let begin = Box::new(alloc, unlinked(Some(cell)))?;
    let end = Box::new(alloc, unlinked(None))?;
    Ok(Chain::start(LoneCell::from_box(begin), LoneCell::from_box(end)))
}

// The cells of a term, which is gone through once.
pub(crate) fn laid(alloc: Global, t: &Term) -> Result<Chain, NoMemory>
    requires { math.size (view t.now) ≤ MAX_NODES }
    ensures { IfOk result (λ c. (c.place ≡ 0) × Laid (view t.now) c.items) }
{
    match t {
        Term::Var(x) => Ok(opened(alloc, Cell::Var(*x))?),
        Term::Fun(f, args) => {
            let mut out = opened(alloc, Cell::Fun(*f, args.len() as u32))?;
            for arg in args {
                out.append(laid(alloc, arg)?);
            }
            Ok(out)
        }
    }
}

// A cell, by where it lies. The index is for the proof alone.
#[derive(Drop)]
pub(crate) struct Mark {
    at: *mut Node,
    index: ProofCount,
}

// Goes to the next cell.
fn go_on(chain: &Chain, mark: &mut Mark)
    requires { IsAt chain.now.items mark.old.index.number mark.old.at × (mark.old.index.number + 1 < length chain.now.items) }
    ensures { (mark.new.index.number ≡ mark.old.index.number + 1) × IsAt chain.now.items mark.new.index.number mark.new.at }
{
    let here = chain.look(mark.at, &mark.index);
    let next = here.next;
    mark.at = next;
    mark.index = mark.index.next();
}

// The subterm that begins at a mark, which goes to the subterm's end: behind the last end there is no cell to go to.
fn subterm_at(alloc: Global, chain: &Chain, mark: &mut Mark) -> Result<Term, NoMemory>
    requires { IsAt chain.now.items mark.old.index.number mark.old.at × BeginsAt chain.now.items mark.old.index.number }
    ensures { IfOk result (λ t. ReadsOne chain.now.items mark.old.index.number (view t) mark.new.index.number mark.new.at) }
{
    let here = chain.look(mark.at, &mark.index);
    go_on(chain, mark);
    match here.body.cell {
        Some(cell) => match cell {
            Cell::Fun(f, n) => {
                let mut args = Vec::with_capacity(alloc, n as usize)?;
                'each: while args.len() < n as usize {
                    args.push(subterm_at(alloc, chain, mark)?)?;
                    go_on(chain, mark);
                }
                Ok(Term::Fun(f, args))
            }
            Cell::Var(x) => Ok(Term::Var(x)),
        },
        // No subterm begins with an end.
        None => Ok(Term::Var(0)),
    }
}

// The term whose cells these are.
pub(crate) fn term_of(alloc: Global, chain: &Chain) -> Result<Term, NoMemory>
    requires { IsWhole chain.now.items }
    ensures { IfOk result (λ t. Laid (view t) chain.now.items) }
{
    let mut mark = Mark {
        at: chain.begin(),
        index: ProofCount::new(),
    };
    Ok(subterm_at(alloc, chain, &mut mark)?)
}
