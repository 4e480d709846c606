//! The parts of a term one after the other, each with its position.
ghost use Rattle.std.specs.Prelude.{◌≡◌, ◌≤◌, ◌++◌, ◌∷◌, [], OnOk, OnErr};
ghost use Rattle.rewriting.specs.Terms.{size};
ghost use Rattle.term_core.specs.View.{view, views};
ghost use Rattle.rule_index.specs.Parts.{walk_of, NextAnswers};
ghost use Rattle.rule_index.specs.Levels.{AreLevels, AreArgumentsOf, Leads, levels_of, later_parts};

use std::alloc::Global;
use std::marker::Model;
use term_core::{MAX_NODES, NoMemory, Term};

// What a walk gives before it goes on beside the part given last.
#[derive(Debug, Drop, Clone, Copy)]
enum Ahead<'a> {
    Whole(&'a Term),
    Arguments(&'a [Term]),
}

/// A walk over the parts of a term in preorder, the whole term first. It holds the position of the part given last, and
/// for each number of it the arguments that follow there.
#[derive(Debug, Drop)]
pub struct PartWalk<'a> {
    ahead: Ahead<'a>,
    path: Vec<u32>,
    later: Vec<&'a [Term]>,
}

impl<'a> Model for PartWalk<'a> {
    ghost use Rattle.rule_index.specs.Parts.{Walk, coded_walk};
    ghost use Rattle.rule_index.specs.WalkView.{walk_view, IsHeld};

    ghost Value = { Walk };

    ghost coded = { coded_walk };

    ghost view = { walk_view };

    ghost invariant = { IsHeld };
}

// The arguments of a part, if there is one.
fn arguments_of<'a>(part: Option<&'a Term>) -> &'a [Term]
    ensures { AreArgumentsOf part.entry result.now }
{
    match part {
        Some(Term::Fun(_, args)) => args,
        _ => &[],
    }
}

// Goes one level deeper, before the first of some arguments.
fn enter<'a>(
    args: &'a [Term],
    path: &mut Vec<u32>,
    later: &mut Vec<&'a [Term]>,
) -> Result<(), NoMemory>
    ensures path { OnOk result (path.new.items ≡ path.old.items ++ 0 ∷ []) }
    ensures later { OnOk result (levels_of later.new.items ≡ levels_of later.old.items ++ views args.now ∷ []) }
    ensures path_stays { OnErr result (path.new.items ≡ path.old.items) }
    ensures later_stays { OnErr result (levels_of later.new.items ≡ levels_of later.old.items) }
{
    path.push(0)?;
    if later.push(args).is_err() {
        path.pop();
        return Err(NoMemory);
    }
    Ok(())
}

// Goes on to the next argument at the deepest level that has one; the levels below are left.
fn next_argument<'a>(path: &mut Vec<u32>, later: &mut Vec<&'a [Term]>) -> Option<&'a Term>
    requires { AreLevels path.old.items (levels_of later.old.items) }
    ensures levels { AreLevels path.new.items (levels_of later.new.items) }
    ensures next { Leads (later_parts [] path.old.items (levels_of later.old.items)) result path.new.items (later_parts [] path.new.items (levels_of later.new.items)) }
{
    'levels: while !later.is_empty() {
        let last = later.len() - 1;
        let rest = later[last];
        if let Some((part, others)) = rest.split_first() {
            later[last] = others;
            path[last] += 1;
            return Some(part);
        }
        later.pop();
        path.pop();
    }
    None
}

impl<'a> PartWalk<'a> {
    /// The walk over a term, before its first part.
    pub fn new(alloc: Global, term: &'a Term) -> PartWalk<'a>
        requires { size (view term.now) ≤ MAX_NODES }
        ensures { result ≡ walk_of (view term.now) }
    {
        PartWalk {
            ahead: Ahead::Whole(term),
            path: Vec::new(alloc),
            later: Vec::new(alloc),
        }
    }

    /// The next part, or none behind the last. After an error the walk stands where it stood.
    pub fn next(&mut self) -> Result<Option<&'a Term>, NoMemory>
        ensures { NextAnswers self.old self.new result }
    {
        let part = match self.ahead {
            Ahead::Whole(term) => Some(term),
            Ahead::Arguments(args) => {
                enter(args, &mut self.path, &mut self.later)?;
                next_argument(&mut self.path, &mut self.later)
            }
        };
        self.ahead = Ahead::Arguments(arguments_of(part));
        Ok(part)
    }

    /// The position of the part given last.
    pub fn position(&self) -> &[u32]
        ensures { result.now ≡ self.now.position }
    {
        &self.path
    }
}
