//! Substitutions as finite maps from variables to terms, and the instances of terms under them.
ghost use Rattle.std.specs.Prelude.{◌≡◌, ◌+◌, ◌<◌, ◌≤◌, ◌⊎◌, ◌↔◌, ℕ, IfOk, OnOk, OnErr, IfSome, IfNone, IsTrue, option_map};
ghost use Rattle.std.specs.FinMap as map;
ghost use Rattle.rewriting.specs.Terms as math;
ghost use Rattle.rewriting.specs.Prelude.{var, apply, values_of, occurrences};
ghost use Rattle.term_core.specs.View.{view};
ghost use Rattle.term_core.specs.Noting.{Has, Keeps};

use crate::terms::{MAX_DEPTH, MAX_NODES, NoMemory, Term, TermError, room_after, try_clone};
use crate::variables::repeated;
use std::alloc::Global;
use std::collections::{BTreeMap, BTreeSet};
use std::marker::Model;

/// A finite map from variables to terms.
#[derive(Debug, Drop)]
pub struct Subst {
    bound: BTreeMap<u32, Term>,
}

impl Model for Subst {
    ghost use Rattle.rewriting.specs.Prelude.{Bindings, coded_bindings};

    ghost Value = { Bindings };

    ghost coded = { coded_bindings };

    ghost use Rattle.term_core.specs.SubstView.{bindings_of};

    ghost view = { λ s. bindings_of s.bound.entries };
}

impl Subst {
    ghost use Rattle.rewriting.specs.Matching.{Covers};
    ghost use Rattle.term_core.specs.SubstView.{ApplyAnswers};

    /// The empty map, which grows by this allocator.
    pub fn new(alloc: Global) -> Subst
        ensures { result ≡ map.empty }
    {
        Subst {
            bound: BTreeMap::new(alloc),
        }
    }

    /// The value of a variable, where it is bound.
    pub fn get(&self, x: u32) -> Option<&Term>
        ensures { option_map (λ t. view t.now) result ≡ map.get self.now x }
    {
        self.bound.get(&x)
    }

    /// Binds a variable, in place of an earlier value.
    pub fn bind(&mut self, x: u32, t: Term) -> Result<(), NoMemory>
        ensures ok { OnOk result (self.new ≡ map.insert self.old x (view t)) }
        ensures err { OnErr result (self.new ≡ self.old) }
    {
        self.bound.insert(x, t)?;
        Ok(())
    }

    /// Takes the value of a variable away, where it is bound.
    pub fn unbind(&mut self, x: u32)
        ensures { self.new ≡ map.remove self.old x }
    {
        let _value = self.bound.remove(&x);
    }

    /// A copy of the substitution.
    pub fn try_clone(&self, alloc: Global) -> Result<Subst, NoMemory>
        ensures { IfOk result (λ copy. copy ≡ self.now) }
    {
        let mut copy = Subst::new(alloc);
        for (x, t) in &self.bound {
            copy.bind(*x, try_clone(alloc, t)?)?;
        }
        Ok(copy)
    }

    // The room that the instance of a term leaves of a number of nodes, where it has no more nodes and
    // levels than these.
    fn room_after(&self, t: &Term, room: u32, levels: u32) -> Option<u32>
        ensures nodes { IfSome result (λ left. left + math.size (apply (values_of self.now) (view t.now)) ≡ room) }
        ensures levels { IfSome result (λ _. math.depth (apply (values_of self.now) (view t.now)) ≤ levels) }
        ensures none { IfNone result ((room < math.size (apply (values_of self.now) (view t.now))) ⊎ (levels < math.depth (apply (values_of self.now) (view t.now)))) }
    {
        if room == 0 || levels == 0 {
            return None;
        }
        match t {
            Term::Var(x) => match self.get(*x) {
                Some(u) => room_after(u, room, levels),
                None => Some(room - 1),
            },
            Term::Fun(_, args) => {
                let mut left = room - 1;
                for arg in args {
                    left = self.room_after(arg, left, levels - 1)?;
                }
                Some(left)
            }
        }
    }

    // The instance of a term, of any size.
    fn instance(&self, alloc: Global, t: &Term) -> Result<Term, NoMemory>
        ensures { IfOk result (λ u. view u ≡ apply (values_of self.now) (view t.now)) }
    {
        match t {
            Term::Var(x) => match self.get(*x) {
                Some(u) => try_clone(alloc, u),
                None => Ok(Term::Var(*x)),
            },
            Term::Fun(f, args) => {
                let mut out = Vec::with_capacity(alloc, args.len())?;
                for arg in args {
                    out.push(self.instance(alloc, arg)?)?;
                }
                Ok(Term::Fun(*f, out))
            }
        }
    }

    /// The instance of a term, whose unbound variables stay: `TooLarge` where it does not fit.
    pub fn apply(&self, alloc: Global, t: &Term) -> Result<Term, TermError>
        requires { math.Fits (view t.now) }
        ensures { ApplyAnswers (apply (values_of self.now) (view t.now)) result }
    {
        if self.room_after(t, MAX_NODES, MAX_DEPTH).is_none() {
            return Err(TermError::TooLarge);
        }
        Ok(self.instance(alloc, t)?)
    }

    // Takes the value of a variable out, where it is bound.
    fn take(&mut self, x: u32) -> Option<Term>
        ensures value { option_map view result ≡ map.get self.old x }
        ensures others { (y : ℕ) → (y ≡ x → ⊥) → map.get self.new y ≡ map.get self.old y }
    {
        self.bound.remove(&x)
    }

    // The value of a variable: itself where it is not bound, and a copy where it is a repeated one.
    fn value(&mut self, alloc: Global, x: u32, repeated: &BTreeSet<u32>) -> Result<Term, NoMemory>
        ensures value { IfOk result (λ u. view u ≡ values_of self.old x) }
        ensures kept { OnOk result (Keeps repeated.now (var x) self.old self.new) }
    {
        if repeated.contains(&x) {
            return match self.get(x) {
                Some(u) => try_clone(alloc, u),
                None => Ok(Term::Var(x)),
            };
        }
        match self.take(x) {
            Some(u) => Ok(u),
            None => Ok(Term::Var(x)),
        }
    }

    // The instance of a term, of any size, into which the values of all but repeated variables are moved.
    fn moved(&mut self, alloc: Global, t: &Term, repeated: &BTreeSet<u32>) -> Result<Term, NoMemory>
        requires { (x : ℕ) → 2 ≤ occurrences x (view t.now) → Has repeated.now x }
        ensures instance { IfOk result (λ u. view u ≡ apply (values_of self.old) (view t.now)) }
        ensures kept { OnOk result (Keeps repeated.now (view t.now) self.old self.new) }
    {
        match t {
            Term::Var(x) => self.value(alloc, *x, repeated),
            Term::Fun(f, args) => {
                let mut out = Vec::with_capacity(alloc, args.len())?;
                for arg in args {
                    out.push(self.moved(alloc, arg, repeated)?)?;
                }
                Ok(Term::Fun(*f, out))
            }
        }
    }

    /// The instance of a term, as `apply` makes it. The value of a variable that stands once in the term
    /// is moved and not copied.
    pub fn into_instance(self, alloc: Global, t: &Term) -> Result<Term, TermError>
        requires { math.Fits (view t.now) }
        ensures { ApplyAnswers (apply (values_of self) (view t.now)) result }
    {
        match self.room_after(t, MAX_NODES, MAX_DEPTH) {
            Some(_) => {
                let repeated = repeated(alloc, t)?;
                let mut values = self;
                Ok(values.moved(alloc, t, &repeated)?)
            }
            None => Err(TermError::TooLarge),
        }
    }

    /// Whether every variable of a term is bound.
    pub fn covers(&self, t: &Term) -> bool
        ensures { IsTrue result ↔ Covers self.now (view t.now) }
    {
        match t {
            Term::Var(x) => self.get(*x).is_some(),
            Term::Fun(_, args) => {
                for arg in args {
                    if !self.covers(arg) {
                        return false;
                    }
                }
                true
            }
        }
    }
}
