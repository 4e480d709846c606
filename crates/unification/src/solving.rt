//! The run of unification, by recursion on the two sides of an equation. Equal sides are taken apart
//! like others, which binds nothing, and sides are measured only after a new binding.
ghost use Rattle.std.specs.Prelude.{◌≡◌, ◌↔◌, false, IsTrue, OnOk, length};
ghost use Rattle.rewriting.specs.Terms as math;
ghost use Rattle.rewriting.specs.Prelude.{Each, apply, apply_all, occurs};
ghost use Rattle.unifier_run.specs.Run.{value, extended, DoFit, DoAllFit};
ghost use Rattle.term_core.specs.View.{view, views};
ghost use Rattle.unification.specs.Solving.{bindings, AreInTurn, IsGood, IsHead, SolveAnswers, BindAnswers};

use crate::bound::{Bound, do_fit_under, fits_under, head, keeps_sizes, occurs_under};
use term_core::{NoMemory, Term};

/// How far some equations have come.
#[derive(Clone, Copy, PartialEq, Eq)]
pub enum Progress {
    Solved,
    Clash,
    TooLarge,
}

// Adds a free variable with a term that is no bound variable, and whose instance does not hold the variable.
fn add<'a>(x: u32, t: &'a Term, found: &mut Vec<Bound<'a>>) -> Result<(), NoMemory>
    requires turns { AreInTurn found.old.items }
    requires free { value (bindings found.old.items) x ≡ math.var x }
    requires head { IsHead (bindings found.old.items) (view t.now) }
    requires apart { occurs x (apply (value (bindings found.old.items)) (view t.now)) ≡ false }
    ensures turns { OnOk result (AreInTurn found.new.items) }
    ensures extended { OnOk result (bindings found.new.items ≡ extended (bindings found.old.items) x (apply (value (bindings found.old.items)) (view t.now))) }
{
    found.push(Bound {
        variable: x,
        term: t,
    })?;
    Ok(())
}

// Binds a free variable to a term that is no bound variable.
fn bind<'a>(x: u32, t: &'a Term, found: &mut Vec<Bound<'a>>) -> Result<Progress, NoMemory>
    requires turns { AreInTurn found.old.items }
    requires free { value (bindings found.old.items) x ≡ math.var x }
    requires head { IsHead (bindings found.old.items) (view t.now) }
    requires fit { DoAllFit (bindings found.old.items) }
    requires side { math.Fits (apply (value (bindings found.old.items)) (view t.now)) }
    ensures turns { OnOk result (AreInTurn found.new.items) }
    ensures binds { BindAnswers (bindings found.old.items) (bindings found.new.items) x (apply (value (bindings found.old.items)) (view t.now)) result }
{
    if occurs_under(found, x, t) {
        return Ok(Progress::Clash);
    }
    let earlier = found.len();
    let known = keeps_sizes(found, x, t);
    add(x, t, found)?;
    if do_fit_under(found, earlier, known) {
        Ok(Progress::Solved)
    } else {
        Ok(Progress::TooLarge)
    }
}

// Whether the instance of a side fits, as what a variable stands for does.
fn side_fits<'a>(found: &[Bound<'a>], t: &'a Term) -> bool
    requires turns { AreInTurn found.now }
    requires fit { DoAllFit (bindings found.now) }
    ensures { IsTrue result ↔ math.Fits (apply (value (bindings found.now)) (view t.now)) }
{
    match t {
        Term::Var(_) => true,
        Term::Fun(_, _) => fits_under(found, t),
    }
}

// Whether both sides fit; they are measured where that is not known.
fn do_fit<'a>(known: bool, found: &[Bound<'a>], a: &'a Term, b: &'a Term) -> bool
    requires turns { AreInTurn found.now }
    requires fit { DoAllFit (bindings found.now) }
    requires known { IsTrue known → DoFit (apply (value (bindings found.now)) (view a.now)) (apply (value (bindings found.now)) (view b.now)) }
    ensures { IsTrue result ↔ DoFit (apply (value (bindings found.now)) (view a.now)) (apply (value (bindings found.now)) (view b.now)) }
{
    known || (side_fits(found, a) && side_fits(found, b))
}

// An equation whose sides fit and are no bound variables.
#[cycle(solve)]
fn meet<'a>(a: &'a Term, b: &'a Term, found: &mut Vec<Bound<'a>>) -> Result<Progress, NoMemory>
    requires turns { AreInTurn found.old.items }
    requires good { IsGood (bindings found.old.items) }
    requires left { IsHead (bindings found.old.items) (view a.now) }
    requires right { IsHead (bindings found.old.items) (view b.now) }
    requires fit { DoFit (apply (value (bindings found.old.items)) (view a.now)) (apply (value (bindings found.old.items)) (view b.now)) }
    ensures turns { OnOk result (AreInTurn found.new.items) }
    ensures solves { SolveAnswers (bindings found.old.items) (bindings found.new.items) (math.cons (view a.now) math.nil) (math.cons (view b.now) math.nil) result }
{
    match (a, b) {
        (Term::Var(x), Term::Var(y)) => {
            if *x == *y {
                Ok(Progress::Solved)
            } else {
                bind(*x, b, found)
            }
        }
        (Term::Var(x), Term::Fun(_, _)) => bind(*x, b, found),
        (Term::Fun(_, _), Term::Var(y)) => bind(*y, a, found),
        (Term::Fun(f, xs), Term::Fun(g, ys)) => {
            if *f != *g || xs.len() != ys.len() {
                return Ok(Progress::Clash);
            }
            solve_all(xs, ys, true, found)
        }
    }
}

/// An equation, from the bindings found so far on; `fit` says that its sides are known to fit.
#[cycle(solve)]
pub fn solve<'a>(
    a: &'a Term,
    b: &'a Term,
    fit: bool,
    found: &mut Vec<Bound<'a>>,
) -> Result<Progress, NoMemory>
    requires turns { AreInTurn found.old.items }
    requires good { IsGood (bindings found.old.items) }
    requires known { IsTrue fit → DoFit (apply (value (bindings found.old.items)) (view a.now)) (apply (value (bindings found.old.items)) (view b.now)) }
    ensures turns { OnOk result (AreInTurn found.new.items) }
    ensures solves { SolveAnswers (bindings found.old.items) (bindings found.new.items) (math.cons (view a.now) math.nil) (math.cons (view b.now) math.nil) result }
{
    if !do_fit(fit, found, a, b) {
        return Ok(Progress::TooLarge);
    }
    let left = head(found, a);
    let right = head(found, b);
    meet(left, right, found)
}

// Whether sides that fitted still do, since no variable has been bound.
fn is_known(fit: bool, before: usize, now: usize) -> bool
    ensures { IsTrue result → IsTrue fit × (before ≡ now) }
{
    fit && before == now
}

/// Equations in order, from the bindings found so far on; `fit` says that all sides are known to fit.
#[cycle(solve)]
pub fn solve_all<'a>(
    xs: &'a [Term],
    ys: &'a [Term],
    fit: bool,
    found: &mut Vec<Bound<'a>>,
) -> Result<Progress, NoMemory>
    requires lengths { length xs.now ≡ length ys.now }
    requires turns { AreInTurn found.old.items }
    requires good { IsGood (bindings found.old.items) }
    requires left { IsTrue fit → Each math.Fits (apply_all (value (bindings found.old.items)) (views xs.now)) }
    requires right { IsTrue fit → Each math.Fits (apply_all (value (bindings found.old.items)) (views ys.now)) }
    ensures turns { OnOk result (AreInTurn found.new.items) }
    ensures solves { SolveAnswers (bindings found.old.items) (bindings found.new.items) (views xs.now) (views ys.now) result }
{
    let count = found.len();
    for i in 0..xs.len() {
        let known = is_known(fit, count, found.len());
        match solve(&xs[i], &ys[i], known, found)? {
            Progress::Solved => {}
            other => return Ok(other),
        }
    }
    Ok(Progress::Solved)
}
