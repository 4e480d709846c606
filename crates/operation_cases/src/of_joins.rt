//! Answers of calls on join rules, and on systems whose rules are changed.
ghost use Rattle.std.specs.Prelude.{◌≤◌, IfOk, length};

use std::alloc::Global;
use std::io;
use term_core::{Cond, JoinError, NoMemory, Rule, System, Term, join_system};

fn constant(alloc: Global, f: u32) -> Term {
    Term::Fun(f, Vec::new(alloc))
}

// The symbol over two terms.
fn over(alloc: Global, f: u32, left: Term, right: Term) -> Result<Term, NoMemory> {
    let mut both = Vec::with_capacity(alloc, 2)?;
    both.push(left)?;
    both.push(right)?;
    Ok(Term::Fun(f, both))
}

// The symbol over so many times symbol 2.
fn wide(alloc: Global, f: u32, count: u32) -> Result<Term, NoMemory> {
    let mut args = Vec::new(alloc);
    for _ in 0..count {
        args.push(constant(alloc, 2))?;
    }
    Ok(Term::Fun(f, args))
}

// An answer, where the memory sufficed to ask.
type Asked = Result<Result<System, JoinError>, NoMemory>;

fn print_answer(rt: &HostRuntime, asked: Asked) -> io::Result<()> {
    match asked {
        Ok(answer) => println!(rt; "{answer:?}"),
        Err(e) => println!(rt; "{e:?}"),
    }
}

// g(x) -> c where x and a have a common reduct.
fn join_rules(alloc: Global) -> Asked {
    let cond = Cond {
        left: Term::Var(0),
        right: constant(alloc, 2),
    };
    let rule = Rule {
        left: Term::Fun(0, vec![in alloc; Term::Var(0)]?),
        right: constant(alloc, 1),
        conds: vec![in alloc; cond]?,
        vars: 1,
    };
    let arities = vec![in alloc; 1, 0, 0]?;
    Ok(join_system(alloc, arities, vec![in alloc; rule]?))
}

/// The oriented system of g(x) -> c where x and a have a common reduct.
pub fn print_join_rules(rt: &HostRuntime) -> io::Result<()> {
    print_answer(rt, join_rules(rt.alloc()))
}

// A rule whose condition has two constants under so many others on both sides, and one with this constant on the left.
fn large(alloc: Global, left: u32, right: u32, other: u32) -> Result<Option<JoinError>, NoMemory> {
    let cond = Cond {
        left: wide(alloc, 0, left)?,
        right: wide(alloc, 1, right)?,
    };
    let first = Rule {
        left: constant(alloc, 2),
        right: constant(alloc, 2),
        conds: vec![in alloc; cond]?,
        vars: 0,
    };
    let second = Rule {
        left: constant(alloc, other),
        right: constant(alloc, 2),
        conds: Vec::new(alloc),
        vars: 0,
    };
    let arities = vec![in alloc; left, right, 0]?;
    let rules = vec![in alloc; first, second]?;
    Ok(join_system(alloc, arities, rules).err())
}

/// Whether join rules are refused: symbols with these numbers of arguments in a condition, and another symbol in the second rule.
pub fn print_large(rt: &HostRuntime, numbers: &str) -> io::Result<()> {
    let mut words = numbers
        .split_whitespace()
        .map(|word| word.parse().unwrap_or(0));
    let left = words.next().unwrap_or(0);
    let right = words.next().unwrap_or(0);
    let other = words.next().unwrap_or(0);
    println!(rt; "{:?}", large(rt.alloc(), left, right, other))
}

// g(x) -> c where join(x,a) reaches true.
fn first_rule(alloc: Global) -> Result<Rule, NoMemory>
    ensures { IfOk result (λ r. length r.conds.items ≤ 1) }
{
    let cond = Cond {
        left: over(alloc, 3, Term::Var(0), constant(alloc, 2))?,
        right: constant(alloc, 4),
    };
    Ok(Rule {
        left: Term::Fun(0, vec![in alloc; Term::Var(0)]?),
        right: constant(alloc, 1),
        conds: vec![in alloc; cond]?,
        vars: 1,
    })
}

// join(x,x) -> true
fn last_rule(alloc: Global) -> Result<Rule, NoMemory>
    ensures { IfOk result (λ r. length r.conds.items ≤ 0) }
{
    Ok(Rule {
        left: over(alloc, 3, Term::Var(0), Term::Var(0))?,
        right: constant(alloc, 4),
        conds: Vec::new(alloc),
        vars: 1,
    })
}

// The system with both rules, or with the last alone.
fn with_rules(alloc: Global, sys: &System, both: bool) -> Asked
    requires { length sys.now.arities ≤ 1000 }
{
    let last = last_rule(alloc)?;
    if !both {
        return Ok(sys.with_rules(alloc, vec![in alloc; last]?));
    }
    let first = first_rule(alloc)?;
    Ok(sys.with_rules(alloc, vec![in alloc; first, last]?))
}

/// The system with the rules of the oriented system of g(x) -> c where x and a have a common reduct, or with its last rule alone.
pub fn print_with_rules(rt: &HostRuntime, sys: &System, both: bool) -> io::Result<()> {
    if sys.arities().len() > 1000 {
        return println!(rt; "many symbols");
    }
    print_answer(rt, with_rules(rt.alloc(), sys, both))
}

/// The parts, and the system that is made of them.
pub fn print_parts(rt: &HostRuntime, sys: System) -> io::Result<()> {
    let (arities, rules, own) = sys.into_parts();
    println!(rt; "{arities:?} {} {own}", rules.len())?;
    let again = System::of_parts(arities, rules, own);
    println!(rt; "{again:?} {}", again.own())
}
