//! Answers of calls on what numbers tell.
ghost use Rattle.std.specs.Prelude.{◌≡◌, ℕ, true, IfOk};
ghost use Rattle.rewriting.specs.Variables.{occurs};
ghost use Rattle.term_core.specs.View.{view};

use crate::of_joins::{print_join_rules, print_large};
use cert_model::{Automaton, Derivation, InfEvidence, PairEvidence, Step, Transition};
use std::alloc::Global;
use std::io;
use term_core::{NoMemory, Rule, System, SystemFault, Term};
use unification::rename;

/// The numbers of a text.
pub fn numbers_of(alloc: Global, text: &str) -> Result<Vec<u32>, NoMemory> {
    let mut numbers = Vec::new(alloc);
    for word in text.split_whitespace() {
        numbers.push(word.parse().unwrap_or(0))?;
    }
    Ok(numbers)
}

/// Symbol 0 over a variable.
pub fn unary(alloc: Global, x: u32) -> Result<Term, NoMemory>
    ensures { IfOk result (λ t. (k : ℕ) → occurs k (view t) ≡ true → k ≡ x) }
{
    Ok(Term::Fun(0, vec![in alloc; Term::Var(x)]?))
}

/// What is asked without a system.
pub fn print_call(rt: &HostRuntime, call: &str) -> io::Result<()> {
    let (name, numbers) = call.split_once(' ').unwrap_or((call, ""));
    match name {
        "copy" => print_copies(rt, numbers),
        "make" => print_fault(rt, numbers),
        "join_rules" => print_join_rules(rt),
        "large" => print_large(rt, numbers),
        "rename" => print_renamed(rt, numbers),
        _ => Ok(()),
    }
}

// By one step with hypothesis 3 at the position of these numbers.
fn derivation(alloc: Global, numbers: &str) -> Result<Derivation, NoMemory> {
    let pos = numbers_of(alloc, numbers)?;
    Ok(Derivation {
        steps: Vec::from_array(alloc, [Step::Hyp { number: 3, pos }])?,
    })
}

// An automaton with one transition, from these states, which accept.
fn automaton(alloc: Global, numbers: &str) -> Result<Automaton, NoMemory> {
    let transition = Transition {
        symbol: Some(4),
        args: numbers_of(alloc, numbers)?,
        target: 0,
    };
    let transitions = Vec::from_array(alloc, [transition])?;
    let accepting = numbers_of(alloc, numbers)?;
    Ok(Automaton {
        states: 2,
        accepting,
        transitions,
    })
}

// The copies of a derivation and of evidence.
fn print_copies(rt: &HostRuntime, numbers: &str) -> io::Result<()> {
    let alloc = rt.alloc();
    if let Ok(d) = derivation(alloc, numbers) {
        println!(rt; "{:?}", d.try_clone(alloc))?;
    }
    let Ok(automaton) = automaton(alloc, numbers) else {
        return println!(rt; "no memory");
    };
    let evidence = PairEvidence::Infeasible(InfEvidence::Auto { cond: 1, automaton });
    println!(rt; "{:?}", evidence.try_clone(alloc))
}

// The fault of a system of f, of arity 1, and a rule from f of variable 0 to a variable.
fn fault_of(alloc: Global, right: u32, vars: u32) -> Result<Option<SystemFault>, NoMemory> {
    let rule = Rule {
        left: unary(alloc, 0)?,
        right: Term::Var(right),
        conds: Vec::new(alloc),
        vars,
    };
    Ok(System::make(vec![in alloc; 1]?, vec![in alloc; rule]?).err())
}

fn print_fault(rt: &HostRuntime, numbers: &str) -> io::Result<()> {
    let (right, vars) = numbers.split_once(' ').unwrap_or((numbers, ""));
    let (right, vars) = (right.parse().unwrap_or(0), vars.parse().unwrap_or(0));
    println!(rt; "{:?}", fault_of(rt.alloc(), right, vars))
}

// Symbol 0 over the variable, with 2k + 1 for each variable k.
fn print_renamed(rt: &HostRuntime, numbers: &str) -> io::Result<()> {
    let variable: u32 = numbers.parse().unwrap_or(0);
    match unary(rt.alloc(), variable) {
        Ok(t) if variable < 1000 => println!(rt; "{:?}", rename(rt.alloc(), &t, 2, 1)),
        _ => println!(rt; "no term"),
    }
}
