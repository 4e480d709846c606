//! Answers of calls on a system.

use crate::of_numbers::unary;
use cert_model::Class;
use critical_pairs::{OverlapSearch, overlaps};
use ctrs_classes::why_not;
use irreducible::{do_all_clash, is_absolutely_irreducible};
use prepared_system::PreparedSystem;
use rule_index::{IndexedSystem, RuleIndex};
use std::io;
use term_core::{NoMemory, System, Term};
use unravel::unravel;

/// The rules of the symbols with the first numbers.
pub fn print_index(rt: &HostRuntime, sys: &System) -> io::Result<()> {
    let Ok(index) = RuleIndex::new(rt.alloc(), sys) else {
        return println!(rt; "no memory");
    };
    for f in 0..4 {
        println!(rt; "{f}: {:?}", index.with_root(f))?;
    }
    Ok(())
}

/// The list of the overlaps.
pub fn print_overlaps(rt: &HostRuntime, sys: &System) -> io::Result<()> {
    let Ok(found) = overlaps(rt.alloc(), sys) else {
        return println!(rt; "no list");
    };
    for overlap in &found {
        println!(rt; "{overlap:?}")?;
    }
    Ok(())
}

fn prepare<'a>(rt: &HostRuntime, sys: &'a System) -> Result<PreparedSystem<'a>, NoMemory> {
    let indexed = IndexedSystem::new(rt.alloc(), sys)?;
    PreparedSystem::new(rt.alloc(), indexed)
}

/// What a search offers at its first two calls.
pub fn print_search(rt: &HostRuntime, sys: &System) -> io::Result<()> {
    let Ok(prepared) = prepare(rt, sys) else {
        return println!(rt; "no memory");
    };
    let mut search = OverlapSearch::new(rt.alloc(), &prepared);
    for _ in 0..2 {
        println!(rt; "{:?}", search.next(rt.alloc()))?;
    }
    Ok(())
}

/// Whether a search offers an overlap, or its refusal, and what another answers that passes the same, at three calls.
pub fn print_passes(rt: &HostRuntime, sys: &System) -> io::Result<()> {
    let Ok(prepared) = prepare(rt, sys) else {
        return println!(rt; "no memory");
    };
    let mut offers = OverlapSearch::new(rt.alloc(), &prepared);
    let mut passes = OverlapSearch::new(rt.alloc(), &prepared);
    for _ in 0..3 {
        match offers.next(rt.alloc()) {
            Ok(offered) => println!(rt; "{}", offered.is_some())?,
            Err(e) => println!(rt; "{e:?}")?,
        }
        println!(rt; "{:?}", passes.pass(rt.alloc()))?;
    }
    Ok(())
}

pub fn print_unraveled(rt: &HostRuntime, sys: &System) -> io::Result<()> {
    println!(rt; "{:?}", unravel(rt.alloc(), sys))
}

/// The blame of each class.
pub fn print_classes(rt: &HostRuntime, sys: &System) -> io::Result<()> {
    for class in [
        Class::LeftLinear,
        Class::Type3,
        Class::ExtendedOriented,
        Class::RightStable,
        Class::Deterministic,
    ] {
        println!(rt; "{class:?}: {:?}", why_not(sys, class))?;
    }
    Ok(())
}

fn print_judged(rt: &HostRuntime, sys: &PreparedSystem<'_>, t: &Term) -> io::Result<()> {
    let judged = is_absolutely_irreducible(rt.alloc(), sys.system(), t);
    let clash = do_all_clash(rt.alloc(), sys, t);
    println!(rt; "{judged:?} {clash:?}")
}

/// Whether each term, and then symbol 0 over the greatest variable, is absolutely irreducible, and whether all runs for it clash.
pub fn print_irreducible(rt: &HostRuntime, sys: &System, terms: &[Term]) -> io::Result<()> {
    let Ok(prepared) = prepare(rt, sys) else {
        return println!(rt; "no memory");
    };
    for t in terms {
        print_judged(rt, &prepared, t)?;
    }
    match unary(rt.alloc(), 4294967295) {
        Ok(t) => print_judged(rt, &prepared, &t),
        Err(e) => println!(rt; "{e:?}"),
    }
}
