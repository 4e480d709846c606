//! The names of a generated system.
ghost use Rattle.std.specs.Prelude.{◌≡◌, ◌+◌, ◌<◌, ◌≤◌, ◌^◌, ◌∷◌, ◌++◌, [], IfOk, OnOk, codes, length, suc, string_bytes};
ghost use Rattle.cops_names.specs.NamesView.{texts_of};
ghost use Rattle.generated_systems.specs.Generated.{generated_names, variables_for};
ghost use Rattle.cops_read.specs.Meaning.{with_symbol};

use cops_names::{Names, numbered};
use generated_systems::MOST_GENERATED;
use std::alloc::Global;
use term_core::NoMemory;

// Puts a symbol last, where no symbol has its name.
fn add(names: &mut Names, name: String, arity: u32) -> Result<(), NoMemory>
    requires { length names.old.symbols < 2 ^ 31 }
    ensures symbols { OnOk result (names.new.symbols ≡ with_symbol names.old.symbols (string_bytes name) arity) }
    ensures variables { names.new.variables ≡ names.old.variables }
{
    names.add_symbol(name, arity)?;
    Ok(())
}

fn add_plain(alloc: Global, names: &mut Names, name: &str, arity: u32) -> Result<(), NoMemory>
    requires { length names.old.symbols < 2 ^ 31 }
    ensures symbols { OnOk result (names.new.symbols ≡ with_symbol names.old.symbols name.now arity) }
    ensures variables { names.new.variables ≡ names.old.variables }
{
    add(names, String::from_str(alloc, name)?, arity)
}

// The symbols of the first system.
fn first_symbols(alloc: Global) -> Result<Names, NoMemory>
    ensures symbols { IfOk result (λ names. names.symbols ≡ (generated_names 1).symbols) }
    ensures variables { IfOk result (λ names. names.variables ≡ []) }
{
    let mut names = Names::new(alloc);
    add_plain(alloc, &mut names, "p1", 1)?;
    add_plain(alloc, &mut names, "z", 0)?;
    add_plain(alloc, &mut names, "true", 0)?;
    add_plain(alloc, &mut names, "s", 1)?;
    add_plain(alloc, &mut names, "false", 0)?;
    add_plain(alloc, &mut names, "f1", 1)?;
    Ok(names)
}

// The two symbols that the system behind the one with number k has more.
fn add_symbols(alloc: Global, names: &mut Names, k: u32) -> Result<(), NoMemory>
    requires least { 1 ≤ k }
    requires most { k < MOST_GENERATED }
    requires so_far { names.old.symbols ≡ (generated_names k).symbols }
    ensures symbols { OnOk result (names.new.symbols ≡ (generated_names (suc k)).symbols) }
    ensures variables { names.new.variables ≡ names.old.variables }
{
    let p_name = numbered(alloc, "p", k + 1)?;
    let f_name = numbered(alloc, "f", k + 1)?;
    add(names, p_name, 1)?;
    add(names, f_name, 1)?;
    Ok(())
}

// The symbols of the generated system with a number.
fn symbols_of(alloc: Global, n: u32) -> Result<Names, NoMemory>
    requires least { 1 ≤ n }
    requires most { n ≤ MOST_GENERATED }
    ensures symbols { IfOk result (λ names. names.symbols ≡ (generated_names n).symbols) }
    ensures variables { IfOk result (λ names. names.variables ≡ []) }
{
    let mut names = first_symbols(alloc)?;
    'symbols: for k in 1..n {
        add_symbols(alloc, &mut names, k)?;
    }
    Ok(names)
}

// The variables of a rule that has x alone.
fn only_x(alloc: Global) -> Result<Vec<String>, NoMemory>
    ensures { IfOk result (λ v. texts_of v.items ≡ codes "x" ∷ []) }
{
    let mut variables = Vec::new(alloc);
    variables.push(String::from_str(alloc, "x")?)?;
    Ok(variables)
}

// The variables of the four rules for some k.
fn add_variables(alloc: Global, names: &mut Names) -> Result<(), NoMemory>
    requires { length names.old.variables + 4 < 2 ^ 31 }
    ensures variables { OnOk result (names.new.variables ≡ names.old.variables ++ variables_for 0) }
    ensures symbols { names.new.symbols ≡ names.old.symbols }
{
    names.add_rule(Vec::new(alloc))?;
    names.add_rule(only_x(alloc)?)?;
    names.add_rule(only_x(alloc)?)?;
    names.add_rule(only_x(alloc)?)
}

/// The names of the generated system with a number.
pub(crate) fn names_of(alloc: Global, n: u32) -> Result<Names, NoMemory>
    requires least { 1 ≤ n }
    requires most { n ≤ MOST_GENERATED }
    ensures { IfOk result (λ names. names ≡ generated_names n) }
{
    let mut names = symbols_of(alloc, n)?;
    'variables: for _ in 0..n {
        add_variables(alloc, &mut names)?;
    }
    Ok(names)
}
