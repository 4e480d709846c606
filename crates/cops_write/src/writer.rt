//! The text of a system: its condition type, the block of its variables, and its rules with their conditions.
ghost use Rattle.std.specs.Prelude.{◌≡◌, ◌++◌, ◌<◌, ◌^◌, [], OnOk, OnErr, IfOk, map, length};
ghost use Rattle.rewriting.specs.Terms.{Fits};
ghost use Rattle.term_core.specs.Prelude.{view, condition_view, rule_view, IsNumbered};
ghost use Rattle.cops_names.specs.NameLists.{with_names};
ghost use Rattle.cops_write.specs.Grows.{Grows};
ghost use Rattle.cops_write.specs.Laws.{WrittenIsRead};
ghost use Rattle.cops_write.specs.Numbered.{AreNumbered};
ghost use Rattle.cops_write.specs.Text.{term_text, condition_text, conditions_text, rule_text, rules_text, rule_names, names_from, spaced, block_text, has_conditions, type_text, system_text};

use crate::terms::{put, put_term, variable_name};
use cops_names::{NameSet, Names};
use std::alloc::Global;
use term_core::{Cond, NoMemory, Rule, System, Term};

fn put_condition(out: &mut Vec<u8>, names: &Names, rule: u32, cond: &Cond) -> Result<(), NoMemory>
    ensures { OnOk result (Grows out.old.items (condition_text names.now rule (condition_view cond.now)) out.new.items) }
{
    put_term(out, names, rule, &cond.left)?;
    put(out, b" == ")?;
    put_term(out, names, rule, &cond.right)
}

// The conditions of a rule behind a bar, if there are any.
fn put_conditions(
    out: &mut Vec<u8>,
    names: &Names,
    rule: u32,
    conds: &[Cond],
) -> Result<(), NoMemory>
    ensures { OnOk result (Grows out.old.items (conditions_text names.now rule (map condition_view conds.now)) out.new.items) }
{
    if let [first, rest @ ..] = conds {
        put(out, b" | ")?;
        put_condition(out, names, rule, first)?;
        'others: for cond in rest {
            put(out, b", ")?;
            put_condition(out, names, rule, cond)?;
        }
    }
    Ok(())
}

fn put_rule(out: &mut Vec<u8>, names: &Names, number: u32, rule: &Rule) -> Result<(), NoMemory>
    ensures { OnOk result (Grows out.old.items (rule_text names.now number (rule_view rule.now)) out.new.items) }
{
    put(out, b"  ")?;
    put_term(out, names, number, &rule.left)?;
    put(out, b" -> ")?;
    put_term(out, names, number, &rule.right)?;
    put_conditions(out, names, number, &rule.conds)?;
    put(out, b"\n")
}

fn put_rules(out: &mut Vec<u8>, names: &Names, rules: &[Rule]) -> Result<(), NoMemory>
    requires { length rules.now < 2 ^ 31 }
    ensures { OnOk result (Grows out.old.items (rules_text names.now 1 (map rule_view rules.now)) out.new.items) }
{
    let mut number = 1;
    'rules: for rule in rules {
        put_rule(out, names, number, rule)?;
        number += 1;
    }
    Ok(())
}

fn put_names(out: &mut Vec<u8>, names: &[&str]) -> Result<(), NoMemory>
    ensures { OnOk result (Grows out.old.items (spaced (map (λ k. k.now) names.now)) out.new.items) }
{
    'names: for name in names {
        put(out, b" ")?;
        put(out, name.as_bytes())?;
    }
    Ok(())
}

// The line of the variables' block, if there are any.
fn put_block(out: &mut Vec<u8>, names: &[&str]) -> Result<(), NoMemory>
    ensures { OnOk result (Grows out.old.items (block_text (map (λ k. k.now) names.now)) out.new.items) }
{
    if names.is_empty() {
        return Ok(());
    }
    put(out, b"(VAR")?;
    put_names(out, names)?;
    put(out, b")\n")
}

fn is_conditional(rules: &[Rule]) -> bool
    ensures { result ≡ has_conditions (map rule_view rules.now) }
{
    'rules: for rule in rules {
        if !rule.conds.is_empty() {
            return true;
        }
    }
    false
}

fn put_type(out: &mut Vec<u8>, rules: &[Rule]) -> Result<(), NoMemory>
    ensures { OnOk result (Grows out.old.items (type_text (has_conditions (map rule_view rules.now))) out.new.items) }
{
    if is_conditional(rules) {
        put(out, b"(CONDITIONTYPE ORIENTED)\n")?;
    }
    Ok(())
}

// Adds the names of a rule's variables to those of the rules before it.
fn add_names<'a>(
    set: &mut NameSet<'a>,
    names: &'a Names,
    number: u32,
    rule: &Rule,
) -> Result<(), NoMemory>
    requires { IsNumbered rule.now }
    ensures { OnOk result (set.new ≡ with_names set.old (rule_names names.now number (rule_view rule.now))) }
{
    'variables: for x in 0..rule.vars {
        set.add(variable_name(names, number, x))?;
    }
    Ok(())
}

// The names of all variables, each once.
fn collect_names<'a>(
    alloc: Global,
    names: &'a Names,
    rules: &[Rule],
) -> Result<NameSet<'a>, NoMemory>
    requires few { length rules.now < 2 ^ 31 }
    requires numbered { AreNumbered rules.now }
    ensures { IfOk result (λ set. set ≡ with_names [] (names_from names.now 1 (map rule_view rules.now))) }
{
    let mut set = NameSet::new(alloc);
    let mut number = 1;
    'rules: for rule in rules {
        add_names(&mut set, names, number, rule)?;
        number += 1;
    }
    Ok(set)
}

fn put_system(alloc: Global, out: &mut Vec<u8>, names: &Names, sys: &System) -> Result<(), NoMemory>
    ensures { OnOk result (Grows out.old.items (system_text names.now sys.now) out.new.items) }
{
    let rules = sys.rules();
    put_type(out, rules)?;
    let variables = collect_names(alloc, names, rules)?;
    put_block(out, variables.names())?;
    put(out, b"(RULES\n")?;
    put_rules(out, names, rules)?;
    put(out, b")\n")?;
    Ok(())
}

/// Writes a term of a rule behind the bytes of `out`, without white space, a constant without brackets.
/// A symbol or a variable without a name is written as nothing. Where memory is refused, `out` is what
/// it was.
pub fn write_term(
    alloc: Global,
    names: &Names,
    rule: u32,
    t: &Term,
    out: &mut Vec<u8>,
) -> Result<(), NoMemory>
    requires { Fits (view t.now) }
    ensures written { OnOk result (out.new.items ≡ out.old.items ++ term_text names.now rule (view t.now)) }
    ensures unchanged { OnErr result (out.new.items ≡ out.old.items) }
{
    let mut text = Vec::new(alloc);
    put_term(&mut text, names, rule, t)?;
    out.extend_from_slice(&text)?;
    Ok(())
}

/// Writes the text of a system behind the bytes of `out`: the condition type where a rule has
/// conditions, the names of the variables where there are any, and the rules, each on a line. A symbol
/// or a variable without a name is written as nothing. Where memory is refused, `out` is what it was.
pub fn write_system(
    alloc: Global,
    names: &Names,
    sys: &System,
    out: &mut Vec<u8>,
) -> Result<(), NoMemory>
    ensures written { OnOk result (out.new.items ≡ out.old.items ++ system_text names.now sys.now) }
    ensures unchanged { OnErr result (out.new.items ≡ out.old.items) }
{
    let mut text = Vec::new(alloc);
    put_system(alloc, &mut text, names, sys)?;
    out.extend_from_slice(&text)?;
    Ok(())
}

/// What is written of a system that a file spells is a file that spells it, with the same names.
pub fn written_is_read()
    ensures { WrittenIsRead }
{}
