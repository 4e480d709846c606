//! The generated systems as program values.
#![tactic(auto)]

mod names;
mod rules;

ghost use Rattle.std.specs.Prelude.{◌≡◌, ◌≤◌, IfOk};
ghost use Rattle.generated_systems.specs.Generated.{generated, generated_names};
ghost use Rattle.generator.specs.Laws.{GeneratedIsRead, GeneratedIsShort};

use crate::names::names_of;
use crate::rules::rules_of;
use cops_names::Names;
use generated_systems::MOST_GENERATED;
use std::alloc::Global;
use term_core::{NoMemory, System};

/// The generated system with a number, and its names. For each k from 1 to the number it has the rules pk(z) -> true,
/// pk(s(x)) -> false, fk(x) -> x | pk(x) == true and fk(x) -> fj(x) | pk(x) == false, where j is k - 1; for k = 1 the last
/// right side is s(x).
pub fn system_of(alloc: Global, n: u32) -> Result<(System, Names), NoMemory>
    requires least { 1 ≤ n }
    requires most { n ≤ MOST_GENERATED }
    ensures system { IfOk result (λ p. p.0 ≡ generated n) }
    ensures names { IfOk result (λ p. p.1 ≡ generated_names n) }
{
    let names = names_of(alloc, n)?;
    let arities = names.arities(alloc)?;
    let rules = rules_of(alloc, n)?;
    let system = System::of_sound(arities, rules);
    Ok((system, names))
}

/// What is written of a generated system is read as the same system, with the same names, and is no longer than a file
/// may be.
pub fn written_is_read()
    ensures read { GeneratedIsRead }
    ensures short { GeneratedIsShort }
{}
