//! Rules with their conditions.
ghost use Rattle.std.specs.Prelude.{◌≡◌, ◌∷◌, ◌≤◌, [], OnOk, IfOk, length};
ghost use Rattle.ari_text.specs.Signs.{opening};
ghost use Rattle.ari_text.specs.Reads.{IsConditionRead, AreConditionsRead, IsRuleRead, ArePartsRead};

use crate::errors::AriError;
use crate::heads::{other_part, read_function};
use crate::reader::{Reader, is};
use crate::scope::Scope;
use crate::terms::read_term;
use crate::words::Word;
use cops_syntax::{CondText, Node, RuleText};
use std::alloc::Global;

// Reads a condition behind its bracket.
fn read_condition<'a>(
    alloc: Global,
    reader: &mut Reader<'a>,
    scope: &mut Scope<'a>,
) -> Result<CondText<'a>, AriError>
    ensures condition { IfOk result (λ c. IsConditionRead (opening ∷ reader.old) reader.new c) }
    ensures onward { length reader.new ≤ length reader.old }
    ensures functions { scope.new.functions ≡ scope.old.functions }
{
    let sign = reader.name()?;
    if !is(sign, "=") {
        return Err(AriError::Syntax { at: sign.at });
    }
    let mut left = Vec::new(alloc);
    read_term(reader, scope, &mut left, 1)?;
    let mut right = Vec::new(alloc);
    read_term(reader, scope, &mut right, 1)?;
    reader.close()?;
    Ok(CondText { left, right })
}

// Reads conditions up to the bracket that closes their rule, behind its sides; the bar is the first one's bracket.
fn read_conditions<'a>(
    alloc: Global,
    reader: &mut Reader<'a>,
    scope: &mut Scope<'a>,
    left: Vec<Node<'a>>,
    right: Vec<Node<'a>>,
) -> Result<RuleText<'a>, AriError>
    ensures conditions { IfOk result (λ r. AreConditionsRead reader.old reader.new left.entry.items right.entry.items r) }
    ensures onward { length reader.new ≤ length reader.old }
    ensures functions { scope.new.functions ≡ scope.old.functions }
{
    let mut bar: Option<usize> = None;
    let mut conditions = Vec::new(alloc);
    'conditions: loop {
        match reader.next() {
            Some(Word::Close(_)) => break,
            Some(Word::Open(at)) => {
                bar = Some(bar.unwrap_or(at));
                conditions.push(read_condition(alloc, reader, scope)?)?;
            }
            other => return Err(reader.unexpected(other)),
        }
    }
    Ok(RuleText {
        left,
        right,
        bar,
        conditions,
    })
}

// Reads a rule behind its key word.
fn read_rule<'a>(
    alloc: Global,
    reader: &mut Reader<'a>,
    scope: &mut Scope<'a>,
) -> Result<RuleText<'a>, AriError>
    ensures rule { IfOk result (λ r. IsRuleRead reader.old reader.new r) }
    ensures onward { length reader.new ≤ length reader.old }
    ensures functions { scope.new.functions ≡ scope.old.functions }
{
    let mut left = Vec::new(alloc);
    read_term(reader, scope, &mut left, 1)?;
    let mut right = Vec::new(alloc);
    read_term(reader, scope, &mut right, 1)?;
    let rule = read_conditions(alloc, reader, scope, left, right)?;
    Ok(rule)
}

// Declares the functions and reads the rules behind them, up to the end of the text.
pub(crate) fn read_parts<'a>(
    alloc: Global,
    reader: &mut Reader<'a>,
    scope: &mut Scope<'a>,
) -> Result<Vec<RuleText<'a>>, AriError>
    requires { scope.old.functions.symbols ≡ [] }
    ensures { IfOk result (λ rules. ArePartsRead reader.old scope.new.functions.symbols rules.items) }
{
    let mut rules = Vec::new(alloc);
    'parts: while let Some(key) = reader.key()? {
        if is(key, "rule") {
            rules.push(read_rule(alloc, reader, scope)?)?;
        } else if is(key, "fun") && rules.is_empty() {
            read_function(alloc, reader, scope)?;
        } else {
            return Err(other_part(key));
        }
    }
    Ok(rules)
}
