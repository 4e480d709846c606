//! The rules of an unraveled system: for a rule with n conditions n + 1 rules, chained by its auxiliary symbols.
ghost use Rattle.std.specs.Prelude.{◌≡◌, ◌<◌, ◌≤◌, ◌+◌, ◌^◌, ◌*◌, [], IfOk, OnOk, map, length};
ghost use Rattle.rewriting.specs.Terms as math;
ghost use Rattle.rewriting.specs.Prelude.{with_variables, sides, Each, terms_of_rule, rule_variables, condition_count, IsSystem, unraveled, unraveled_from, unraveled_rule};
ghost use Rattle.term_core.specs.Prelude.{view, condition_view, rule_view, AreCounted};
ghost use Rattle.unravel.specs.SideView.{side_view, DoesPartFit};
ghost use Rattle.unravel.specs.RuleAnswers.{NumberedAnswers, PushAnswers, AppendAnswers, OneRuleAnswers, RulesAnswers, DoTermsFit};

use crate::UnravelError;
use crate::sides::{Side, add_variables};
use std::alloc::{AllocError, AllocFailed, Global};
use term_core::{Cond, MAX_NODES, NoMemory, Rule, System, Term, vars};

/// Why rules cannot be added.
#[derive(Clone, Copy, Debug)]
pub enum RuleError {
    /// A side does not fit.
    TooLarge,
    NoMemory,
}

impl From<NoMemory> for RuleError {
    ghost use Rattle.unravel.specs.declared.rules.RuleError.TheVariants.{NoMemory as no_memory};

    ghost from_gives = { λ _ e. e ≡ no_memory };

    fn from(_e: NoMemory) -> RuleError {
        RuleError::NoMemory
    }
}

// The variables of two sides, in order of first occurrence.
#[tactic(auto, using(crate::proofs::Kept::few_variables))]
fn variables(alloc: Global, left: &Side, right: &Side) -> Result<Vec<u32>, NoMemory>
    requires left { math.Fits (side_view left.now) }
    requires right { math.Fits (side_view right.now) }
    ensures variables { IfOk result (λ v. v.items ≡ with_variables (with_variables [] (side_view left.now)) (side_view right.now)) }
    ensures few { IfOk result (λ v. length v.items ≤ 2 * MAX_NODES) }
{
    let mut order = Vec::new(alloc);
    left.add_variables(&mut order)?;
    right.add_variables(&mut order)?;
    Ok(order)
}

// The rule of two sides, its variables numbered anew.
fn numbered_anew(alloc: Global, left: &Side, right: &Side) -> Result<Rule, NoMemory>
    requires left { math.Fits (side_view left.now) }
    requires right { math.Fits (side_view right.now) }
    ensures rule { NumberedAnswers (side_view left.now) (side_view right.now) result }
    ensures counted { IfOk result (λ q. q.vars ≡ length (rule_variables (rule_view q))) }
{
    let order = variables(alloc, left, right)?;
    let new_left = left.numbered(alloc, &order)?;
    let new_right = right.numbered(alloc, &order)?;
    Ok(Rule {
        left: new_left,
        right: new_right,
        conds: Vec::new(alloc),
        vars: order.len() as u32,
    })
}

// Adds the rule of two sides.
#[tactic(auto, using(crate::proofs::Sound::counted_more))]
fn push(alloc: Global, left: &Side, right: &Side, out: &mut Vec<Rule>) -> Result<(), RuleError>
    requires left { DoesPartFit left.now }
    requires right { DoesPartFit right.now }
    ensures rule { PushAnswers (side_view left.now) (side_view right.now) out.old.items out.new.items result }
    ensures counted { OnOk result (AreCounted out.old.items → AreCounted out.new.items) }
{
    if !left.fits() || !right.fits() {
        return Err(RuleError::TooLarge);
    }
    let rule = numbered_anew(alloc, left, right)?;
    out.push(rule).map_err(NoMemory::from)?;
    Ok(())
}

/// The known variables, and behind them those of a term that are new.
#[tactic(auto, using(crate::proofs::Kept::few_more))]
pub fn grown(alloc: Global, known: &[u32], t: &Term) -> Result<Vec<u32>, NoMemory>
    requires { math.Fits (view t.now) }
    ensures variables { IfOk result (λ v. v.items ≡ with_variables known.now (view t.now)) }
    ensures few { IfOk result (λ v. length v.items ≤ length known.now + MAX_NODES) }
{
    let mut grown = known.to_vec(alloc)?;
    add_variables(t, &mut grown)?;
    Ok(grown)
}

// The auxiliary symbol for a condition, and the known variables, which are those before it.
#[derive(Clone, Copy)]
struct Keeper<'a> {
    symbol: u32,
    known: &'a [u32],
}

// Adds the rules for the conditions that are left; the head stands for those so far, and the keeper is that of the next one.
fn push_from(
    alloc: Global,
    next: &Keeper<'_>,
    head: &Side,
    conds: &[Cond],
    right: &Term,
    out: &mut Vec<Rule>,
) -> Result<(), RuleError>
    requires head { DoesPartFit head.now }
    requires conds { Each math.Fits (sides (map condition_view conds.now)) }
    requires right { math.Fits (view right.now) }
    requires symbols { next.now.symbol + length conds.now < 2 ^ 32 }
    ensures rules { AppendAnswers (unraveled_from next.now.symbol next.now.known.now (side_view head.now) (map condition_view conds.now) (view right.now)) out.old.items out.new.items result }
    ensures counted { OnOk result (AreCounted out.old.items → AreCounted out.new.items) }
{
    match conds {
        [] => push(alloc, head, &Side::Plain(right), out),
        [cond, rest @ ..] => {
            let symbol = next.symbol;
            let known = next.known;
            let asked = Side::Kept {
                symbol,
                term: &cond.left,
                known,
            };
            push(alloc, head, &asked, out)?;
            let grown = grown(alloc, known, &cond.right)?;
            let head = Side::Kept {
                symbol,
                term: &cond.right,
                known,
            };
            let later = Keeper {
                symbol: symbol + 1,
                known: &grown,
            };
            push_from(alloc, &later, &head, rest, right, out)
        }
    }
}

// Adds the rules that come from a rule, whose first auxiliary symbol has this number.
fn push_rules(alloc: Global, symbol: u32, rule: &Rule, out: &mut Vec<Rule>) -> Result<(), RuleError>
    requires fits { Each math.Fits (terms_of_rule (rule_view rule.now)) }
    requires symbols { symbol + length rule.now.conds.items < 2 ^ 32 }
    ensures rules { AppendAnswers (unraveled_rule symbol (rule_view rule.now)) out.old.items out.new.items result }
    ensures counted { OnOk result (AreCounted out.old.items → AreCounted out.new.items) }
{
    let known = vars(alloc, &rule.left)?;
    let head = Side::Plain(&rule.left);
    let first = Keeper {
        symbol,
        known: &known,
    };
    push_from(alloc, &first, &head, &rule.conds, &rule.right, out)
}

/// The rules that come from one rule, whose first auxiliary symbol has this number.
pub fn rules_of_one(alloc: Global, symbol: u32, rule: &Rule) -> Result<Vec<Rule>, RuleError>
    requires fits { Each math.Fits (terms_of_rule (rule_view rule.now)) }
    requires symbols { symbol + length rule.now.conds.items < 2 ^ 32 }
    ensures { OneRuleAnswers (unraveled_rule symbol (rule_view rule.now)) result }
{
    let mut out = Vec::new(alloc);
    push_rules(alloc, symbol, rule, &mut out)?;
    Ok(out)
}

// The rules that come from some rules, whose first auxiliary symbol has this number.
#[tactic(auto, using(crate::proofs::Progress::begin, crate::proofs::Progress::room, crate::proofs::Progress::advance, crate::proofs::Progress::finish, crate::proofs::Progress::finish_counted, crate::proofs::Progress::fail, crate::proofs::Progress::terms_fit_here))]
fn rules_of(alloc: Global, first: u32, rules: &[Rule]) -> Result<Vec<Rule>, UnravelError>
    requires fits { DoTermsFit (map rule_view rules.now) }
    requires symbols { first + condition_count (map rule_view rules.now) < 2 ^ 31 }
    requires few { length rules.now < 2 ^ 31 }
    ensures rules { RulesAnswers first (map rule_view rules.now) result }
    ensures counted { IfOk result (λ v. AreCounted v.items) }
{
    let mut out = Vec::new(alloc);
    let mut symbol = first;
    for (i, rule) in rules.iter().enumerate() {
        match push_rules(alloc, symbol, rule, &mut out) {
            Ok(()) => {}
            Err(RuleError::TooLarge) => return Err(UnravelError::TooLarge { rule: i as u32 + 1 }),
            Err(RuleError::NoMemory) => return Err(UnravelError::NoMemory),
        }
        symbol += rule.conds.len() as u32;
    }
    Ok(out)
}

/// The rules of the unraveled system.
#[tactic(auto, using(crate::proofs::Progress::terms_fit, crate::proofs::Sound::sound_where_ok))]
pub fn unraveled_rules(alloc: Global, sys: &System) -> Result<Vec<Rule>, UnravelError>
    ensures rules { RulesAnswers (length sys.now.arities) sys.now.rules result }
    ensures counted { IfOk result (λ v. AreCounted v.items) }
    ensures sound { IfOk result (λ _. IsSystem (unraveled sys.now)) }
{
    let rules = sys.rules();
    rules_of(alloc, sys.arities().len() as u32, rules)
}
