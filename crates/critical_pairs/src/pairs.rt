//! The critical pair of two rules that are renamed apart.
ghost use Rattle.std.specs.Prelude.{◌≡◌, ◌<◌, ◌^◌, IsSome, IfOk, map, length};
ghost use Rattle.rewriting.specs.Terms as math;
ghost use Rattle.rewriting.specs.Prelude.{Fits, subterm, apply, values_of, sides, Each, terms_of_rule};
ghost use Rattle.term_core.specs.Prelude.{view, condition_view, rule_view};
ghost use Rattle.critical_pairs.specs.Building.{InstanceAnswers, InstancesAnswers, ContractedAnswers, ConditionsAnswers, PairAnswers};

use crate::Overlap;
use std::alloc::{AllocError, Global};
use term_core::{Cond, Rule, Subst, Term, TermError, replace};

/// The number of an inner rule, a position, and the number of an outer rule.
#[derive(Clone, Copy)]
pub struct Triple<'a> {
    pub inner: u32,
    pub pos: &'a [u32],
    pub outer: u32,
}

fn instance(alloc: Global, m: &Subst, cond: &Cond) -> Result<Cond, TermError>
    requires left { Fits (view cond.now.left) }
    requires right { Fits (view cond.now.right) }
    ensures { InstanceAnswers (values_of m.now) (condition_view cond.now) result }
{
    let left = m.apply(alloc, &cond.left)?;
    let right = m.apply(alloc, &cond.right)?;
    Ok(Cond { left, right })
}

fn instances(alloc: Global, m: &Subst, conds: &[Cond], out: &mut Vec<Cond>) -> Result<(), TermError>
    requires { Each Fits (sides (map condition_view conds.now)) }
    ensures { InstancesAnswers (values_of m.now) (map condition_view conds.now) (map condition_view out.old.items) (map condition_view out.new.items) result }
{
    for cond in conds {
        out.push(instance(alloc, m, cond)?)?;
    }
    Ok(())
}

// The source with the instance of the inner right side.
fn contracted(
    alloc: Global,
    m: &Subst,
    source: &Term,
    pos: &[u32],
    right: &Term,
) -> Result<Term, TermError>
    requires source { Fits (view source.now) }
    requires right { Fits (view right.now) }
    requires there { IsSome (subterm (view source.now) pos.now) }
    ensures { ContractedAnswers (view source.now) pos.now (apply (values_of m.now) (view right.now)) result }
{
    let part = m.apply(alloc, right)?;
    replace(alloc, source, pos, &part)
}

// The instances of the conditions of the inner rule, then of the outer one.
fn conditions(alloc: Global, m: &Subst, inner: &Rule, outer: &Rule) -> Result<Vec<Cond>, TermError>
    requires inner { Each Fits (sides (rule_view inner.now).conditions) }
    requires outer { Each Fits (sides (rule_view outer.now).conditions) }
    ensures { ConditionsAnswers (values_of m.now) (rule_view inner.now).conditions (rule_view outer.now).conditions result }
{
    let mut out = Vec::new(alloc);
    instances(alloc, m, &inner.conds, &mut out)?;
    instances(alloc, m, &outer.conds, &mut out)?;
    Ok(out)
}

/// A copy of a position.
pub fn copy(alloc: Global, pos: &[u32]) -> Result<Vec<u32>, AllocError>
    ensures { IfOk result (λ v. v.items ≡ pos.now) }
{
    pos.iter().copied().collect(alloc)
}

/// The overlap that m makes of the two rules of a triple.
pub fn pair(
    alloc: Global,
    m: &Subst,
    inner: &Rule,
    outer: &Rule,
    triple: &Triple,
) -> Result<Overlap, TermError>
    requires inner { Each Fits (terms_of_rule (rule_view inner.now)) }
    requires outer { Each Fits (terms_of_rule (rule_view outer.now)) }
    requires there { IsSome (subterm (view outer.now.left) triple.now.pos.now) }
    requires few { length inner.now.conds.items < 2 ^ 32 }
    ensures { PairAnswers (values_of m.now) triple.now.inner triple.now.pos.now triple.now.outer (rule_view inner.now) (rule_view outer.now) result }
{
    let source = m.apply(alloc, &outer.left)?;
    let left = contracted(alloc, m, &source, triple.pos, &inner.right)?;
    let right = m.apply(alloc, &outer.right)?;
    let conds = conditions(alloc, m, inner, outer)?;
    Ok(Overlap {
        inner: triple.inner,
        pos: copy(alloc, triple.pos)?,
        outer: triple.outer,
        source,
        left,
        right,
        inner_conds: inner.conds.len() as u32,
        conds,
    })
}
