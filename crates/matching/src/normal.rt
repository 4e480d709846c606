//! Whether a term is a normal form of the rules without their conditions.
ghost use Rattle.std.specs.Prelude.{◌↔◌, IsTrue, map};
ghost use Rattle.rewriting.specs.NormalForms.{IsNormalForm};
ghost use Rattle.term_core.specs.Prelude.{view, rule_view};
ghost use Rattle.matching.specs.Lists.{HasNoInstance, HaveNoInstance};

use crate::instances::matches;
use term_core::{Rule, System, Term};

// Whether no part of a term is an instance of the pattern.
fn has_no_instance(pattern: &Term, t: &Term) -> bool
    ensures { IsTrue result ↔ HasNoInstance (view pattern.now) (view t.now) }
{
    if matches(pattern, t) {
        return false;
    }
    match t {
        Term::Var(_) => true,
        Term::Fun(_, args) => {
            for arg in args {
                if !has_no_instance(pattern, arg) {
                    return false;
                }
            }
            true
        }
    }
}

fn rules_match_nowhere(rules: &[Rule], t: &Term) -> bool
    ensures { IsTrue result ↔ HaveNoInstance (map rule_view rules.now) (view t.now) }
{
    for rule in rules {
        if !has_no_instance(&rule.left, t) {
            return false;
        }
    }
    true
}

/// Whether no left side of the system matches a subterm. Takes no memory.
#[tactic(auto, using(crate::proofs::Parts::normal_from, crate::proofs::Parts::normal_to))]
pub fn matches_nowhere(sys: &System, t: &Term) -> bool
    ensures { IsTrue result ↔ IsNormalForm sys.now (view t.now) }
{
    rules_match_nowhere(sys.rules(), t)
}
