//! Whether a conditional system is of a class, and the first rule by which it is not.
ghost use Rattle.std.specs.Prelude.{◌↔◌, IsTrue};
ghost use Rattle.rewriting.specs.Prelude.{IsRule, IsLeftLinear, IsType3, IsExtendedOriented, IsRightStable, IsDeterministic, EachRule};
ghost use Rattle.term_core.specs.RuleView.{rule_view};
ghost use Rattle.cert_model.specs.ReasonView.{class_view};
ghost use Rattle.certificates.specs.Blames.{IsInClass};
ghost use Rattle.ctrs_classes.specs.Faults.{FaultAnswers};
ghost use Rattle.ctrs_classes.specs.Answers.{WhyNotAnswers};

use crate::rules::{
    Fault, deterministic_fault, left_linear_fault, oriented_fault, right_stable_fault, type3_fault,
};
use cert_model::{Blame, Class};
use term_core::{Rule, System};

// What is at fault in a rule that is not in the class.
fn fault_of(sys: &System, class: Class, rule: &Rule) -> Option<Fault>
    requires { IsRule sys.now.arities (rule_view rule.now) }
    ensures { FaultAnswers sys.now (class_view class) (rule_view rule.now) result }
{
    match class {
        Class::LeftLinear => left_linear_fault(rule, sys),
        Class::Type3 => type3_fault(rule, sys),
        Class::ExtendedOriented => oriented_fault(rule, sys),
        Class::RightStable => right_stable_fault(rule, sys),
        Class::Deterministic => deterministic_fault(rule, sys),
    }
}

/// The first rule that is not in the class, with the condition and the variable at fault (Ohlebusch,
/// chapter 7; Suzuki, Middeldorp, Ida 1995). Takes no memory.
pub fn why_not(sys: &System, class: Class) -> Option<Blame>
    ensures { WhyNotAnswers sys.now (class_view class) result }
{
    for (i, rule) in sys.rules().iter().enumerate() {
        if let Some(fault) = fault_of(sys, class, rule) {
            return Some(Blame {
                class,
                rule: i as u32 + 1,
                cond: fault.cond,
                variable: fault.variable,
            });
        }
    }
    None
}

// Whether every rule is in the class.
fn holds(sys: &System, class: Class) -> bool
    ensures { IsTrue result ↔ EachRule sys.now (λ r. IsInClass sys.now (class_view class) r) }
{
    match why_not(sys, class) {
        Some(_) => false,
        None => true,
    }
}

/// Whether every left side is linear.
pub fn is_left_linear(sys: &System) -> bool
    ensures { IsTrue result ↔ IsLeftLinear sys.now }
{
    holds(sys, Class::LeftLinear)
}

/// Whether every variable of a right side occurs in the left side or in a condition.
pub fn is_type3(sys: &System) -> bool
    ensures { IsTrue result ↔ IsType3 sys.now }
{
    holds(sys, Class::Type3)
}

/// Whether every rule is extended properly oriented.
pub fn is_extended_oriented(sys: &System) -> bool
    ensures { IsTrue result ↔ IsExtendedOriented sys.now }
{
    holds(sys, Class::ExtendedOriented)
}

/// Whether every rule is right-stable.
pub fn is_right_stable(sys: &System) -> bool
    ensures { IsTrue result ↔ IsRightStable sys.now }
{
    holds(sys, Class::RightStable)
}

/// Whether every rule is deterministic.
pub fn is_deterministic(sys: &System) -> bool
    ensures { IsTrue result ↔ IsDeterministic sys.now }
{
    holds(sys, Class::Deterministic)
}
