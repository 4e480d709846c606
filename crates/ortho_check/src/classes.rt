//! The classes that the system of the certificate is to be in: left-linear, of type 3, extended properly oriented and right-stable.
ghost use Rattle.cert_model.specs.ReasonView.{class_view};
ghost use Rattle.ortho_check.specs.Answers.{ClassAnswers, ClassesAnswer};

use cert_model::{Class, Rejected};
use ctrs_classes::why_not;
use term_core::System;
use validity::CheckError;

// That every rule is in the class.
fn check_class(sys: &System, class: Class) -> Result<(), CheckError>
    ensures { ClassAnswers sys.now (class_view class) result }
{
    match why_not(sys, class) {
        None => Ok(()),
        Some(blame) => Err(CheckError::Rejected(Rejected::ClassFails(blame))),
    }
}

// That the system is left-linear, of type 3, extended properly oriented and right-stable.
pub(crate) fn check_classes(sys: &System) -> Result<(), CheckError>
    ensures { ClassesAnswer sys.now result }
{
    check_class(sys, Class::LeftLinear)?;
    check_class(sys, Class::Type3)?;
    check_class(sys, Class::ExtendedOriented)?;
    check_class(sys, Class::RightStable)
}
