//! Certificates behind steps that simplify the system.
ghost use Rattle.std.specs.Prelude.{map};
ghost use Rattle.rewriting.specs.Confluence.{IsConfluent};
ghost use Rattle.cert_model.specs.CertificateView.{simp_view, certificate_view};
ghost use Rattle.valid_certificates.specs.CarriedBack.{IsPeakApart};
ghost use Rattle.cert_check.specs.Kinds.{CanBeJudged};
ghost use Rattle.cert_check.specs.Answers.{StepsAnswer, VerdictAnswers, OnYes, OnNo};

use crate::{Verdict, judge_body};
use cert_model::{Certificate, Rejected, Simp};
use simplify::{SimplifyError, copied, simplify};
use std::alloc::Global;
use term_core::System;
use validity::CheckError;

/// The system that the steps leave.
pub fn system_behind(alloc: Global, sys: &System, steps: &[Simp]) -> Result<System, CheckError>
    ensures { StepsAnswer sys.now (map simp_view steps.now) result }
{
    match simplify(alloc, sys, steps) {
        Ok(last) => Ok(last),
        Err(SimplifyError::Fails { step, reason }) => {
            Err(CheckError::Rejected(Rejected::SimpFails { step, reason }))
        }
        Err(SimplifyError::NoMemory) => Err(CheckError::NoMemory),
    }
}

/// Makes the steps of each level, the outermost first, and judges the innermost body in the system that they leave.
/// The stack is as deep as for a body alone.
pub fn judge_behind(alloc: Global, sys: &System, cert: &Certificate) -> Result<Verdict, CheckError>
    requires { CanBeJudged sys.now (certificate_view cert.now) }
    ensures judged { VerdictAnswers sys.now (certificate_view cert.now) result }
    ensures yes { OnYes result (IsConfluent sys.now) }
    ensures no { OnNo result (IsPeakApart sys.now (certificate_view cert.now)) }
{
    let mut last = copied(alloc, sys)?;
    let mut body = cert;
    'levels: while let Certificate::Simplified { steps, body: inner } = body {
        last = system_behind(alloc, &last, steps)?;
        body = inner;
    }
    judge_body(alloc, &last, body)
}
