//! Certificates behind the steps that simplify a system.
use cert_model::{Certificate, InfEvidence, Simp};
use std::alloc::Global;
use term_core::NoMemory;

fn copied_evidence(alloc: Global, evidence: &InfEvidence) -> Result<InfEvidence, NoMemory> {
    match evidence {
        InfEvidence::Tcap => Ok(InfEvidence::Tcap),
        InfEvidence::Auto { cond, automaton } => Ok(InfEvidence::Auto {
            cond: *cond,
            automaton: automaton.try_clone(alloc)?,
        }),
    }
}

fn copied_step(alloc: Global, step: &Simp) -> Result<Simp, NoMemory> {
    match step {
        Simp::Drop { rule, evidence } => Ok(Simp::Drop {
            rule: *rule,
            evidence: copied_evidence(alloc, evidence)?,
        }),
        Simp::Inline { rule, cond } => Ok(Simp::Inline {
            rule: *rule,
            cond: *cond,
        }),
    }
}

fn copied_steps(alloc: Global, steps: &[Simp]) -> Result<Vec<Simp>, NoMemory> {
    let mut copies = Vec::with_capacity(alloc, steps.len())?;
    'steps: for step in steps {
        copies.push(copied_step(alloc, step)?)?;
    }
    Ok(copies)
}

/// The body behind the steps; the body alone, where there are none.
pub(crate) fn behind(
    alloc: Global,
    steps: &[Simp],
    body: Certificate,
) -> Result<Certificate, NoMemory> {
    if steps.is_empty() {
        return Ok(body);
    }
    let body = Box::new(alloc, body)?;
    Ok(Certificate::Simplified {
        steps: copied_steps(alloc, steps)?,
        body,
    })
}
