//! Certificates behind two levels of steps that simplify the system.
ghost use Rattle.std.specs.Prelude.{◌≡◌, IfOk, map};
ghost use Rattle.certificates.specs.Certificates.{simplified_certificate};
ghost use Rattle.cert_model.specs.CertificateView.{simp_view, certificate_view};
ghost use Rattle.cert_grammar.specs.CertificateText.{IsWithin};

use cert_check::{CheckError, Verdict, check};
use cert_model::{Certificate, InfEvidence, Simp};
use cert_text::read_cert;
use cops_read::{Names, one_reading, read_system};
use std::alloc::{AllocError, Global};
use std::io;
use term_core::{NoMemory, System};

// The step of some words: `drop I` by caps, or `inline I K`.
fn step_of(text: &str) -> Option<Simp> {
    let mut words = text.split_whitespace();
    let kind = words.next()?;
    let rule = words.next()?.parse::<u32>().ok()?;
    if kind == "drop" {
        let evidence = InfEvidence::Tcap;
        return Some(Simp::Drop { rule, evidence });
    }
    let cond = words.next()?.parse::<u32>().ok()?;
    Some(Simp::Inline { rule, cond })
}

// The steps of some words, with commas between; other words are no step.
fn steps_of(alloc: Global, text: &str) -> Result<Vec<Simp>, AllocError> {
    let mut steps = Vec::new(alloc);
    for piece in text.split(',') {
        if let Some(step) = step_of(piece) {
            steps.push(step)?;
        }
    }
    Ok(steps)
}

// The body behind some steps.
fn simplified(alloc: Global, steps: Vec<Simp>, body: Certificate) -> Result<Certificate, NoMemory>
    ensures { IfOk result (λ c. certificate_view c ≡ simplified_certificate (map simp_view steps.items) (certificate_view body)) }
{
    match Box::new(alloc, body) {
        Ok(body) => Ok(Certificate::Simplified { steps, body }),
        Err(_) => Err(NoMemory),
    }
}

// What is answered to the body of a text behind two lists of steps.
fn judged(
    alloc: Global,
    sys: &System,
    names: &Names,
    steps: (Vec<Simp>, Vec<Simp>),
    body: Certificate,
) -> Result<Verdict, CheckError>
    requires named { sys.now.arities ≡ map (λ s. s.1) names.now.symbols }
    requires spelt { IsWithin names.now (certificate_view body) }
{
    sys.rules_are_sound();
    let (outer, inner) = steps;
    let within = simplified(alloc, inner, body)?;
    let cert = simplified(alloc, outer, within)?;
    check(alloc, sys, &cert)
}

/// What is answered to `FILE & STEPS & STEPS & CERTIFICATE`, the certificate with a slash at each line's end: it is the body of
/// one behind the second steps, and that the body of one behind the first.
pub fn print_behind(rt: &HostRuntime, text: &str) -> io::Result<()> {
    one_reading();
    let alloc = rt.alloc();
    let (file, rest) = text.split_once(" & ").unwrap_or((text, ""));
    let (outer, rest) = rest.split_once(" & ").unwrap_or((rest, ""));
    let (inner, short) = rest.split_once(" & ").unwrap_or((rest, ""));
    let cert = short.replace(alloc, "/", "\n")?;
    let Ok((sys, names)) = read_system(alloc, file.as_bytes()) else {
        return println!(rt; "no system");
    };
    let Ok(body) = read_cert(alloc, &names, cert.as_bytes()) else {
        return println!(rt; "no certificate");
    };
    let steps = (steps_of(alloc, outer)?, steps_of(alloc, inner)?);
    println!(rt; "{:?}", judged(alloc, &sys, &names, steps, body))
}
