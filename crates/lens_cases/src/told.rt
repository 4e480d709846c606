//! Pages of certificates. A line of `told.txt` names a system and a certificate, which may have the same name: `tell` prints the certificate in
//! words, or where it breaks if the check rejects it, and `draw` the picture.
ghost use Rattle.std.specs.Prelude.{◌≡◌, map};

use cert_check::{BytesError, Verdict, check_bytes};
use cert_text::read_cert;
use cops_read::{Names, one_reading, read_system};
use std::alloc::Global;
use std::{fs, io};
use term_core::{NoMemory, System};
use told_certificates::{svg, tell, tell_rejected};

// The page of a certificate, or where it breaks.
fn page_of(
    alloc: Global,
    sys: &System,
    names: &Names,
    text: &[u8],
    call: &str,
) -> Result<Vec<u8>, NoMemory>
    requires { sys.now.arities ≡ map (λ s. s.1) names.now.symbols }
{
    let Ok(cert) = read_cert(alloc, names, text) else {
        return Ok(Vec::from_slice(alloc, b"no certificate\n")?);
    };
    if call == "draw" {
        return svg(alloc, sys, names, &cert);
    }
    match check_bytes(alloc, sys, names, text) {
        Ok(Verdict::Yes | Verdict::No) => tell(alloc, sys, names, &cert),
        Err(BytesError::Rejected(reason) | BytesError::RejectedBehindSteps(reason)) => {
            tell_rejected(alloc, sys, names, &cert, &reason)
        }
        Err(_) => Ok(Vec::from_slice(alloc, b"not judged\n")?),
    }
}

fn print_page(rt: &HostRuntime, call: &str, file: &[u8], text: &[u8]) -> io::Result<()> {
    one_reading();
    let alloc = rt.alloc();
    let Ok((sys, names)) = read_system(alloc, file) else {
        return println!(rt; "no system");
    };
    let Ok(page) = page_of(alloc, &sys, &names, text, call) else {
        return println!(rt; "no memory");
    };
    let told = std::str::from_utf8(&page).unwrap_or("no text");
    println!(rt; "{told}")
}

fn print_line(rt: &HostRuntime, line: &str) -> io::Result<()> {
    println!(rt; "== {line}")?;
    let (call, rest) = line.split_once(' ').unwrap_or((line, ""));
    let (system, certificate) = rest.split_once(' ').unwrap_or((rest, rest));
    let system = format!(in rt.alloc(); "{system}.trs")?;
    let certificate = format!(in rt.alloc(); "{certificate}.crt")?;
    let file = fs::read(rt, system.as_str())?;
    let text = fs::read(rt, certificate.as_str())?;
    print_page(rt, call, &file, &text)
}

/// Prints the pages.
pub fn print_pages(rt: &HostRuntime) -> io::Result<()> {
    let text = fs::read_to_string(rt, "told.txt")?;
    for line in text.as_str().lines() {
        print_line(rt, line)?;
    }
    Ok(())
}
