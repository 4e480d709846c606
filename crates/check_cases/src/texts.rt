//! Texts of certificates, judged as they are read.

use crate::foreign::with_foreign_rules;
use cert_check::check_bytes;
use cops_read::{one_reading, read_system};
use std::io;

/// What is answered to `FILE & CERTIFICATE`, the certificate with a slash at each line's end; where it is asked for, of the
/// file's symbols with foreign rules.
pub fn print_text(rt: &HostRuntime, text: &str, is_foreign: bool) -> io::Result<()> {
    one_reading();
    let alloc = rt.alloc();
    let (file, short) = text.split_once(" & ").unwrap_or((text, ""));
    let cert = short.replace(alloc, "/", "\n")?;
    let Ok((sys, names)) = read_system(alloc, file.as_bytes()) else {
        return println!(rt; "no system");
    };
    if !is_foreign {
        return println!(rt; "{:?}", check_bytes(alloc, &sys, &names, cert.as_bytes()));
    }
    let Ok(other) = with_foreign_rules(alloc, &sys) else {
        return println!(rt; "no other system");
    };
    println!(rt; "{:?}", check_bytes(alloc, &other, &names, cert.as_bytes()))
}
