//! Certificates on one line, and whether they have a text.
use cert_limits::has_text;
use cert_model::Certificate;
use cert_text::{read_cert, write_cert};
use cops_read::{Names, read_system};
use std::alloc::{AllocError, Global};

/// The text of the certificate, with a slash for each line end.
pub fn on_one_line(alloc: Global, names: &Names, cert: &Certificate) -> Result<String, AllocError> {
    let mut bytes = Vec::new(alloc);
    if write_cert(alloc, names, cert, &mut bytes).is_err() {
        return String::from_str(alloc, "no memory");
    }
    std::str::from_utf8(&bytes)
        .unwrap_or("?")
        .replace(alloc, "\n", "/")
}

/// Whether a certificate, read with the names of one file, has a text with the names of another.
pub fn of_certificate(alloc: Global, rest: &str) -> Result<String, AllocError> {
    let mut parts = rest.split("; ");
    let first = read_system(alloc, parts.next().unwrap_or("").as_bytes());
    let second = read_system(alloc, parts.next().unwrap_or("").as_bytes());
    let text = parts.next().unwrap_or("").replace(alloc, "/", "\n")?;
    let (Ok((_, names)), Ok((_, others))) = (first, second) else {
        return String::from_str(alloc, "no system");
    };
    match read_cert(alloc, &names, text.as_bytes()) {
        Ok(cert) => {
            let answer = match has_text(alloc, &others, &cert) {
                Ok(true) => "a text",
                Ok(false) => "none",
                Err(_) => "no memory",
            };
            String::from_str(alloc, answer)
        }
        Err(e) => format!(in alloc; "{e}"),
    }
}
