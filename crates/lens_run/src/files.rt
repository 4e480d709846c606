//! Reads the files, and says why one gives nothing.
ghost use Rattle.std.specs.Prelude.{◌≡◌, ◌≤◌, List, ℕ, IfOk, IfErr};
ghost use Rattle.cc_io.specs.Faults.{Rose};
ghost use Rattle.cert_model.specs.CertificateView.{certificate_view};
ghost use Rattle.run_parts.specs.Bytes.{told_or_any, SpellsSystem, SpellsCertificate};
ghost use Rattle.lens_run.specs.Runs.{NoSystemSaid, NoCertSaid, IsAriSaid};
ghost use Rattle.lens_run.specs.Said.{reply_said};

use crate::ari::ari_refusal;
use crate::refusals::{refused, unread};
use crate::reply::Reply;
use crate::status::Status;
use ari_text::ari_to_cops;
use cc_io::{Shelf, read_all};
use cert_model::Certificate;
use cert_text::read_cert;
use cops_names::Names;
use cops_read::read_system;
use refusal_texts::{cert_refusal, file_refusal};
use run_parts::{CERT_LIMIT, FILE_LIMIT};
use std::alloc::Global;
use term_core::System;

const MOST_OF_FILE: &[u8] = b"a file has at most 1,048,576 bytes\n";

const MOST_OF_CERT: &[u8] = b"a certificate has at most 67,108,864 bytes\n";

/// The system that the file spells, with its names; or what is said where there is none.
pub fn system_of<S: Shelf>(
    alloc: Global,
    shelf: &mut S,
    file: &str,
) -> Result<(System, Names), Reply>
    ensures found { IfOk result (λ s. SpellsSystem (told_or_any (S.contents shelf.old file.now)) s.0 s.1) }
    ensures none { IfErr result (λ reply. NoSystemSaid (told_or_any (S.contents shelf.old file.now)) (Rose (S.faults shelf.old file.now) (S.faults shelf.new file.now)) file.now (reply_said reply)) }
    ensures contents { S.contents shelf.new ≡ S.contents shelf.old }
    ensures never_falls { (name : List ℕ) → S.faults shelf.old name ≤ S.faults shelf.new name }
{
    let bytes = match read_all(alloc, shelf, file, FILE_LIMIT) {
        Ok(bytes) => bytes,
        Err(error) => return Err(unread(alloc, file, &error, Status::FileRefused, MOST_OF_FILE)),
    };
    match read_system(alloc, &bytes) {
        Ok(found) => Ok(found),
        Err(error) => Err(refused(
            alloc,
            Status::FileRefused,
            file,
            &bytes,
            file_refusal(&error),
        )),
    }
}

/// The certificate that the file spells with these names; or what is said where there is none.
pub fn certificate_of<S: Shelf>(
    alloc: Global,
    shelf: &mut S,
    cert: &str,
    names: &Names,
) -> Result<Certificate, Reply>
    ensures found { IfOk result (λ c. SpellsCertificate (told_or_any (S.contents shelf.old cert.now)) names.now (certificate_view c)) }
    ensures none { IfErr result (λ reply. NoCertSaid (told_or_any (S.contents shelf.old cert.now)) names.now (Rose (S.faults shelf.old cert.now) (S.faults shelf.new cert.now)) cert.now (reply_said reply)) }
    ensures never_falls { (name : List ℕ) → S.faults shelf.old name ≤ S.faults shelf.new name }
{
    let bytes = match read_all(alloc, shelf, cert, CERT_LIMIT) {
        Ok(bytes) => bytes,
        Err(error) => return Err(unread(alloc, cert, &error, Status::CertRefused, MOST_OF_CERT)),
    };
    match read_cert(alloc, names, &bytes) {
        Ok(found) => Ok(found),
        Err(error) => Err(refused(
            alloc,
            Status::CertRefused,
            cert,
            &bytes,
            cert_refusal(&error),
        )),
    }
}

/// The text of the system that a file in the other format spells; or what is said where there is none.
pub fn text_of_ari<S: Shelf>(alloc: Global, shelf: &mut S, file: &str) -> Reply
    ensures { IsAriSaid (told_or_any (S.contents shelf.old file.now)) (Rose (S.faults shelf.old file.now) (S.faults shelf.new file.now)) file.now (reply_said result) }
{
    let bytes = match read_all(alloc, shelf, file, FILE_LIMIT) {
        Ok(bytes) => bytes,
        Err(error) => return unread(alloc, file, &error, Status::FileRefused, MOST_OF_FILE),
    };
    match ari_to_cops(alloc, &bytes) {
        Ok(text) => Reply::Page(text),
        Err(error) => refused(
            alloc,
            Status::FileRefused,
            file,
            &bytes,
            ari_refusal(&error),
        ),
    }
}
