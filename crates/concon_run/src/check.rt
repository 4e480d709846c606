//! The command check: reads the two texts, judges the certificate, and says what came of it.
ghost use Rattle.std.specs.Prelude.{ℕ, List, IfSome, IfNone, Err};
ghost use Rattle.std.specs.Option.{option_copied};
ghost use Rattle.cc_io.specs.Errors.{IsBegunIfAny};
ghost use Rattle.cc_io.specs.Faults.{Rose};
ghost use Rattle.cert_model.specs.ReasonView.{rejected_view};
ghost use Rattle.cops_read.specs.File.{IsFile};
ghost use Rattle.run_parts.specs.Devices.{shelf_run};
ghost use Rattle.run_parts.specs.Bytes.{told_or_any};
ghost use Rattle.run_parts.specs.Words.{texts};
ghost use Rattle.concon_run.specs.Check.{IsCheck, IsCheckAnswer, BeginsForCheck, said_of_check};
ghost use Rattle.concon_run.specs.Checking.{CertificateAnswers, check_answer, rejected_said};
ghost use Rattle.concon_run.specs.Commands.{IsSaidTo, Command};
ghost use Rattle.concon_run.specs.Replies.{reply_said, said_if_any};
ghost use Rattle.concon_run.specs.Said.{IsSaidIfMemory};

use crate::answers::status_of;
use crate::files::{NoSystem, no_system_reply, system_of};
use crate::refusals::{refused, unread};
use crate::rejections::rejection_line;
use crate::reply::{Reply, Text, no_memory};
use crate::status::Status;
use cc_io::{ReadAllError, Shelf, read_all};
use cert_check::{BytesError, Verdict, check_bytes};
use cert_model::Rejected;
use cert_text::CertError;
use cops_read::{Names, one_reading};
use refusal_texts::cert_refusal;
use run_parts::{CERT_LIMIT, two_words, verdict_line};
use std::alloc::{AllocError, Global};
use term_core::System;

/// The certificate of a file is to be checked.
#[derive(Clone, Copy)]
pub struct Check<'a> {
    pub file: &'a str,
    pub cert: &'a str,
}

/// The check that the words ask for.
pub fn check_of<'a>(words: &[&'a str]) -> Option<Check<'a>>
    ensures found { IfSome result (λ check. IsCheck (texts words.now) check.file.now check.cert.now) }
    ensures none { IfNone result ((file cert : List ℕ) → IsCheck (texts words.now) file cert → ⊥) }
{
    let (file, cert) = two_words(words, "check")?;
    Some(Check { file, cert })
}

/// Why there is no verdict.
#[derive(Drop)]
pub enum NoVerdict {
    /// The file gives no system.
    NoSystem(NoSystem),
    /// The certificate was not read whole.
    CertUnread(ReadAllError),
    /// The certificate is no text of one.
    CertRefused(CertError),
    /// The certificate is not valid; the names are those of the file, where its rules are judged: none of a body behind steps.
    Rejected(Option<Names>, Rejected),
    /// Memory was refused.
    NoMemory,
}

// What the certificate shows. Its bytes alone are held, and not its entries.
fn verdict_on<S: Shelf>(
    alloc: Global,
    shelf: &mut S,
    cert: &str,
    sys: &System,
    names: Names,
) -> Result<Verdict, NoVerdict>
    requires { (file : List ℕ) × IsFile file sys.now names }
    ensures answers { CertificateAnswers (told_or_any (S.contents shelf.old cert.now)) (Rose (S.faults shelf.old cert.now) (S.faults shelf.new cert.now)) sys.now names result }
    ensures begun { IsBegunIfAny cert.now (S.begun shelf.new) }
{
    one_reading();
    let bytes = match read_all(alloc, shelf, cert, CERT_LIMIT) {
        Ok(bytes) => bytes,
        Err(error) => return Err(NoVerdict::CertUnread(error)),
    };
    match check_bytes(alloc, sys, &names, &bytes) {
        Ok(verdict) => Ok(verdict),
        Err(BytesError::Cert(error)) => Err(NoVerdict::CertRefused(error)),
        Err(BytesError::Rejected(reason)) => Err(NoVerdict::Rejected(Some(names), reason)),
        Err(BytesError::RejectedBehindSteps(reason)) => Err(NoVerdict::Rejected(None, reason)),
        Err(BytesError::NoMemory) => Err(NoVerdict::NoMemory),
    }
}

// Reads the file, then the certificate, and checks it: what it shows, or the first thing that stood in the way.
fn judge<S: Shelf>(
    alloc: Global,
    shelf: &mut S,
    file: &str,
    cert: &str,
) -> Result<Verdict, NoVerdict>
    ensures answers { IfSome (check_answer result) (IsCheckAnswer (shelf_run S.Shelf shelf.old shelf.new) file.now cert.now) }
    ensures begins { BeginsForCheck (shelf_run S.Shelf shelf.old shelf.new) file.now cert.now }
{
    let (sys, names) = match system_of(alloc, shelf, file) {
        Ok(found) => found,
        Err(why) => return Err(NoVerdict::NoSystem(why)),
    };
    verdict_on(alloc, shelf, cert, &sys, names)
}

// Says why a certificate is rejected.
fn rejected(alloc: Global, names: Option<&Names>, reason: &Rejected) -> Reply
    ensures { IsSaidIfMemory (rejected_said (option_copied names.entry) (rejected_view reason.now)) (reply_said result) }
{
    match rejection_line(alloc, names, reason) {
        Ok(line) => Reply {
            status: Status::Rejected,
            to_out: true,
            text: Text::Made(line),
        },
        Err(AllocError) => no_memory(),
    }
}

fn no_verdict_reply(alloc: Global, check: Check, why: &NoVerdict) -> Reply
    ensures { IsSaidIfMemory (said_if_any (said_of_check check.entry.file.now check.entry.cert.now) (check_answer (Err why.now))) (reply_said result) }
{
    match why {
        NoVerdict::NoSystem(error) => no_system_reply(alloc, check.file, error),
        NoVerdict::CertUnread(error) => unread(
            alloc,
            check.cert,
            error,
            Status::CertRefused,
            CERT_LIMIT,
        ),
        NoVerdict::CertRefused(error) => refused(
            alloc,
            Status::CertRefused,
            check.cert,
            cert_refusal(error),
        ),
        NoVerdict::Rejected(names, reason) => rejected(alloc, names.as_ref(), reason),
        NoVerdict::NoMemory => no_memory(),
    }
}

fn judged_reply(alloc: Global, check: Check, judged: &Result<Verdict, NoVerdict>) -> Reply
    ensures { IsSaidIfMemory (said_if_any (said_of_check check.entry.file.now check.entry.cert.now) (check_answer judged.now)) (reply_said result) }
{
    match judged {
        Ok(verdict) => Reply {
            status: status_of(*verdict),
            to_out: true,
            text: Text::Fixed(verdict_line(*verdict)),
        },
        Err(why) => no_verdict_reply(alloc, check, why),
    }
}

/// Checks the certificate, and says what came of it.
pub fn check_reply<S: Shelf>(alloc: Global, check: Check, shelf: &mut S) -> Reply
    ensures { IsSaidTo (shelf_run S.Shelf shelf.old shelf.new) (Command.check check.entry.file.now check.entry.cert.now) (reply_said result) }
{
    let judged = judge(alloc, shelf, check.file, check.cert);
    judged_reply(alloc, check, &judged)
}
