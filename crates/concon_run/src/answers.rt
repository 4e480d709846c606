//! What is said of a verdict.
ghost use Rattle.std.specs.Prelude.{◌≡◌};
ghost use Rattle.concon_run.specs.Verdicts as verdicts;
ghost use Rattle.concon_run.specs.Verdicts.{verdict_word};

use crate::status::Status;
use cert_check::Verdict;

/// The status of a verdict.
pub fn status_of(verdict: Verdict) -> Status
    ensures { result ≡ verdicts.status_of verdict }
{
    match verdict {
        Verdict::Yes => Status::Yes,
        Verdict::No => Status::No,
    }
}

/// The word that is the answer.
pub fn verdict_word(verdict: Verdict) -> &'static [u8]
    ensures { result.now ≡ verdict_word verdict }
{
    match verdict {
        Verdict::Yes => b"YES",
        Verdict::No => b"NO",
    }
}
