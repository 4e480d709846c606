//! The command selftest: does with a generated system what a user does with a file: it is written and read, a certificate is
//! searched for, and what is read of that one's text is checked.
ghost use Rattle.std.specs.Prelude.{◌≡◌, ◌≤◌, ℕ, [], IfOk, IfSome, IfNone, MatchOption, decimal};
ghost use Rattle.certificates.specs.Certificates as math;
ghost use Rattle.valid_certificates.specs.Certificates.{IsValid};
ghost use Rattle.cert_grammar.specs.Prelude.{second_version, CanBeSpelt};
ghost use Rattle.cert_model.specs.CertificateView.{certificate_view};
ghost use Rattle.cert_check.specs.Kinds.{verdict_of, CanBeJudged};
ghost use Rattle.search_spaces.specs.Ortho.{ortho_space};
ghost use Rattle.generated_systems.specs.Generated.{generated, generated_names};
ghost use Rattle.run_parts.specs.Words.{texts};
ghost use Rattle.concon_run.specs.Verdicts as verdicts;
ghost use Rattle.concon_run.specs.Replies.{reply_said};
ghost use Rattle.concon_run.specs.Said.{IsSaidIfMemory};
ghost use Rattle.concon_run.specs.Selftest.{IsSelftest, said_of_test, pair_count, tested_line, IsPassed};

use crate::answers::{status_of, verdict_word};
use crate::pieces::Piece;
use crate::reply::{Reply, answer, no_memory};
use cc_count::Budget;
use cert_check::{CheckError, Verdict, check};
use cert_model::Certificate;
use cert_text::{CertError, one_answer, one_certificate, read_cert, write_cert};
use cops_read::{Names, ReadError, one_reading, read_system};
use cops_write::write_system;
use generated_systems::{MOST_GENERATED, generated_systems_have_certificates};
use generator::system_of;
use portfolio::{Outcome, prove};
use run_parts::{budget_of, one_word};
use std::alloc::Global;
use term_core::{NoMemory, System};
use valid_certificates::certificates_have_one_answer;

// The number of a test that the word is in decimal, as a budget is.
fn test_number(word: &str) -> Option<u32>
    ensures { MatchOption result ((n : ℕ) → word.now ≡ decimal n → 1 ≤ n → n ≤ MOST_GENERATED → ⊥) (λ n. (word.now ≡ decimal n) × (1 ≤ n) × (n ≤ MOST_GENERATED)) }
{
    let n = budget_of(word)?;
    if n == 0 || n > MOST_GENERATED {
        None
    } else {
        Some(n as u32)
    }
}

/// The number of the test that the words ask for.
pub fn selftest_of(words: &[&str]) -> Option<u32>
    ensures found { IfSome result (IsSelftest (texts words.now)) }
    ensures none { IfNone result ((n : ℕ) → IsSelftest (texts words.now) n → ⊥) }
{
    let word = one_word(words, "selftest")?;
    test_number(word)
}

// How many units a test may spend.
const TEST_BUDGET: u64 = 1_000_000;

// What a test counted: the rules that were read, the entries of the certificate that was checked, with what it shows, and the
// units that were spent.
#[derive(Clone, Copy)]
struct Tested {
    rules: u64,
    pairs: u64,
    verdict: Verdict,
    steps: u64,
}

// The generated system with a number, as it is read from its text.
fn read_back(alloc: Global, n: u32) -> Result<(System, Names), NoMemory>
    requires least { 1 ≤ n }
    requires most { n ≤ MOST_GENERATED }
    ensures { IfOk result (λ p. (p.0 ≡ generated n) × (p.1 ≡ generated_names n)) }
{
    generator::written_is_read();
    one_reading();
    let (made, names) = system_of(alloc, n)?;
    let mut text = Vec::new(alloc);
    write_system(alloc, &names, &made, &mut text)?;
    match read_system(alloc, &text) {
        Ok(found) => Ok(found),
        Err(error) => match error {
            ReadError::NoMemory => Err(NoMemory),
            _ => unreachable!(),
        },
    }
}

// The certificate that the first space has within the budget, and what was spent.
fn find(alloc: Global, sys: &System, names: &Names) -> Result<(Certificate, u64), NoMemory>
    requires { (c : math.Certificate) × (n : ℕ) × (ortho_space names.now sys.now).Finds c n × (n ≤ TEST_BUDGET) }
    ensures found { (c : math.Certificate) (n : ℕ) → (ortho_space names.now sys.now).Finds c n → IfOk result (λ f. (certificate_view f.0 ≡ c) × (f.1 ≡ n)) }
    ensures valid { IfOk result (λ f. IsValid sys.now (certificate_view f.0)) }
{
    let mut budget = Budget::new(TEST_BUDGET);
    match prove(alloc, sys, names, &mut budget)? {
        Outcome::Found(cert) => Ok((cert, budget.spent())),
        Outcome::Exhausted => unreachable!(),
        Outcome::Spent => unreachable!(),
    }
}

// The certificate as it is read from its text.
fn reread(alloc: Global, names: &Names, cert: &Certificate) -> Result<Certificate, NoMemory>
    requires { CanBeSpelt second_version names.now (certificate_view cert.now) }
    ensures { IfOk result (λ c. certificate_view c ≡ certificate_view cert.now) }
{
    one_answer();
    one_certificate();
    cert_text::written_is_read();
    let mut text = Vec::new(alloc);
    write_cert(alloc, names, cert, &mut text)?;
    match read_cert(alloc, names, &text) {
        Ok(found) => Ok(found),
        Err(error) => match error {
            CertError::NoMemory => Err(NoMemory),
            _ => unreachable!(),
        },
    }
}

// What a valid certificate shows.
fn verdict_on(alloc: Global, sys: &System, cert: &Certificate) -> Result<Verdict, NoMemory>
    requires judged { CanBeJudged sys.now (certificate_view cert.now) }
    requires valid { IsValid sys.now (certificate_view cert.now) }
    ensures { IfOk result (λ v. v ≡ verdict_of (certificate_view cert.now)) }
{
    certificates_have_one_answer();
    match check(alloc, sys, cert) {
        Ok(verdict) => Ok(verdict),
        Err(CheckError::NoMemory) => Err(NoMemory),
        Err(CheckError::Rejected(_)) => unreachable!(),
    }
}

#[tactic(auto, using(cert_model::proofs::CertificateViews::ortho_shown, cert_model::proofs::CertificateViews::quasi_shown, cert_model::proofs::CertificateViews::peak_shown, cert_model::proofs::CertificateViews::simplified_shown))]
fn pair_count(cert: &Certificate) -> u64
    ensures { result ≡ pair_count (certificate_view cert.now) }
{
    match cert {
        Certificate::Ortho(pairs) => pairs.len() as u64,
        Certificate::Quasi(_, pairs) => pairs.len() as u64,
        Certificate::Peak(_) | Certificate::Simplified { .. } => 0,
    }
}

fn test(alloc: Global, n: u32) -> Result<Tested, NoMemory>
    requires least { 1 ≤ n }
    requires most { n ≤ MOST_GENERATED }
    ensures { IfOk result (IsPassed n) }
{
    generated_systems_have_certificates();
    let (sys, names) = read_back(alloc, n)?;
    let (found, steps) = find(alloc, &sys, &names)?;
    let cert = reread(alloc, &names, &found)?;
    let verdict = verdict_on(alloc, &sys, &cert)?;
    Ok(Tested {
        rules: sys.rules().len() as u64,
        pairs: pair_count(&cert),
        verdict,
        steps,
    })
}

// Says what a test counted.
fn tested_reply(alloc: Global, n: u32, tested: Tested) -> Reply
    ensures { IsSaidIfMemory (record { status = verdicts.status_of tested.verdict; out = tested_line n tested; err = [] }) (reply_said result) }
{
    answer(
        alloc,
        status_of(tested.verdict),
        &[
            Piece::Text(b"selftest "),
            Piece::Number(n),
            Piece::Text(b" rules "),
            Piece::Count(tested.rules),
            Piece::Text(b" pairs "),
            Piece::Count(tested.pairs),
            Piece::Text(b" answer "),
            Piece::Text(verdict_word(tested.verdict)),
            Piece::Text(b" steps "),
            Piece::Count(tested.steps),
            Piece::Text(b"\n"),
        ],
    )
}

/// Does the test with a number, and says what it counted.
pub fn selftest_reply(alloc: Global, n: u32) -> Reply
    requires least { 1 ≤ n }
    requires most { n ≤ MOST_GENERATED }
    ensures { IsSaidIfMemory (said_of_test n) (reply_said result) }
{
    match test(alloc, n) {
        Ok(tested) => tested_reply(alloc, n, tested),
        Err(NoMemory) => no_memory(),
    }
}
