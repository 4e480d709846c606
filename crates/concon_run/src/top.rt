//! All that the program does.
ghost use Rattle.std.specs.Prelude.{◌≡◌, ◌⊎◌, ℕ, List};
ghost use Rattle.cc_io.specs.Errors.{IsBegunIfAny};
ghost use Rattle.proof_spaces.specs.Proofs.{proof_space, pruned_proof_space};
ghost use Rattle.run_parts.specs.Devices.{shelf_run};
ghost use Rattle.run_parts.specs.Words.{texts};
ghost use Rattle.concon_run.specs.Check.{IsCheck, CheckIsExact, CheckIsComplete, IsOfCheck};
ghost use Rattle.concon_run.specs.Commands.{IsNoCommand, IsSaidFor, IsAnswered, usage_said};
ghost use Rattle.concon_run.specs.Prove.{IsProve, ProveIsExact, ProveIsComplete, ProofStandsBelow, IsOfProve};
ghost use Rattle.concon_run.specs.Query.{IsQuery, QueryIsExact, QueryIsComplete, AnswerStandsBelow, IsOfQuery};
ghost use Rattle.concon_run.specs.Replies.{reply_said};
ghost use Rattle.concon_run.specs.Rows.{YesIsSound, NoIsSound, IsYes, IsNo, IsUndecided, IsRejection, IsFileRefusal, IsCertificateRefusal, IsQueryRefusal, IsReadFault, IsWriteFault, IsWanting, IsRun};
ghost use Rattle.concon_run.specs.Run.{run_of};
ghost use Rattle.concon_run.specs.Selftest.{IsSelftest, TestIsExact};

use crate::check::check_reply;
use crate::commands::{Asked, asked_of};
use crate::prove::prove_reply;
use crate::queries::query_reply;
use crate::reply::{Reply, Text, deliver};
use crate::selftest::selftest_reply;
use crate::status::Status;
use cc_io::{Shelf, Sink};
use cert_text::one_answer;
use cops_read::one_reading;
use proof_spaces::proof_spaces_are_searchable;
use query_space::query_spaces_are_searchable;
use query_text::one_query;
use std::alloc::Global;
use valid_certificates::certificates_have_one_answer;

// Says how the program is used.
fn usage() -> Reply
    ensures { reply_said result ≡ usage_said }
{
    Reply {
        status: Status::Usage,
        to_out: false,
        text: Text::Fixed(
            b"usage: concon check FILE CERT\n       concon prove FILE [--budget N]\n       concon selftest N\n       concon query FILE QUERY [--budget N]\n",
        ),
    }
}

// What is to be said. Nothing has been written yet.
fn decide<S: Shelf>(alloc: Global, words: &[&str], shelf: &mut S) -> Reply
    ensures { IsSaidFor (texts words.now) (shelf_run S.Shelf shelf.old shelf.new) (reply_said result) }
{
    match asked_of(words) {
        Some(Asked::Check(check)) => check_reply(alloc, check, shelf),
        Some(Asked::Prove(prove)) => prove_reply(alloc, prove, shelf),
        Some(Asked::Selftest { n }) => selftest_reply(alloc, n),
        Some(Asked::Query(question)) => query_reply(alloc, question, shelf),
        None => usage(),
    }
}

// Answers, with all that it means.
fn run_known<S: Shelf, K: Sink, E: Sink>(
    alloc: Global,
    words: &[&str],
    shelf: &mut S,
    out: &mut K,
    err: &mut E,
) -> Status
    ensures { IsRun (run_of S.Shelf K.Sink E.Sink words.now result shelf.old shelf.new out.old out.new err.old err.new) }
{
    one_reading();
    one_answer();
    certificates_have_one_answer();
    proof_spaces_are_searchable();
    one_query();
    query_spaces_are_searchable();
    let reply = decide(alloc, words, shelf);
    deliver(&reply, out, err)
}

/// Does what the words say: `check FILE CERT` reads both files and writes the verdict; `prove FILE`, and `prove FILE --budget N`, reads the
/// file and searches for a certificate, and writes the answer and below it the certificate; `selftest N` makes a generated system, writes
/// and reads it, searches for a certificate, writes and reads that, checks it, and writes what it counted; `query FILE QUERY`, with or without
/// `--budget N`, reads the two and searches for evidence that the conditions are never met, or for values that meet them, and writes what it finds.
pub fn run<S: Shelf, K: Sink, E: Sink>(
    alloc: Global,
    words: &[&str],
    shelf: &mut S,
    out: &mut K,
    err: &mut E,
) -> Status
    // One answer is given, for its cause; out and err took its texts, or a proper front of the one that is not empty.
    ensures answer { IsAnswered (run_of S.Shelf K.Sink E.Sink words.now result shelf.old shelf.new out.old out.new err.old err.new) }
    // Where out grew by a text that begins with Y, the file's relation is confluent, and so is that of the system; of a query, no level and no substitution meet its conditions.
    ensures yes_is_sound { YesIsSound (run_of S.Shelf K.Sink E.Sink words.now result shelf.old shelf.new out.old out.new err.old err.new) }
    // Where out grew by a text that begins with N, some file term reaches two that have no common reduct, by the file's relation and by that of the system; of a
    // query, values meet its conditions at some level, as derivations show.
    ensures no_is_sound { NoIsSound (run_of S.Shelf K.Sink E.Sink words.now result shelf.old shelf.new out.old out.new err.old err.new) }
    // Where no fault of the shelf rose, the status and the texts are those of what the two texts come to, unless memory was refused.
    ensures exactly { CheckIsExact (run_of S.Shelf K.Sink E.Sink words.now result shelf.old shelf.new out.old out.new err.old err.new) }
    // A valid certificate is answered by what it shows.
    ensures complete { CheckIsComplete (run_of S.Shelf K.Sink E.Sink words.now result shelf.old shelf.new out.old out.new err.old err.new) }
    // Where no fault of the shelf rose, the status and the texts are those of what the search must come to, unless memory was refused.
    ensures searched { ProveIsExact pruned_proof_space (run_of S.Shelf K.Sink E.Sink words.now result shelf.old shelf.new out.old out.new err.old err.new) }
    // The same where the price is counted with each measure of the grid, which is no less.
    ensures searched_whole { ProveIsExact proof_space (run_of S.Shelf K.Sink E.Sink words.now result shelf.old shelf.new out.old out.new err.old err.new) }
    // A valid certificate that is searched for, with a price within the budget, is found.
    ensures enough { ProveIsComplete pruned_proof_space (run_of S.Shelf K.Sink E.Sink words.now result shelf.old shelf.new out.old out.new err.old err.new) }
    ensures enough_whole { ProveIsComplete proof_space (run_of S.Shelf K.Sink E.Sink words.now result shelf.old shelf.new out.old out.new err.old err.new) }
    // A test reads all rules of its system and all entries of its certificate, and spends exactly the price, unless memory was refused.
    ensures self_tested { TestIsExact (run_of S.Shelf K.Sink E.Sink words.now result shelf.old shelf.new out.old out.new err.old err.new) }
    // Where no fault of the shelf rose, the status and the texts are those of what the query must come to, unless memory was refused.
    ensures queried { QueryIsExact (run_of S.Shelf K.Sink E.Sink words.now result shelf.old shelf.new out.old out.new err.old err.new) }
    // A query that the space has a good answer to, with a price within the budget, is answered.
    ensures query_complete { QueryIsComplete (run_of S.Shelf K.Sink E.Sink words.now result shelf.old shelf.new out.old out.new err.old err.new) }
    // Under query, YES and NO stand above what shows them: the first good evidence, or the values and derivations of the first full substitution.
    ensures query_proved { AnswerStandsBelow (run_of S.Shelf K.Sink E.Sink words.now result shelf.old shelf.new out.old out.new err.old err.new) }
    ensures usage { result ≡ Status.Usage → IsNoCommand (texts words.now) }
    ensures usage_exactly { IsNoCommand (texts words.now) → (result ≡ Status.Usage) ⊎ (result ≡ Status.WriteFault) }
    ensures nothing_begun { IsNoCommand (texts words.now) → S.begun shelf.new ≡ S.begun shelf.old }
    ensures nothing_given { IsNoCommand (texts words.now) → S.given shelf.new ≡ S.given shelf.old }
    ensures test_begins_nothing { (n : ℕ) → IsSelftest (texts words.now) n → S.begun shelf.new ≡ S.begun shelf.old }
    ensures test_gives_nothing { (n : ℕ) → IsSelftest (texts words.now) n → S.given shelf.new ≡ S.given shelf.old }
    // A search begins no file but FILE, and a check none but FILE and CERT, whatever is answered.
    ensures search_begins_file { (file : List ℕ) (budget : ℕ) → IsProve (texts words.now) file budget → IsBegunIfAny file (S.begun shelf.new) }
    ensures check_begins_files { (file cert : List ℕ) → IsCheck (texts words.now) file cert → IsBegunIfAny file (S.begun shelf.new) ⊎ IsBegunIfAny cert (S.begun shelf.new) }
    ensures query_begins_files { (file query : List ℕ) (budget : ℕ) → IsQuery (texts words.now) file query budget →
        IsBegunIfAny file (S.begun shelf.new) ⊎ IsBegunIfAny query (S.begun shelf.new) }
    ensures file_refused { let run = run_of S.Shelf K.Sink E.Sink words.now result shelf.old shelf.new out.old out.new err.old err.new in
        result ≡ Status.FileRefused → IsFileRefusal run }
    ensures cert_refused { let run = run_of S.Shelf K.Sink E.Sink words.now result shelf.old shelf.new out.old out.new err.old err.new in
        result ≡ Status.CertRefused → IsCertificateRefusal run }
    ensures query_refused { let run = run_of S.Shelf K.Sink E.Sink words.now result shelf.old shelf.new out.old out.new err.old err.new in
        result ≡ Status.QueryRefused → IsQueryRefusal run }
    ensures rejected { let run = run_of S.Shelf K.Sink E.Sink words.now result shelf.old shelf.new out.old out.new err.old err.new in
        result ≡ Status.Rejected → IsRejection run }
    ensures yes { let run = run_of S.Shelf K.Sink E.Sink words.now result shelf.old shelf.new out.old out.new err.old err.new in
        result ≡ Status.Yes → IsYes run }
    ensures no { let run = run_of S.Shelf K.Sink E.Sink words.now result shelf.old shelf.new out.old out.new err.old err.new in
        result ≡ Status.No → IsNo run }
    // Under prove, YES and NO stand above the text of a certificate, which is valid and the first that is searched for.
    ensures proved { ProofStandsBelow (run_of S.Shelf K.Sink E.Sink words.now result shelf.old shelf.new out.old out.new err.old err.new) }
    // MAYBE exhausted only where nothing that is searched for is valid, behind standard steps too; MAYBE budget only where the price is greater than
    // the budget, and so are the price, and the sum of all that is searched, where nothing behind dead prefixes is tried.
    ensures undecided { let run = run_of S.Shelf K.Sink E.Sink words.now result shelf.old shelf.new out.old out.new err.old err.new in
        result ≡ Status.Maybe → IsUndecided run }
    ensures read_fault { let run = run_of S.Shelf K.Sink E.Sink words.now result shelf.old shelf.new out.old out.new err.old err.new in
        result ≡ Status.ReadFault → IsReadFault run }
    ensures write_fault { let run = run_of S.Shelf K.Sink E.Sink words.now result shelf.old shelf.new out.old out.new err.old err.new in
        result ≡ Status.WriteFault → IsWriteFault run }
    ensures no_memory { let run = run_of S.Shelf K.Sink E.Sink words.now result shelf.old shelf.new out.old out.new err.old err.new in
        result ≡ Status.NoMemory → IsWanting run }
    ensures of_check { (file cert : List ℕ) → IsCheck (texts words.now) file cert → IsOfCheck result }
    ensures of_query { (file query : List ℕ) (budget : ℕ) → IsQuery (texts words.now) file query budget → IsOfQuery result }
    ensures of_prove { (file : List ℕ) (budget : ℕ) → IsProve (texts words.now) file budget → IsOfProve result }
{
    run_known(alloc, words, shelf, out, err)
}
