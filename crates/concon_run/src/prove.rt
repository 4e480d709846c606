//! The command prove: reads a file, searches for a certificate, and says what came of it.
ghost use Rattle.std.specs.Prelude.{ℕ, List, Err, IfSome, IfNone};
ghost use Rattle.cc_io.specs.Errors.{IsBegunIfAny};
ghost use Rattle.cert_model.specs.CertificateView.{certificate_view};
ghost use Rattle.cops_read.specs.File.{IsFile};
ghost use Rattle.run_parts.specs.Answers.{proof_text};
ghost use Rattle.run_parts.specs.Devices.{shelf_run};
ghost use Rattle.run_parts.specs.Words.{texts};
ghost use Rattle.concon_run.specs.Commands.{IsSaidTo, Command};
ghost use Rattle.concon_run.specs.Prove as outcome;
ghost use Rattle.concon_run.specs.Prove.{IsProve, IsProveAnswer, said_of_search, said_of_prove};
ghost use Rattle.concon_run.specs.Proving.{SearchAnswers, outcome_of, prove_answer};
ghost use Rattle.concon_run.specs.Replies.{reply_said, said_if_any};
ghost use Rattle.concon_run.specs.Said.{IsSaidIfMemory};

use crate::answers::status_of;
use crate::files::{NoSystem, no_system_reply, system_of};
use crate::reply::{Reply, Text, no_memory};
use crate::status::Status;
use cc_count::Budget;
use cc_io::Shelf;
use cert_model::Certificate;
use cops_read::{Names, one_reading};
use join_systems::join_systems_keep_their_rules;
use ortho_check::valid_certificates_are_confluent;
use portfolio::{Outcome, prove};
use proof_spaces::proof_spaces_are_searchable;
use quasi_check::valid_measured_systems_are_confluent;
use run_parts::{USUAL_BUDGET, around_option, budget_of, one_word, proof_text, verdict_of};
use std::alloc::Global;
use term_core::{NoMemory, System};
use valid_certificates::valid_peaks_reach_apart;

/// A certificate for a file is to be found.
#[derive(Clone, Copy)]
pub struct Prove<'a> {
    pub file: &'a str,
    pub budget: u64,
}

/// The search that the words ask for.
pub fn prove_of<'a>(words: &[&'a str]) -> Option<Prove<'a>>
    ensures found { IfSome result (λ prove. IsProve (texts words.now) prove.file.now prove.budget) }
    ensures none { IfNone result ((file : List ℕ) (budget : ℕ) → IsProve (texts words.now) file budget → ⊥) }
{
    if let Some(file) = one_word(words, "prove") {
        return Some(Prove {
            file,
            budget: USUAL_BUDGET,
        });
    }
    let (file, number) = around_option(words, "prove", "--budget")?;
    let budget = budget_of(number)?;
    Some(Prove { file, budget })
}

/// How a search ended, with the names of the file.
#[derive(Drop)]
pub struct Searched {
    pub names: Names,
    pub outcome: Outcome,
}

/// Why there was no search.
#[derive(Drop)]
pub enum NoOutcome {
    /// The file gives no system.
    NoSystem(NoSystem),
    /// Memory was refused.
    NoMemory,
}

fn outcome_within(
    alloc: Global,
    sys: &System,
    names: &Names,
    units: u64,
) -> Result<Outcome, NoMemory>
    requires { (file : List ℕ) × IsFile file sys.now names.now }
    ensures { SearchAnswers sys.now names.now units result }
{
    one_reading();
    join_systems_keep_their_rules();
    proof_spaces_are_searchable();
    valid_certificates_are_confluent();
    valid_measured_systems_are_confluent();
    valid_peaks_reach_apart();
    sys.rules_are_sound();
    let mut budget = Budget::new(units);
    prove(alloc, sys, names, &mut budget)
}

// Reads the file, and searches within a budget for a certificate: how that ended, or the first thing that stood in the way.
fn search<S: Shelf>(
    alloc: Global,
    shelf: &mut S,
    file: &str,
    budget: u64,
) -> Result<Searched, NoOutcome>
    ensures answers { IfSome (prove_answer result) (IsProveAnswer (shelf_run S.Shelf shelf.old shelf.new) file.now budget) }
    ensures begun { IsBegunIfAny file.now (S.begun shelf.new) }
{
    let (sys, names) = match system_of(alloc, shelf, file) {
        Ok(found) => found,
        Err(why) => return Err(NoOutcome::NoSystem(why)),
    };
    match outcome_within(alloc, &sys, &names, budget) {
        Ok(outcome) => Ok(Searched { names, outcome }),
        Err(NoMemory) => Err(NoOutcome::NoMemory),
    }
}

fn found_reply(alloc: Global, names: &Names, cert: &Certificate) -> Reply
    ensures { (file : List ℕ) → IsSaidIfMemory (said_of_search file (outcome.found names.now (certificate_view cert.now))) (reply_said result) }
{
    match proof_text(alloc, names, cert) {
        Ok(text) => Reply {
            status: status_of(verdict_of(cert)),
            to_out: true,
            text: Text::Made(text),
        },
        Err(NoMemory) => no_memory(),
    }
}

fn outcome_reply(alloc: Global, names: &Names, outcome: &Outcome) -> Reply
    ensures { (file : List ℕ) → IsSaidIfMemory (said_of_search file (outcome_of names.now outcome.now)) (reply_said result) }
{
    match outcome {
        Outcome::Found(cert) => found_reply(alloc, names, cert),
        Outcome::Exhausted => Reply {
            status: Status::Maybe,
            to_out: true,
            text: Text::Fixed(b"MAYBE exhausted\n"),
        },
        Outcome::Spent => Reply {
            status: Status::Maybe,
            to_out: true,
            text: Text::Fixed(b"MAYBE budget\n"),
        },
    }
}

// Says why there was no search.
fn no_outcome_reply(alloc: Global, prove: Prove, why: &NoOutcome) -> Reply
    ensures { IsSaidIfMemory (said_if_any (said_of_prove prove.entry.file.now) (prove_answer (Err why.now))) (reply_said result) }
{
    match why {
        NoOutcome::NoSystem(error) => no_system_reply(alloc, prove.file, error),
        NoOutcome::NoMemory => no_memory(),
    }
}

// Says how a search ended, or why there was none.
fn searched_reply(alloc: Global, prove: Prove, searched: &Result<Searched, NoOutcome>) -> Reply
    ensures { IsSaidIfMemory (said_if_any (said_of_prove prove.entry.file.now) (prove_answer searched.now)) (reply_said result) }
{
    match searched {
        Ok(ended) => outcome_reply(alloc, &ended.names, &ended.outcome),
        Err(why) => no_outcome_reply(alloc, prove, why),
    }
}

/// Searches for a certificate, and says what came of it.
pub fn prove_reply<S: Shelf>(alloc: Global, prove: Prove, shelf: &mut S) -> Reply
    ensures { IsSaidTo (shelf_run S.Shelf shelf.old shelf.new) (Command.prove prove.entry.file.now prove.entry.budget) (reply_said result) }
{
    let searched = search(alloc, shelf, prove.file, prove.budget);
    searched_reply(alloc, prove, &searched)
}
