//! The command query: reads the two texts, asks whether values meet the conditions, and says what came of it.
ghost use Rattle.std.specs.Prelude.{◌≡◌, ◌++◌, ℕ, List, Err, IfOk, OnOk, IfSome, IfNone, map};
ghost use Rattle.cc_io.specs.Errors.{IsBegunIfAny};
ghost use Rattle.cc_io.specs.Faults.{Rose};
ghost use Rattle.cert_model.specs.DerivationView.{derivation_view};
ghost use Rattle.cert_model.specs.EvidenceView.{inf_evidence_view};
ghost use Rattle.cops_names.specs.NamesView.{texts_of};
ghost use Rattle.cops_read.specs.File.{IsFile};
ghost use Rattle.term_core.specs.View.{view};
ghost use Rattle.query_search.specs.Answers.{reply_view};
ghost use Rattle.run_parts.specs.Devices.{shelf_run};
ghost use Rattle.run_parts.specs.Bytes.{told_or_any};
ghost use Rattle.run_parts.specs.Words.{texts};
ghost use Rattle.concon_run.specs.Commands.{IsSaidTo, Command};
ghost use Rattle.concon_run.specs.Query.{IsQuery, IsQueryReply, BeginsForQuery, value_line, value_lines, derivation_lines, never_text, met_text, said_of_question, said_of_query};
ghost use Rattle.concon_run.specs.Querying.{BytesReply, QueryReplies, ending_outcome, query_reply};
ghost use Rattle.concon_run.specs.Replies.{reply_said, said_if_any, IsMade};
ghost use Rattle.concon_run.specs.Said.{IsSaidIfMemory};

use crate::files::{NoSystem, no_system_reply, system_of};
use crate::refusals::{refused, unread};
use crate::reply::{Reply, Text, no_memory};
use crate::status::Status;
use cc_count::Budget;
use cc_io::{ReadAllError, Shelf, read_all};
use cert_model::{Derivation, InfEvidence};
use cert_writing::{write_cert_term, write_deriv, write_inf};
use cops_read::{Names, one_reading};
use query::{Query, QueryError, ask};
use query_space::query_spaces_are_searchable;
use refusal_texts::query_refusal;
use run_parts::{QUERY_LIMIT, USUAL_BUDGET, budget_of, two_around_option, two_words};
use std::alloc::Global;
use term_core::{NoMemory, System, Term};

/// It is asked whether values meet the conditions of a query of a file's system.
#[derive(Clone, Copy)]
pub struct Question<'a> {
    pub file: &'a str,
    pub query: &'a str,
    pub budget: u64,
}

/// The question that the words ask.
pub fn question_of<'a>(words: &[&'a str]) -> Option<Question<'a>>
    ensures found { IfSome result (λ q. IsQuery (texts words.now) q.file.now q.query.now q.budget) }
    ensures none { IfNone result ((file query : List ℕ) (budget : ℕ) → IsQuery (texts words.now) file query budget → ⊥) }
{
    if let Some((file, query)) = two_words(words, "query") {
        return Some(Question {
            file,
            query,
            budget: USUAL_BUDGET,
        });
    }
    let (file, query, number) = two_around_option(words, "query", "--budget")?;
    let budget = budget_of(number)?;
    Some(Question {
        file,
        query,
        budget,
    })
}

/// How the search for an answer ended, with the names of the file.
#[derive(Drop)]
pub struct Queried {
    pub names: Names,
    pub query: Query,
    pub reply: query::Reply,
}

/// Why there was no search.
#[derive(Drop)]
pub enum NoReply {
    /// The file gives no system.
    NoSystem(NoSystem),
    /// The query was not read whole.
    QueryUnread(ReadAllError),
    /// The query is no text of one, or memory was refused.
    QueryRefused(QueryError),
}

fn asked_within(
    alloc: Global,
    sys: &System,
    names: &Names,
    bytes: &[u8],
    units: u64,
) -> Result<(Query, query::Reply), QueryError>
    requires { (file : List ℕ) × IsFile file sys.now names.now }
    ensures { BytesReply sys.now names.now bytes.now units result }
{
    one_reading();
    query_spaces_are_searchable();
    let mut budget = Budget::new(units);
    ask(alloc, sys, names, bytes, &mut budget)
}

fn reply_on<S: Shelf>(
    alloc: Global,
    shelf: &mut S,
    query: &str,
    units: u64,
    sys: &System,
    names: Names,
) -> Result<Queried, NoReply>
    requires { (file : List ℕ) × IsFile file sys.now names }
    ensures answers { QueryReplies (told_or_any (S.contents shelf.old query.now)) (Rose (S.faults shelf.old query.now) (S.faults shelf.new query.now)) sys.now names units result }
    ensures begun { IsBegunIfAny query.now (S.begun shelf.new) }
{
    let bytes = match read_all(alloc, shelf, query, QUERY_LIMIT) {
        Ok(bytes) => bytes,
        Err(error) => return Err(NoReply::QueryUnread(error)),
    };
    match asked_within(alloc, sys, &names, &bytes, units) {
        Ok((query, reply)) => Ok(Queried {
            names,
            query,
            reply,
        }),
        Err(error) => Err(NoReply::QueryRefused(error)),
    }
}

// Reads the file, then the query, and searches within a budget for an answer: how that ended, or the first thing that stood in the way.
fn answer_to<S: Shelf>(
    alloc: Global,
    shelf: &mut S,
    file: &str,
    query: &str,
    units: u64,
) -> Result<Queried, NoReply>
    ensures answers { IfSome (query_reply result) (IsQueryReply (shelf_run S.Shelf shelf.old shelf.new) file.now query.now units) }
    ensures begins { BeginsForQuery (shelf_run S.Shelf shelf.old shelf.new) file.now query.now }
{
    let (sys, names) = match system_of(alloc, shelf, file) {
        Ok(found) => found,
        Err(why) => return Err(NoReply::NoSystem(why)),
    };
    reply_on(alloc, shelf, query, units, &sys, names)
}

fn no_reply_reply(alloc: Global, question: Question, why: &NoReply) -> Reply
    ensures { IsSaidIfMemory (said_if_any (said_of_query question.entry.file.now question.entry.query.now) (query_reply (Err why.now))) (reply_said result) }
{
    match why {
        NoReply::NoSystem(error) => no_system_reply(alloc, question.file, error),
        NoReply::QueryUnread(error) => unread(
            alloc,
            question.query,
            error,
            Status::QueryRefused,
            QUERY_LIMIT,
        ),
        NoReply::QueryRefused(error) => refused(
            alloc,
            Status::QueryRefused,
            question.query,
            query_refusal(error),
        ),
    }
}

fn never_text(alloc: Global, names: &Names, evidence: &InfEvidence) -> Result<Vec<u8>, NoMemory>
    ensures { IfOk result (λ text. text.items ≡ never_text names.now (inf_evidence_view evidence.now)) }
{
    let mut text = Vec::new(alloc);
    text.extend_from_slice(b"YES\nconcon query 1\n")?;
    write_inf(alloc, names, evidence, &mut text)?;
    text.extend_from_slice(b"end\n")?;
    Ok(text)
}

fn put_value(
    alloc: Global,
    names: &Names,
    variable: &str,
    value: &Term,
    out: &mut Vec<u8>,
) -> Result<(), NoMemory>
    ensures { OnOk result (out.new.items ≡ out.old.items ++ value_line names.now variable.now (view value.now)) }
{
    out.extend_from_slice(b"value ")?;
    out.extend_from_slice(variable.as_bytes())?;
    out.push(b' ')?;
    write_cert_term(alloc, names, value, out)?;
    out.push(b'\n')?;
    Ok(())
}

// A line for each value that a variable has.
fn put_values(
    alloc: Global,
    names: &Names,
    variables: &[String],
    values: &[Term],
    out: &mut Vec<u8>,
) -> Result<(), NoMemory>
    ensures { OnOk result (out.new.items ≡ out.old.items ++ value_lines names.now (texts_of variables.now) (map view values.now)) }
{
    let mut number = 0usize;
    'values: for value in values {
        if let Some(variable) = variables.get(number) {
            put_value(alloc, names, variable, value, out)?;
        }
        number += 1;
    }
    Ok(())
}

fn put_derivations(
    alloc: Global,
    names: &Names,
    derivations: &[Derivation],
    out: &mut Vec<u8>,
) -> Result<(), NoMemory>
    ensures { OnOk result (out.new.items ≡ out.old.items ++ derivation_lines (map derivation_view derivations.now)) }
{
    'derivations: for derivation in derivations {
        write_deriv(alloc, names, derivation, out)?;
    }
    Ok(())
}

fn met_text(
    alloc: Global,
    names: &Names,
    variables: &[String],
    values: &[Term],
    derivations: &[Derivation],
) -> Result<Vec<u8>, NoMemory>
    ensures { IfOk result (λ text. text.items ≡ met_text names.now (texts_of variables.now) (map view values.now) (map derivation_view derivations.now)) }
{
    let mut text = Vec::new(alloc);
    text.extend_from_slice(b"NO\nconcon query 1\n")?;
    put_values(alloc, names, variables, values, &mut text)?;
    put_derivations(alloc, names, derivations, &mut text)?;
    text.extend_from_slice(b"end\n")?;
    Ok(text)
}

fn made_reply(status: Status, text: Result<Vec<u8>, NoMemory>) -> Reply
    ensures { IsMade (λ v. v.items) status text (reply_said result) }
{
    match text {
        Ok(text) => Reply {
            status,
            to_out: true,
            text: Text::Made(text),
        },
        Err(NoMemory) => no_memory(),
    }
}

fn queried_reply(alloc: Global, queried: &Queried) -> Reply
    ensures { (file query : List ℕ) →
        IsSaidIfMemory (said_of_question file query (ending_outcome queried.now.names (texts_of queried.now.query.names.items) (reply_view queried.now.reply))) (reply_said result) }
{
    let names = &queried.names;
    match &queried.reply {
        query::Reply::Infeasible(evidence) => {
            made_reply(Status::Yes, never_text(alloc, names, evidence))
        }
        query::Reply::Meets(values, derivations) => made_reply(
            Status::No,
            met_text(alloc, names, &queried.query.names, values, derivations),
        ),
        query::Reply::Exhausted => Reply {
            status: Status::Maybe,
            to_out: true,
            text: Text::Fixed(b"MAYBE exhausted\n"),
        },
        query::Reply::Spent => Reply {
            status: Status::Maybe,
            to_out: true,
            text: Text::Fixed(b"MAYBE budget\n"),
        },
    }
}

fn answered_reply(alloc: Global, question: Question, answered: &Result<Queried, NoReply>) -> Reply
    ensures { IsSaidIfMemory (said_if_any (said_of_query question.entry.file.now question.entry.query.now) (query_reply answered.now)) (reply_said result) }
{
    match answered {
        Ok(queried) => queried_reply(alloc, queried),
        Err(why) => no_reply_reply(alloc, question, why),
    }
}

/// Asks the question, and says what came of it.
pub fn query_reply<S: Shelf>(alloc: Global, question: Question, shelf: &mut S) -> Reply
    ensures { IsSaidTo (shelf_run S.Shelf shelf.old shelf.new) (Command.query question.entry.file.now question.entry.query.now question.entry.budget) (reply_said result) }
{
    let answered = answer_to(alloc, shelf, question.file, question.query, question.budget);
    answered_reply(alloc, question, &answered)
}
