//! The three spaces of the system that the standard steps leave, searched one behind the other. What is found stands behind the
//! steps; where it cannot be written with them it counts for nothing, and the next space is searched.
ghost use Rattle.std.specs.Prelude.{ℕ, ◌≡◌, IfOk, map};
ghost use Rattle.cert_model.specs.CertificateView.{simp_view, certificate_view};
ghost use Rattle.cc_count.specs.Counts.{Spends};
ghost use Rattle.simplifications.specs.Simplifying.{AllSimplify};
ghost use Rattle.quasi_space.specs.Measures.{pruned_measures};
ghost use Rattle.proof_spaces.specs.Proofs.{two_with_steps, three_with_steps};
ghost use Rattle.search_answers.specs.Given.{HasOverlaps, IsOverlapList};
ghost use Rattle.search_answers.specs.Answers.{Searches};
ghost use Rattle.first_found.specs.Spaces.{MayEnd};
ghost use Rattle.quasi_space.specs.Endings.{MayEndLast};
ghost use Rattle.portfolio.specs.Answers.{outcome_ending};
ghost use Rattle.portfolio.specs.StepAnswers.{HasSteps, steps_before, behind_ending, HandsBack, WritesBehind, AnswersBehind, MayEndSimplified};

use crate::Outcome;
use crate::untouched::overlaps_behind;
use cc_count::Budget;
use cert_limits::has_text;
use cert_model::{Certificate, Simp};
use cops_names::Names;
use critical_pairs::Overlap;
use noncon_search::search_peak_over;
use ortho_search::search_ortho_over;
use prepared_system::PreparedSystem;
use quasi_search::search_quasi_over;
use rule_index::IndexedSystem;
use std::alloc::Global;
use step_search::{SimpSearch, find_steps};
use term_core::{NoMemory, System};
use validity::Search;

/// How a search of a space behind the steps ends.
#[derive(Debug, Drop)]
pub enum Behind {
    /// A certificate with the steps.
    Found(Certificate),
    /// The space holds none; the steps again.
    Nothing(Vec<Simp>),
    /// The budget was spent.
    Spent,
}

// The steps of a certificate that has a body behind them.
#[tactic(auto, using(cert_model::proofs::CertificateViews::ortho_shown, cert_model::proofs::CertificateViews::quasi_shown, cert_model::proofs::CertificateViews::peak_shown, cert_model::proofs::CertificateViews::simplified_shown))]
fn steps_of(cert: Certificate) -> Vec<Simp>
    requires { HasSteps (certificate_view cert) }
    ensures { map simp_view result.items ≡ steps_before (certificate_view cert) }
{
    match cert {
        Certificate::Simplified { steps, body: _body } => steps,
        Certificate::Ortho(_pairs) => unreachable!(),
        Certificate::Quasi(_measure, _pairs) => unreachable!(),
        Certificate::Peak(_peak) => unreachable!(),
    }
}

// The body behind the steps; where it cannot be written with them, nothing, and the steps again.
#[tactic(auto, using(cert_model::proofs::CertificateViews::simplified_shown))]
fn written(
    alloc: Global,
    names: &Names,
    steps: Vec<Simp>,
    body: Certificate,
) -> Result<Behind, NoMemory>
    ensures { WritesBehind names.now (map simp_view steps.items) (certificate_view body) result }
{
    let body = Box::new(alloc, body)?;
    let cert = Certificate::Simplified { steps, body };
    if has_text(alloc, names, &cert)? {
        Ok(Behind::Found(cert))
    } else {
        Ok(Behind::Nothing(steps_of(cert)))
    }
}

// What a search of the last system answered, behind the steps.
fn with_the_steps(
    alloc: Global,
    names: &Names,
    steps: Vec<Simp>,
    answer: Search,
) -> Result<Behind, NoMemory>
    ensures { AnswersBehind names.now (map simp_view steps.items) answer result }
{
    match answer {
        Search::Found(body) => written(alloc, names, steps, body),
        Search::Nothing => Ok(Behind::Nothing(steps)),
        Search::Spent => Ok(Behind::Spent),
    }
}

// The first two searches, one behind the other.
fn search_two_behind(
    alloc: Global,
    last: &PreparedSystem<'_>,
    names: &Names,
    overlaps: Option<&[Overlap]>,
    steps: Vec<Simp>,
    budget: &mut Budget,
) -> Result<Behind, NoMemory>
    requires overlaps { IsOverlapList last.now overlaps }
    ensures searched { Searches behind_ending (MayEnd (two_with_steps names.now (map simp_view steps.items) last.now)) budget.old budget.new result }
    ensures hands_back { IfOk result (HandsBack (map simp_view steps.items)) }
    ensures kept { (n : ℕ) × Spends budget.old n budget.new }
{
    let answer = search_ortho_over(alloc, last, names, overlaps, budget)?;
    match with_the_steps(alloc, names, steps, answer)? {
        Behind::Nothing(steps) => {
            let next = search_peak_over(alloc, last.indexed(), names, overlaps, budget)?;
            with_the_steps(alloc, names, steps, next)
        }
        end => Ok(end),
    }
}

// All three.
fn search_three_behind(
    alloc: Global,
    last: &PreparedSystem<'_>,
    names: &Names,
    overlaps: Option<&[Overlap]>,
    steps: Vec<Simp>,
    budget: &mut Budget,
) -> Result<Behind, NoMemory>
    requires overlaps { IsOverlapList last.now overlaps }
    ensures searched { Searches behind_ending (MayEndLast (three_with_steps pruned_measures names.now (map simp_view steps.items) last.now)) budget.old budget.new result }
    ensures kept { (n : ℕ) × Spends budget.old n budget.new }
{
    match search_two_behind(alloc, last, names, overlaps, steps, budget)? {
        Behind::Nothing(steps) => {
            let next = search_quasi_over(alloc, last, names, overlaps, budget)?;
            with_the_steps(alloc, names, steps, next)
        }
        end => Ok(end),
    }
}

// Steps, and the system that they leave.
#[derive(Drop)]
struct Simplified {
    steps: Vec<Simp>,
    last: System,
}

// All three, over the last system, prepared once, and one list of overlaps, which has what is known from the system before the steps.
fn search_last_system(
    alloc: Global,
    sys: &System,
    known: Option<Vec<Overlap>>,
    names: &Names,
    simplified: Simplified,
    budget: &mut Budget,
) -> Result<Behind, NoMemory>
    requires known { HasOverlaps sys.now known }
    requires steps { AllSimplify sys.now (map simp_view simplified.steps.items) simplified.last }
    ensures searched { Searches behind_ending (MayEndLast (three_with_steps pruned_measures names.now (map simp_view simplified.steps.items) simplified.last)) budget.old budget.new result }
    ensures kept { (n : ℕ) × Spends budget.old n budget.new }
{
    let Simplified { steps, last } = simplified;
    let indexed = IndexedSystem::new(alloc, &last)?;
    let prepared = PreparedSystem::new(alloc, indexed)?;
    let found = overlaps_behind(alloc, sys, known, &steps, &prepared)?;
    search_three_behind(alloc, &prepared, names, found.as_deref(), steps, budget)
}

// The outcome of the searches, where these are the last.
fn outcome_of(end: Behind) -> Outcome
    ensures { outcome_ending result ≡ behind_ending end }
{
    match end {
        Behind::Found(cert) => Outcome::Found(cert),
        Behind::Nothing(_) => Outcome::Exhausted,
        Behind::Spent => Outcome::Spent,
    }
}

/// Finds the standard steps of the system, whose overlaps are known, and searches what they leave; where there are none, there is
/// nothing more to search.
pub fn search_simplified(
    alloc: Global,
    sys: &System,
    names: &Names,
    known: Option<Vec<Overlap>>,
    budget: &mut Budget,
) -> Result<Outcome, NoMemory>
    requires known { HasOverlaps sys.now known }
    ensures searched { Searches outcome_ending (MayEndSimplified names.now sys.now) budget.old budget.new result }
    ensures kept { (n : ℕ) × Spends budget.old n budget.new }
{
    match find_steps(alloc, sys, budget)? {
        SimpSearch::Steps(steps, last) => {
            if steps.is_empty() {
                return Ok(Outcome::Exhausted);
            }
            let end = search_last_system(
                alloc,
                sys,
                known,
                names,
                Simplified { steps, last },
                budget,
            )?;
            Ok(outcome_of(end))
        }
        SimpSearch::Spent => Ok(Outcome::Spent),
    }
}
