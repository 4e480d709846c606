//! One entry of a certificate, judged beside the overlap that it should be for.
ghost use Rattle.std.specs.Prelude.{◌≡◌, ◌≤◌, ◌↔◌, IfOk, IsTrue, None, OnErr};
ghost use Rattle.unifier_run.specs.Overlaps.{triple};
ghost use Rattle.certificates.specs.Reasons.{pair_missing};
ghost use Rattle.cert_model.specs.CertificateView.{pair_entry_view};
ghost use Rattle.cert_model.specs.ReasonView.{rejected_view};
ghost use Rattle.critical_pairs.specs.View.{overlap_view};
ghost use Rattle.infeasible.specs.Known.{IsKnown};
ghost use Rattle.valid_certificates.specs.Entries.{triple_of, IsPairShort};
ghost use Rattle.validity.specs.KindView.{kind_view};
ghost use Rattle.pair_check.specs.Steps.{IsNextOf, EntryAnswers};

use crate::evidence::judge_evidence;
use cert_model::{PairEntry, Rejected};
use critical_pairs::Overlap;
use infeasible::JudgeByKind;
use prepared_system::PreparedSystem;
use refuter::Refusal;
use std::alloc::Global;
use term_core::NoMemory;
use unifier_run::MOST_OVERLAPS;
use validity::CertKind;

/// The rejection where the overlap has no entry; its position becomes that of the rejection.
pub fn missing(overlap: Overlap) -> Rejected
    ensures { rejected_view result ≡ pair_missing overlap.inner overlap.pos.items overlap.outer }
{
    Rejected::PairMissing {
        inner: overlap.inner,
        pos: overlap.pos,
        outer: overlap.outer,
    }
}

// Whether the entry is for this overlap.
fn is_for(entry: &PairEntry, overlap: &Overlap) -> bool
    ensures { IsTrue result ↔ (triple_of (pair_entry_view entry.now) ≡ triple (overlap_view overlap.now)) }
{
    entry.inner == overlap.inner
        && entry.outer == overlap.outer
        && entry.pos.as_slice() == overlap.pos.as_slice()
}

/// An entry of a certificate, and how many are before it.
#[derive(Clone, Copy)]
pub struct Placed<'a> {
    pub taken: u32,
    pub entry: &'a PairEntry,
}

/// Why the entry behind so many others fails for the next overlap, or nothing where it settles it. Only where it fails is the
/// overlap taken away.
pub fn judge_entry(
    alloc: Global,
    sys: &PreparedSystem<'_>,
    kind: CertKind,
    next: &mut Option<Overlap>,
    placed: &Placed<'_>,
    judge: &mut JudgeByKind,
) -> Result<Option<Rejected>, NoMemory>
    requires next { IsNextOf sys.now next.old }
    requires few { placed.now.taken ≤ MOST_OVERLAPS }
    requires short { IsPairShort (pair_entry_view placed.now.entry.now).evidence }
    requires knows { IsKnown judge.old sys.now }
    ensures knows { IsKnown judge.new sys.now }
    ensures answer { EntryAnswers (kind_view kind) sys.now placed.now.taken next.old (pair_entry_view placed.now.entry.now) result }
    ensures unchanged { OnErr result (next.new ≡ next.old) }
    ensures settled { IfOk result (λ reason. reason ≡ None → next.new ≡ next.old) }
{
    let taken = placed.taken;
    let entry = placed.entry;
    let Some(overlap) = next else {
        return Ok(Some(Rejected::PairExtra { entry: taken + 1 }));
    };
    if !is_for(entry, overlap) {
        return Ok(next.take().map(missing));
    }
    match judge_evidence(alloc, sys, kind, overlap, &entry.evidence, judge) {
        Ok(()) => Ok(None),
        Err(Refusal::Reason(reason)) => Ok(Some(Rejected::EvidenceFails {
            entry: taken + 1,
            reason,
        })),
        Err(Refusal::NoMemory) => Err(NoMemory),
    }
}
