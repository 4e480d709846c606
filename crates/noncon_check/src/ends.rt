//! Ends without a common reduct: they differ and the conditions at each redex are never met, or their rigid caps do not unify.
ghost use Rattle.std.specs.Prelude.{◌<◌, ◌^◌, length, map};
ghost use Rattle.rewriting.specs.Terms as math;
ghost use Rattle.certificates.specs.Certificates.{by_normal_forms, by_rigid_caps};
ghost use Rattle.term_core.specs.View.{view};
ghost use Rattle.cert_model.specs.CertificateView.{redex_view, apart_view};
ghost use Rattle.noncon_check.specs.Ends.{ApartAnswers, EndAnswers};
ghost use Rattle.noncon_check.specs.Judges.{IsReady, AreFew};

use crate::redexes::Judge;
use cert_model::{NonJoin, Redex, Rejected};
use renumbering::Numbering;
use rule_index::IndexedSystem;
use std::alloc::Global;
use tcap_infeasible::{ComparedCaps, compare_rigid_caps};
use term_core::{System, Term, equal};
use validity::CheckError;

// Judges the entries from a number, from 0, on, for the redexes of an end; the number behind them.
fn judge_end(alloc: Global, judge: &Judge, end: &Term, at: usize) -> Result<usize, CheckError>
    requires ready { IsReady judge.now.sys.now judge.now.rules.now judge.now.entries.now judge.now.own }
    requires fits { math.Fits (view end.now) }
    ensures { EndAnswers judge.now.sys.now judge.now.which (view end.now) (map redex_view judge.now.entries.now) at result }
{
    let mut numbering = Numbering::new(alloc);
    let numbered = numbering.numbered(alloc, end)?;
    let own = numbering.len() as u32;
    let judge = Judge { own, ..*judge };
    judge.judge_parts(alloc, &numbered, at)
}

// That the ends differ, and that there is an entry with valid evidence for each redex of theirs, and no other.
fn check_normal(
    alloc: Global,
    sys: &IndexedSystem,
    first: &Term,
    second: &Term,
    entries: &[Redex],
) -> Result<(), CheckError>
    requires first { math.Fits (view first.now) }
    requires second { math.Fits (view second.now) }
    requires few { length entries.now < 2 ^ 32 }
    ensures { ApartAnswers sys.now (view first.now) (view second.now) (by_normal_forms (map redex_view entries.now)) result }
{
    if equal(first, second) {
        return Err(CheckError::Rejected(Rejected::SameTerm));
    }
    let judge = Judge {
        sys,
        rules: sys.rules(),
        entries,
        which: 1,
        own: 0,
    };
    let next = judge_end(alloc, &judge, first, 0)?;
    let next = judge_end(alloc, &Judge { which: 2, ..judge }, second, next)?;
    if next < entries.len() {
        return Err(CheckError::Rejected(Rejected::RedexExtra {
            entry: next as u32 + 1,
        }));
    }
    Ok(())
}

// That the rigid caps of the ends do not unify.
fn check_caps(
    alloc: Global,
    sys: &IndexedSystem,
    first: &Term,
    second: &Term,
) -> Result<(), CheckError>
    requires first { math.Fits (view first.now) }
    requires second { math.Fits (view second.now) }
    ensures { ApartAnswers sys.now (view first.now) (view second.now) by_rigid_caps result }
{
    match compare_rigid_caps(alloc, sys, first, second)? {
        ComparedCaps::Clash => Ok(()),
        ComparedCaps::TooLarge => Err(CheckError::Rejected(Rejected::CapsLarge)),
        ComparedCaps::Unify => Err(CheckError::Rejected(Rejected::CapsUnify)),
    }
}

/// Whether two ends are shown to have no common reduct.
pub(crate) fn check_apart(
    alloc: Global,
    sys: &System,
    first: &Term,
    second: &Term,
    apart: &NonJoin,
) -> Result<(), CheckError>
    requires first { math.Fits (view first.now) }
    requires second { math.Fits (view second.now) }
    requires few { AreFew (apart_view apart.now) }
    ensures { ApartAnswers sys.now (view first.now) (view second.now) (apart_view apart.now) result }
{
    let indexed = IndexedSystem::new(alloc, sys)?;
    match apart {
        NonJoin::Normal(entries) => check_normal(alloc, &indexed, first, second, entries),
        NonJoin::Caps => check_caps(alloc, &indexed, first, second),
    }
}
