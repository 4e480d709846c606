//! The certificate that two listed terms of a start make, if they are apart: by evidence for each redex, else by their rigid caps.
ghost use Rattle.std.specs.Prelude.{◌≡◌, ◌∷◌, [], ◌↔◌, IfOk, IsTrue};
ghost use Rattle.rewriting.specs.Terms as math;
ghost use Rattle.certificates.specs.Certificates.{by_rigid_caps};
ghost use Rattle.term_core.specs.View.{view};
ghost use Rattle.cert_model.specs.CertificateView.{certificate_view, apart_view};
ghost use Rattle.reach.specs.EntryView.{entry_view};
ghost use Rattle.valid_certificates.specs.Peaks.{HasFileSymbols};
ghost use Rattle.search_spaces.specs.PeakItems.{try_ends, TriesApart};
ghost use Rattle.noncon_search.specs.Ends.{end_view, IsEnd, AreEnds};
ghost use Rattle.noncon_search.specs.Answers.{peak_of, EntriesAnswers, CapsAnswers, ApartAnswers, CandidateAnswers};

use crate::ends::End;
use crate::redexes::refute_redexes;
use cert_limits::has_text;
use cert_model::{Certificate, NonJoin, Peak, Redex};
use cops_names::Names;
use reach::Entry;
use rule_index::IndexedSystem;
use std::alloc::Global;
use tcap_infeasible::{ComparedCaps, FIRST_HOLE, compare_rigid_caps, made_caps_clash};
use term_core::{NoMemory, Term, has_symbols_below, try_clone};

// An entry with valid evidence for each redex of both ends, the first that is tried; none where a redex has none.
fn entries_for(
    alloc: Global,
    sys: &IndexedSystem<'_>,
    start: &Term,
    first: &End<'_>,
    second: &End<'_>,
) -> Result<Option<Vec<Redex>>, NoMemory>
    requires ends { AreEnds sys.now (view start.now) (first.now ∷ second.now ∷ []) }
    ensures { EntriesAnswers sys.now (view first.now.listed.now.term) (view second.now.listed.now.term) result }
{
    sys.rules_are_sound();
    if !first.is_refuted {
        return Ok(None);
    }
    if !second.is_refuted {
        return Ok(None);
    }
    let Some(mut entries) = refute_redexes(alloc, sys, 1, &first.listed.term)? else {
        return Ok(None);
    };
    let Some(mut more) = refute_redexes(alloc, sys, 2, &second.listed.term)? else {
        return Ok(None);
    };
    entries.append(&mut more)?;
    Ok(Some(entries))
}

// Whether the rigid caps of two terms clash, which are made for this.
fn whole_caps_clash(
    alloc: Global,
    sys: &IndexedSystem<'_>,
    u: &Term,
    v: &Term,
) -> Result<bool, NoMemory>
    requires first { math.Fits (view u.now) }
    requires second { math.Fits (view v.now) }
    ensures { CapsAnswers sys.now (view u.now) (view v.now) result }
{
    match compare_rigid_caps(alloc, sys, u, v)? {
        ComparedCaps::Clash => Ok(true),
        ComparedCaps::Unify => Ok(false),
        ComparedCaps::TooLarge => Ok(false),
    }
}

// Whether the rigid caps of two ends clash. Where one was not made, both are made for this.
fn caps_clash(
    alloc: Global,
    sys: &IndexedSystem<'_>,
    first: &End<'_>,
    second: &End<'_>,
) -> Result<bool, NoMemory>
    requires first { IsEnd sys.now first.now }
    requires second { IsEnd sys.now second.now }
    ensures { CapsAnswers sys.now (view first.now.listed.now.term) (view second.now.listed.now.term) result }
{
    match (&first.cap, &second.cap) {
        (Some(cap), Some(other)) => Ok(made_caps_clash(cap, other, FIRST_HOLE)),
        _ => whole_caps_clash(alloc, sys, &first.listed.term, &second.listed.term),
    }
}

// Whether the rigid caps show that ends are apart.
fn by_caps(
    alloc: Global,
    sys: &IndexedSystem<'_>,
    start: &Term,
    first: &End<'_>,
    second: &End<'_>,
) -> Result<Option<NonJoin>, NoMemory>
    requires ends { AreEnds sys.now (view start.now) (first.now ∷ second.now ∷ []) }
    requires tries { TriesApart sys.now (view first.now.listed.now.term) (view second.now.listed.now.term) by_rigid_caps }
    ensures { ApartAnswers sys.now (view first.now.listed.now.term) (view second.now.listed.now.term) result }
{
    if second.is_met {
        return Ok(None);
    }
    if caps_clash(alloc, sys, first, second)? {
        Ok(Some(NonJoin::Caps))
    } else {
        Ok(None)
    }
}

// How two ends are shown to be apart, if they are: by evidence for each redex, else by their caps.
fn apart(
    alloc: Global,
    sys: &IndexedSystem<'_>,
    start: &Term,
    first: &End<'_>,
    second: &End<'_>,
) -> Result<Option<NonJoin>, NoMemory>
    requires ends { AreEnds sys.now (view start.now) (first.now ∷ second.now ∷ []) }
    ensures { ApartAnswers sys.now (view first.now.listed.now.term) (view second.now.listed.now.term) result }
{
    match entries_for(alloc, sys, start, first, second)? {
        Some(entries) => Ok(Some(NonJoin::Normal(entries))),
        None => by_caps(alloc, sys, start, first, second),
    }
}

#[tactic(auto, using(cert_model::proofs::CertificateViews::peak_shown))]
fn certificate(
    alloc: Global,
    start: &Term,
    first: &Entry,
    second: &Entry,
    apart: NonJoin,
) -> Result<Certificate, NoMemory>
    ensures { IfOk result (λ c. certificate_view c ≡ peak_of (view start.now) (entry_view first.now) (entry_view second.now) (apart_view apart)) }
{
    Ok(Certificate::Peak(Peak {
        start: try_clone(alloc, start)?,
        first: first.derivation(alloc)?,
        second: second.derivation(alloc)?,
        apart,
    }))
}

// Whether three terms have only symbols of the file.
fn have_file_symbols(sys: &IndexedSystem<'_>, start: &Term, first: &Term, second: &Term) -> bool
    ensures { IsTrue result ↔ (HasFileSymbols sys.now (view start.now) × HasFileSymbols sys.now (view first.now) × HasFileSymbols sys.now (view second.now)) }
{
    let own = sys.system().own() as usize;
    has_symbols_below(own, start) && has_symbols_below(own, first) && has_symbols_below(own, second)
}

/// The certificate that two ends make, where it is valid and has a text.
pub fn candidate(
    alloc: Global,
    sys: &IndexedSystem<'_>,
    names: &Names,
    start: &Term,
    first: &End<'_>,
    second: &End<'_>,
) -> Result<Option<Certificate>, NoMemory>
    requires ends { AreEnds sys.now (view start.now) (first.now ∷ second.now ∷ []) }
    ensures { CandidateAnswers names.now sys.now (try_ends (view start.now) (end_view first.now) (end_view second.now)) result }
{
    let Some(apart) = apart(alloc, sys, start, first, second)? else {
        return Ok(None);
    };
    // Few pairs come so far; the terms of each are walked through.
    if !have_file_symbols(sys, start, &first.listed.term, &second.listed.term) {
        return Ok(None);
    }
    let cert = certificate(alloc, start, first.listed, second.listed, apart)?;
    if has_text(alloc, names, &cert)? {
        Ok(Some(cert))
    } else {
        Ok(None)
    }
}
