//! The entries of a certificate's text, judged as they are read.
ghost use Rattle.std.specs.Prelude.{◌≡◌, List, [], ◌∷◌, ◌++◌, OnOk};
ghost use Rattle.rewriting.specs.Confluence.{IsConfluent};
ghost use Rattle.certificates.specs.Certificates as math;
ghost use Rattle.cert_model.specs.CertificateView.{pair_entry_view, measure_view};
ghost use Rattle.valid_certificates.specs.Entries.{IsPairShort};
ghost use Rattle.cert_openings.specs.Openings.{Opening, ortho_opening, quasi_opening};
ghost use Rattle.cert_text.specs.Reading.{HasRead};
ghost use Rattle.tallies.specs.Tally.{IsOrthoTally, IsQuasiTally};
ghost use Rattle.cert_check.specs.Answers.{OnYes, OnNo};
ghost use Rattle.cert_check.specs.Bytes.{EntriesAnswer, RestAnswers};

use crate::Verdict;
use crate::bytes::BytesError;
use crate::measures::NamedMeasure;
use cert_model::{MeasureCert, PairEntry};
use cert_text::{CertError, Pairs};
use measure::Measure;
use ortho_check::OrthoRun;
use prepared_system::PreparedSystem;
use quasi_check::QuasiRun;
use rule_index::IndexedSystem;
use std::alloc::Global;
use term_core::{NoMemory, System};

// Judges an entry, which nothing holds any longer.
fn take_ortho(alloc: Global, run: &mut OrthoRun<'_>, entry: PairEntry) -> Result<(), NoMemory>
    requires { IsPairShort (pair_entry_view entry).evidence }
    ensures tally { (es : List math.PairEntry) → IsOrthoTally run.old.system es run.old.tally → OnOk result (IsOrthoTally run.old.system (es ++ pair_entry_view entry ∷ []) run.new.tally) }
    ensures system { run.new.system ≡ run.old.system }
{
    run.take(alloc, &entry)
}

// The same under a measure.
fn take_quasi<M: Measure>(
    alloc: Global,
    run: &mut QuasiRun<'_, M>,
    entry: PairEntry,
) -> Result<(), NoMemory>
    requires { IsPairShort (pair_entry_view entry).evidence }
    ensures tally { (es : List math.PairEntry) → IsQuasiTally (M.judged run.old.measure run.old.system) run.old.system es run.old.tally → OnOk result (IsQuasiTally (M.judged run.old.measure run.old.system) run.old.system (es ++ pair_entry_view entry ∷ []) run.new.tally) }
    ensures system { run.new.system ≡ run.old.system }
    ensures measure { run.new.measure ≡ run.old.measure }
{
    run.take(alloc, &entry)
}

/// Judges the entries of a text of which the opening is read. The text is read to its end, also where an entry fails.
pub fn judge_ortho(
    alloc: Global,
    sys: &System,
    pairs: &mut Pairs<'_>,
) -> Result<Verdict, BytesError>
    requires { (o : Opening) × HasRead pairs.old o [] }
    ensures answers { (o : Opening) → HasRead pairs.old o [] → EntriesAnswer sys.now pairs.old.names pairs.old.bytes o ortho_opening result }
    ensures yes { OnYes result (IsConfluent sys.now) }
    ensures no { OnNo result ⊥ }
{
    let indexed = IndexedSystem::new(alloc, sys)?;
    let prepared = PreparedSystem::new(alloc, indexed)?;
    let mut run = OrthoRun::start(alloc, &prepared)?;
    'entries: for _ in 0..20_001u32 {
        let Some(entry) = pairs.next(alloc)? else {
            run.finish()?;
            return Ok(Verdict::Yes);
        };
        take_ortho(alloc, &mut run, entry)?;
    }
    // No text has more than 20,000 entries.
    unreachable!();
}

/// The same under a measure.
pub fn judge_quasi(
    alloc: Global,
    sys: &System,
    measure: &MeasureCert,
    pairs: &mut Pairs<'_>,
) -> Result<Verdict, BytesError>
    requires { (o : Opening) × HasRead pairs.old o [] }
    ensures answers { (o : Opening) → HasRead pairs.old o [] → EntriesAnswer sys.now pairs.old.names pairs.old.bytes o (quasi_opening (measure_view measure.now)) result }
    ensures yes { OnYes result (IsConfluent sys.now) }
    ensures no { OnNo result ⊥ }
{
    let indexed = IndexedSystem::new(alloc, sys)?;
    let prepared = PreparedSystem::new(alloc, indexed)?;
    let judge = NamedMeasure { measure };
    let mut run = QuasiRun::start(alloc, &prepared, &judge)?;
    'entries: for _ in 0..20_001u32 {
        let Some(entry) = pairs.next(alloc)? else {
            run.finish()?;
            return Ok(Verdict::Yes);
        };
        take_quasi(alloc, &mut run, entry)?;
    }
    // No text has more than 20,000 entries.
    unreachable!();
}

/// Reads the entries to the end of the text, and judges none.
pub fn pass_entries(alloc: Global, pairs: &mut Pairs<'_>) -> Result<(), CertError>
    requires { (o : Opening) × HasRead pairs.old o [] }
    ensures { (o : Opening) → HasRead pairs.old o [] → RestAnswers pairs.old.names pairs.old.bytes o result }
{
    'entries: for _ in 0..20_001u32 {
        let Some(_entry) = pairs.next(alloc)? else {
            return Ok(());
        };
    }
    // No text has more than 20,000 entries.
    unreachable!();
}
