//! The texts of terms, derivations and evidence, put behind the bytes of a vector until memory is refused.
ghost use Rattle.std.specs.Prelude.{◌≡◌, ◌++◌, OnOk, OnErr};
ghost use Rattle.term_core.specs.View.{view};
ghost use Rattle.cert_model.specs.DerivationView.{derivation_view};
ghost use Rattle.cert_model.specs.EvidenceView.{inf_evidence_view};
ghost use Rattle.cert_grammar.specs.Prelude.{term_text, derivation_text, in_full, infeasibility_text};
ghost use Rattle.cert_writing.specs.Written.{GrewByFront};

use crate::output::Writer;
use crate::parts::Part;
use crate::written_evidence::Uses;
use cert_model::{Derivation, InfEvidence};
use cops_names::Names;
use std::alloc::Global;
use std::mem;
use term_core::{NoMemory, Term};

/// Puts a part behind the bytes of `out`, until memory is refused.
pub fn append<P: Part>(
    alloc: Global,
    names: &Names,
    part: &P,
    out: &mut Vec<u8>,
) -> Result<(), NoMemory>
    ensures written { OnOk result (out.new.items ≡ out.old.items ++ P.text names.now in_full part.now) }
    ensures front { OnErr result (GrewByFront out.old.items (P.text names.now in_full part.now) out.new.items) }
{
    let mut writer = Writer {
        bytes: mem::replace(out, Vec::new(alloc)),
        refused: false,
    };
    part.put(&mut writer, names, &Uses::InFull);
    *out = writer.bytes;
    if writer.refused {
        Err(NoMemory)
    } else {
        Ok(())
    }
}

/// Writes a term as it stands in certificates behind the bytes of `out`. A symbol without a name is written as nothing. Where
/// memory is refused, a front of the text stands behind them.
pub fn write_cert_term(
    alloc: Global,
    names: &Names,
    t: &Term,
    out: &mut Vec<u8>,
) -> Result<(), NoMemory>
    ensures written { OnOk result (out.new.items ≡ out.old.items ++ term_text names.now (view t.now)) }
    ensures front { OnErr result (GrewByFront out.old.items (term_text names.now (view t.now)) out.new.items) }
{
    append(alloc, names, t, out)
}

/// The same of the lines of a derivation, which have no names.
pub fn write_deriv(
    alloc: Global,
    names: &Names,
    d: &Derivation,
    out: &mut Vec<u8>,
) -> Result<(), NoMemory>
    ensures written { OnOk result (out.new.items ≡ out.old.items ++ derivation_text (derivation_view d.now)) }
    ensures front { OnErr result (GrewByFront out.old.items (derivation_text (derivation_view d.now)) out.new.items) }
{
    append(alloc, names, d, out)
}

/// The same of evidence that conditions are never met.
pub fn write_inf(
    alloc: Global,
    names: &Names,
    e: &InfEvidence,
    out: &mut Vec<u8>,
) -> Result<(), NoMemory>
    ensures written { OnOk result (out.new.items ≡ out.old.items ++ infeasibility_text names.now in_full (inf_evidence_view e.now)) }
    ensures front { OnErr result (GrewByFront out.old.items (infeasibility_text names.now in_full (inf_evidence_view e.now)) out.new.items) }
{
    append(alloc, names, e, out)
}
