//! The one text of a certificate is written, and it is read as that certificate wherever it can be spelt.
ghost use Rattle.std.specs.Prelude.{◌≡◌, ◌++◌, OnOk, OnErr};
ghost use Rattle.certificates.specs.Certificates as math;
ghost use Rattle.cops_names.specs.NameTable.{NameTable};
ghost use Rattle.cert_model.specs.CertificateView.{certificate_view};
ghost use Rattle.cert_writing.specs.Written.{GrewByFront};
ghost use Rattle.cert_grammar.specs.Prelude.{second_version, certificate_text, CanBeSpelt, IsCertificateText};

use cert_model::Certificate;
use cert_writing::{Writer, put_certificate};
use cops_names::Names;
use std::alloc::Global;
use std::mem;
use term_core::NoMemory;

/// Writes the text of the second version of a certificate behind the bytes of `out`, without an answer line. A symbol without
/// a name is written as nothing. Where memory is refused, a front of the text stands behind them.
pub fn write_cert(
    alloc: Global,
    names: &Names,
    cert: &Certificate,
    out: &mut Vec<u8>,
) -> Result<(), NoMemory>
    ensures written { OnOk result (out.new.items ≡ out.old.items ++ certificate_text second_version names.now (certificate_view cert.now)) }
    ensures front { OnErr result (GrewByFront out.old.items (certificate_text second_version names.now (certificate_view cert.now)) out.new.items) }
{
    let mut writer = Writer {
        bytes: mem::replace(out, Vec::new(alloc)),
        refused: false,
    };
    put_certificate(alloc, &mut writer, names, cert);
    *out = writer.bytes;
    if writer.refused {
        Err(NoMemory)
    } else {
        Ok(())
    }
}

/// What is written of a certificate that can be spelt is a text of it.
pub fn written_is_read()
    ensures { (names : NameTable) (c : math.Certificate) → CanBeSpelt second_version names c → IsCertificateText names (certificate_text second_version names c) c }
{}
