//! Texts on their way to a sink.
ghost use Rattle.run_parts.specs.Devices.{sink_run};
ghost use Rattle.run_parts.specs.Taken.{IsTaken};

use cc_io::{Sink, write_all};

/// Writes a text, and gives the first status where the sink took it whole, else the second.
pub fn written<K: Sink, S: Copy>(sink: &mut K, text: &[u8], whole: S, cut: S) -> S
    ensures { IsTaken text.now whole cut result (sink_run K.Sink sink.old sink.new) }
{
    match write_all(sink, text) {
        Ok(()) => whole,
        Err(_) => cut,
    }
}
