//! Writing a text at once.

ghost use Rattle.std.specs.Prelude.{◌≡◌, ◌+◌, ◌≤◌, IfErr, OnOk, OnErr};
ghost use Rattle.std.specs.Io.KnownBytes.{Appends};
ghost use Rattle.asn1_device.specs.Counts.{AppendsFront};
ghost use Rattle.certpath_inputs.specs.Uses.{failed_writes};

use crate::settings::RunError;
use asn1_device::{Sink, write_octets};

/// Writes the text, and flushes once, after all of it was written. The only error is `Write`: then
/// a front of the text was written.
pub fn write_text<W: Sink>(writer: &mut W, text: &[u8]) -> Result<(), RunError>
    ensures ok { OnOk result (Appends (W.contents writer.old) (W.contents writer.new) text.now) }
    ensures part { OnErr result (AppendsFront (W.contents writer.old) (W.contents writer.new) text.now) }
    ensures only { IfErr result (λ e. e ≡ RunError.Write) }
    ensures write { W.failures writer.new ≡ W.failures writer.old + failed_writes result }
    ensures flushed { OnOk result (W.flushes writer.new ≡ W.flushes writer.old + 1) }
    ensures once { W.flushes writer.new ≤ W.flushes writer.old + 1 }
    ensures last { W.flushes writer.new ≡ W.flushes writer.old + 1 → Appends (W.contents writer.old) (W.contents writer.new) text.now }
{
    if write_octets(writer, text).is_err() {
        return Err(RunError::Write);
    }
    if writer.flush().is_err() {
        return Err(RunError::Write);
    }
    Ok(())
}
