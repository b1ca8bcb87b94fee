//! A run that says where the items of a stream lie, and why those that are other are so.

ghost use Rattle.std.specs.Prelude.{◌≡◌, ◌≢◌, ◌+◌, ◌≤◌, IfOk, IfErr, OnOk, IsErrOf};
ghost use Rattle.certpath_run.specs.Frames.{FramesWhy, FramesWhyInPart};
ghost use Rattle.certpath_run.specs.Items.{IsOfItems, UsesItemReader, failed_item_writes};
ghost use Rattle.certpath_run.specs.declared.items.ItemInput.TheVariants.{Bundle};
ghost use Rattle.certpath_inputs.specs.Uses.{counts};

use crate::frame_text::why_text_of;
use crate::items::{ItemInput, ItemsError, items_of};
use asn1_device::{Sink, Source};
use cert_framing::End;
use certpath_inputs::write_text;
use std::alloc::Global;

/// Reads all that `reader` gives, cuts it into items of at most `limit` content octets, and writes to
/// `writer` a line for each, as [`crate::frame`] does, and after that of each item that is other one
/// with its first fault: its number, the octet of the item, the field, what is expected and what is
/// found. The last line is for how the stream ends, which is returned.
///
/// Nothing is written before all is read and the text is built. The writer is flushed once, after
/// the whole text was written. Each item is read as a tree, in time and memory linear in its octets;
/// if an element is at fault up to 50 times that.
///
/// # Errors
///
/// `Read` and `TooLong` of `ItemInput::Bundle`, or `OutOfMemory`, with nothing written; or `Write`:
/// what was written is then a front of the text.
pub fn frame_why<R: Source, W: Sink>(
    alloc: Global,
    reader: &mut R,
    limit: u32,
    writer: &mut W,
) -> Result<End, ItemsError>
    // What was read and written.
    ensures ok { IfOk result (λ end. FramesWhy (R.remaining reader.old) (R.remaining reader.new)
        (W.contents writer.old) (W.contents writer.new) limit end) }
    ensures part { IsErrOf result ItemsError.Write → FramesWhyInPart (R.remaining reader.old) (R.remaining reader.new)
        (W.contents writer.old) (W.contents writer.new) limit }
    ensures nothing { IfErr result (λ e. e ≢ ItemsError.Write → writer.new ≡ writer.old) }
    ensures flushed { OnOk result (W.flushes writer.new ≡ W.flushes writer.old + 1) }
    ensures once { W.flushes writer.new ≤ W.flushes writer.old + 1 }
    ensures last { W.flushes writer.new ≡ W.flushes writer.old + 1 → (end : End) × FramesWhy (R.remaining reader.old) (R.remaining reader.new)
        (W.contents writer.old) (W.contents writer.new) limit end }

    // When each error comes.
    ensures only { IfErr result (λ e. e ≢ ItemsError.Write → IsOfItems Bundle e) }
    ensures write { W.failures writer.new ≡ W.failures writer.old + failed_item_writes result }
    ensures uses { UsesItemReader result (counts R.Source reader.old) (counts R.Source reader.new) }
{
    let items = items_of(alloc, reader, ItemInput::Bundle, limit)?;
    let Ok(text) = why_text_of(alloc, &items) else {
        return Err(ItemsError::OutOfMemory);
    };
    if write_text(writer, text.as_bytes()).is_err() {
        return Err(ItemsError::Write);
    }
    Ok(items.end())
}
