//! A run that says where the items of a stream lie.

ghost use Rattle.std.specs.Prelude.{◌≡◌, ◌≢◌, ◌+◌, ◌≤◌, IfOk, IfErr, OnOk, IsErrOf};
ghost use Rattle.certpath_run.specs.Frames.{Frames, FramesInPart};
ghost use Rattle.certpath_run.specs.Items.{IsOfItems, UsesItemReader, failed_item_writes};
ghost use Rattle.certpath_run.specs.declared.items.ItemInput.TheVariants.{Bundle};
ghost use Rattle.certpath_inputs.specs.Uses.{counts};

use crate::frame_pieces::{room_for_pieces, write_frame};
use crate::items::{ItemInput, ItemsError, items_of};
use asn1_device::{Sink, Source};
use cert_framing::End;
use std::alloc::Global;

/// Reads all that `reader` gives, cuts it into items of at most `limit` content octets, and writes
/// their frame text to `writer`: a line for each item, with its number, where it begins and its
/// length in octets, and a line for how the stream ends. It returns how the stream ends.
///
/// Nothing is written before all is read. The text is written in pieces of up to 65,536 octets,
/// whose room is taken before the first. The writer is flushed once, after the last piece.
///
/// # Errors
///
/// `Read` and `TooLong` of `ItemInput::Bundle`, or `OutOfMemory`, with nothing written; or `Write`:
/// what was written is then a front of the text.
pub fn frame<R: Source, W: Sink>(
    alloc: Global,
    reader: &mut R,
    limit: u32,
    writer: &mut W,
) -> Result<End, ItemsError>
    // What was read and written.
    ensures ok { IfOk result (λ end. Frames (R.remaining reader.old) (R.remaining reader.new)
        (W.contents writer.old) (W.contents writer.new) limit end) }
    ensures part { IsErrOf result ItemsError.Write → FramesInPart (R.remaining reader.old) (R.remaining reader.new)
        (W.contents writer.old) (W.contents writer.new) limit }
    ensures nothing { IfErr result (λ e. e ≢ ItemsError.Write → writer.new ≡ writer.old) }
    ensures flushed { OnOk result (W.flushes writer.new ≡ W.flushes writer.old + 1) }
    ensures once { W.flushes writer.new ≤ W.flushes writer.old + 1 }
    ensures last { W.flushes writer.new ≡ W.flushes writer.old + 1 → (end : End) × Frames (R.remaining reader.old) (R.remaining reader.new)
        (W.contents writer.old) (W.contents writer.new) limit end }

    // When each error comes.
    ensures only { IfErr result (λ e. e ≢ ItemsError.Write → IsOfItems Bundle e) }
    ensures write { W.failures writer.new ≡ W.failures writer.old + failed_item_writes result }
    ensures uses { UsesItemReader result (counts R.Source reader.old) (counts R.Source reader.new) }
{
    let items = items_of(alloc, reader, ItemInput::Bundle, limit)?;
    let Ok(mut piece) = room_for_pieces(alloc) else {
        return Err(ItemsError::OutOfMemory);
    };
    if write_frame(writer, &mut piece, &items).is_err() {
        return Err(ItemsError::Write);
    }
    Ok(items.end())
}
