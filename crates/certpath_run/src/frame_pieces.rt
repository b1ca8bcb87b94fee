//! The text of a framed stream, written in pieces, so that it is never in memory whole.
ghost use Rattle.std.specs.Prelude.{◌≡◌, ◌+◌, ◌≤◌, ◌∷◌, ◌++◌, [], length, decimal, vec_len, vec_capacity, IfOk, OnOk, OnErr};
ghost use Rattle.std.specs.Io.KnownBytes.{Appends};
ghost use Rattle.asn1_device.specs.Counts.{AppendsFront, faults_of};
ghost use Rattle.certpath_run.specs.FrameText.{item_line, item_lines, frame_text};
ghost use Rattle.certpath_run.specs.Report.{end_line};
ghost use Rattle.certpath_run.specs.Passing.{Passes};

use asn1_device::{DeviceFault, Sink, write_octets};
use cert_framing::{End, Items};
use itoa::Buffer;
use std::alloc::{AllocError, Global};

/// The most octets of a piece.
const PIECE: usize = 65_536;

/// The most digits of a `usize`.
const DIGITS: usize = 20;

/// The most octets of a line: three numbers, two spaces and LF.
const LINE: usize = 3 * DIGITS + 3;

/// Room for one piece, which all pieces are made in.
pub(crate) fn room_for_pieces(alloc: Global) -> Result<Vec<u8>, AllocError>
    ensures empty { IfOk result (λ piece. piece.items ≡ []) }
    ensures capacity { IfOk result (λ piece. PIECE ≤ vec_capacity piece) }
{
    Vec::with_capacity(alloc, PIECE)
}

/// Writes the frame text of `items` in pieces, and flushes once, after all of it was written.
/// Each piece is made in `piece`, which never needs more than its capacity.
pub(crate) fn write_frame<W: Sink>(
    writer: &mut W,
    piece: &mut Vec<u8>,
    items: &Items,
) -> Result<(), DeviceFault>
    requires empty { piece.old.items ≡ [] }
    requires capacity { PIECE ≤ vec_capacity piece.old }
    ensures ok { OnOk result (Appends (W.contents writer.old) (W.contents writer.new) (frame_text items.now.items items.now.end)) }
    ensures part { OnErr result (AppendsFront (W.contents writer.old) (W.contents writer.new) (frame_text items.now.items items.now.end)) }
    ensures failures { W.failures writer.new ≡ W.failures writer.old + faults_of result }
    ensures flushed { OnOk result (W.flushes writer.new ≡ W.flushes writer.old + 1) }
    ensures once { W.flushes writer.new ≤ W.flushes writer.old + 1 }
    ensures last { W.flushes writer.new ≡ W.flushes writer.old + 1
        → Appends (W.contents writer.old) (W.contents writer.new) (frame_text items.now.items items.now.end) }
{
    write_items(writer, piece, items)?;
    make_room(writer, piece)?;
    push_end(piece, items.end());
    write_octets(writer, piece)?;
    writer.flush()
}

/// Passes the lines of all items through `piece`, and doesn't flush.
fn write_items<W: Sink>(
    writer: &mut W,
    piece: &mut Vec<u8>,
    items: &Items,
) -> Result<(), DeviceFault>
    requires empty { piece.old.items ≡ [] }
    requires capacity { PIECE ≤ vec_capacity piece.old }
    ensures ok { OnOk result (Passes (W.contents writer.old) (W.contents writer.new) (item_lines 0 0 items.now.items) piece.new.items) }
    ensures part { OnErr result (AppendsFront (W.contents writer.old) (W.contents writer.new) (item_lines 0 0 items.now.items)) }
    ensures room { PIECE ≤ vec_capacity piece.new }
    ensures failures { W.failures writer.new ≡ W.failures writer.old + faults_of result }
    ensures flushes { W.flushes writer.new ≡ W.flushes writer.old }
{
    let mut offset = 0;
    for k in 0..items.len() {
        let size = items.get(k).len();
        make_room(writer, piece)?;
        push_item(piece, k, offset, size);
        offset += size;
    }
    Ok(())
}

/// Sees that `piece` has room for a line: if not, what it holds is written.
fn make_room<W: Sink>(writer: &mut W, piece: &mut Vec<u8>) -> Result<(), DeviceFault>
    ensures ok { OnOk result (Passes (W.contents writer.old) (W.contents writer.new) piece.old.items piece.new.items) }
    ensures part { OnErr result (AppendsFront (W.contents writer.old) (W.contents writer.new) piece.old.items) }
    ensures room { OnOk result (vec_len piece.new + LINE ≤ PIECE) }
    ensures capacity { vec_capacity piece.new ≡ vec_capacity piece.old }
    ensures failures { W.failures writer.new ≡ W.failures writer.old + faults_of result }
    ensures flushes { W.flushes writer.new ≡ W.flushes writer.old }
{
    if piece.len() > PIECE - LINE {
        write_octets(writer, piece)?;
        piece.clear();
    }
    Ok(())
}

/// The line of item `k`, which begins at `offset` and has `size` octets.
fn push_item(piece: &mut Vec<u8>, k: usize, offset: usize, size: usize)
    requires { vec_len piece.old + LINE ≤ vec_capacity piece.old }
    ensures line { piece.new.items ≡ piece.old.items ++ item_line k offset size }
    ensures capacity { vec_capacity piece.old ≤ vec_capacity piece.new }
{
    push_number(piece, k);
    push(piece, b" ");
    push_number(piece, offset);
    push(piece, b" ");
    push_number(piece, size);
    push(piece, b"\n");
}

/// How the stream of items ends.
fn push_end(piece: &mut Vec<u8>, end: End)
    requires { vec_len piece.old + LINE ≤ vec_capacity piece.old }
    ensures { piece.new.items ≡ piece.old.items ++ end_line end }
{
    match end {
        End::Clean => push(piece, b"end clean\n"),
        End::Cut(at) => push_position(piece, b"end cut ", at),
        End::Fault(at) => push_position(piece, b"end fault ", at),
    }
}

/// The words, the position and LF.
fn push_position(piece: &mut Vec<u8>, words: &[u8], at: usize)
    requires { vec_len piece.old + (length words.now + (DIGITS + 1)) ≤ vec_capacity piece.old }
    ensures { piece.new.items ≡ piece.old.items ++ (words.now ++ (decimal at ++ 10 ∷ [])) }
{
    push(piece, words);
    push_number(piece, at);
    push(piece, b"\n");
}

/// The digits of `number`, which `piece` has room for.
fn push_number(piece: &mut Vec<u8>, number: usize)
    requires { vec_len piece.old + DIGITS ≤ vec_capacity piece.old }
    ensures digits { piece.new.items ≡ piece.old.items ++ decimal number }
    ensures len { vec_len piece.new ≤ vec_len piece.old + DIGITS }
    ensures capacity { vec_capacity piece.old ≤ vec_capacity piece.new }
{
    push(piece, Buffer::new().format(number).as_bytes());
}

/// Octets that `piece` has room for.
fn push(piece: &mut Vec<u8>, octets: &[u8])
    requires { vec_len piece.old + length octets.now ≤ vec_capacity piece.old }
    ensures octets { piece.new.items ≡ piece.old.items ++ octets.now }
    ensures len { vec_len piece.new ≡ vec_len piece.old + length octets.now }
    ensures capacity { vec_capacity piece.old ≤ vec_capacity piece.new }
{
    if piece.extend_from_slice(octets).is_err() {
        unreachable!()
    }
}
