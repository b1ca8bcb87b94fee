//! A run that asks which keys may have signed which items.

ghost use Rattle.std.specs.Prelude.{◌≡◌, ◌≢◌, ◌+◌, ◌≤◌, IfOk, IfErr, OnOk, IsErrOf, string_bytes};
ghost use Rattle.certpath_run.specs.Asking.{AreQuestionsOf, WritesQuestions, WritesQuestionsInPart, UseItemReaders};
ghost use Rattle.certpath_run.specs.Items.{failed_item_writes};
ghost use Rattle.certpath_inputs.specs.Uses.{counts};

use crate::items::{ItemInput, ItemsError, items_of};
use asn1_core::OutOfMemory;
use asn1_device::{Sink, Source};
use cert_framing::Items;
use cert_questions::{questions, text_of};
use certpath_inputs::write_text;
use std::alloc::Global;

/// The lines of all questions.
fn questions_on(alloc: Global, items: &Items, anchors: &Items) -> Result<String, OutOfMemory>
    ensures { IfOk result (λ text. AreQuestionsOf items.now anchors.now (string_bytes text)) }
{
    let asked = questions(alloc, items, anchors)?;
    let text = text_of(alloc, &asked)?;
    Ok(text)
}

/// Reads bundle and anchors, in this order and each to its end, with items of at most `limit`
/// content octets, and writes to `writer` a line for each question that a checker of signatures has
/// to answer: an item of the bundle, and the certificate whose key may have signed it.
///
/// Nothing is written before all is read and the text is built. The writer is flushed once, after
/// the whole text was written.
///
/// # Errors
///
/// `Read` and `TooLong` name the input; the anchors are not read if it is the bundle. After these
/// and `OutOfMemory` nothing was written; after `Write` what was written is a front of the text.
pub fn run_questions<B: Source, A: Source, W: Sink>(
    alloc: Global,
    bundle: &mut B,
    anchors: &mut A,
    limit: u32,
    writer: &mut W,
) -> Result<(), ItemsError>
    // What was read and written.
    ensures ok { OnOk result (WritesQuestions (B.remaining bundle.old) (B.remaining bundle.new) (A.remaining anchors.old) (A.remaining anchors.new)
        (W.contents writer.old) (W.contents writer.new) limit) }
    ensures part { IsErrOf result ItemsError.Write → WritesQuestionsInPart (B.remaining bundle.old) (B.remaining bundle.new) (A.remaining anchors.old) (A.remaining anchors.new)
        (W.contents writer.old) (W.contents writer.new) limit }
    ensures nothing { IfErr result (λ e. e ≢ ItemsError.Write → writer.new ≡ writer.old) }
    ensures flushed { OnOk result (W.flushes writer.new ≡ W.flushes writer.old + 1) }
    ensures once { W.flushes writer.new ≤ W.flushes writer.old + 1 }
    ensures last { W.flushes writer.new ≡ W.flushes writer.old + 1 → WritesQuestions (B.remaining bundle.old) (B.remaining bundle.new) (A.remaining anchors.old) (A.remaining anchors.new)
        (W.contents writer.old) (W.contents writer.new) limit }

    // When each error comes.
    ensures write { W.failures writer.new ≡ W.failures writer.old + failed_item_writes result }
    ensures uses { UseItemReaders result
        (counts B.Source bundle.old) (counts B.Source bundle.new)
        (counts A.Source anchors.old) (counts A.Source anchors.new) }
{
    let items = items_of(alloc, bundle, ItemInput::Bundle, limit)?;
    let anchors = items_of(alloc, anchors, ItemInput::Anchors, limit)?;
    let Ok(text) = questions_on(alloc, &items, &anchors) else {
        return Err(ItemsError::OutOfMemory);
    };
    if write_text(writer, text.as_bytes()).is_err() {
        return Err(ItemsError::Write);
    }
    Ok(())
}
