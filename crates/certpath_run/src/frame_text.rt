//! The text of a framed stream with the faults of its items: a line for each item and its first
//! fault, and a line for how the stream ends.
ghost use Rattle.std.specs.Prelude.{◌≡◌, ℕ, ◌+◌, ◌++◌, ◌^◌, ◌<◌, length, take, drop, OnOk, IfOk, string_bytes, slice_index_or};
ghost use Rattle.std.specs.List.{concat};
ghost use Rattle.certpath_run.specs.FrameText.{IsFrameWhy, item_line};

use crate::report::push_end;
use asn1_core::OutOfMemory;
use cert_framing::Items;
use fault_texts::{Whose, push_fault_of};
use std::alloc::{AllocError, Global};

/// The lines of all items, each that is other with its first fault, and the line of the end.
pub(crate) fn why_text_of(alloc: Global, items: &Items) -> Result<String, OutOfMemory>
    ensures { IfOk result (λ text. IsFrameWhy items.now.items items.now.end (string_bytes text)) }
{
    let mut text = String::new(alloc);
    let mut offset = 0;
    for k in 0..items.len() {
        let item = items.get(k);
        let length = item.len();
        push_item(&mut text, k, offset, length)?;
        push_fault_of(&mut text, alloc, Whose::Items, k, item)?;
        offset += length;
    }
    push_end(&mut text, items.end())?;
    Ok(text)
}

/// The line of item `k`, which begins at `offset` and has `size` octets.
fn push_item(text: &mut String, k: usize, offset: usize, size: usize) -> Result<(), AllocError>
    ensures { OnOk result (string_bytes text.new ≡ string_bytes text.old ++ item_line k offset size) }
{
    writeln!(text, "{k} {offset} {size}")
}
