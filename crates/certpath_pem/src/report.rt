//! The report of a text as a whole.

ghost use Rattle.std.specs.Prelude.{◌≡◌, IfOk, map};
ghost use Rattle.certpath_pem.specs.Blocks.{entries_of};
ghost use Rattle.certpath_pem.specs.Views.{entry_view};

use crate::cursor::{Cursor, Entry};
use std::alloc::{AllocError, Global};

/// Returns all entries of a text, in order. An entry takes 56 octets, and may be of 10 octets of
/// text: if memory is short, ask a `Cursor` for one after another. The only error is out of memory.
pub fn read(alloc: Global, text: &[u8]) -> Result<Vec<Entry<'_>>, AllocError>
    ensures { IfOk result (λ entries. map entry_view entries.items ≡ entries_of text.now) }
{
    let mut entries = Vec::new(alloc);
    let mut cursor = Cursor::new(text);
    while let Some(entry) = cursor.next_entry() {
        entries.push(entry)?;
    }
    Ok(entries)
}
