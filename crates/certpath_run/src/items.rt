//! The inputs of the runs over items alone, `frame` and `questions`, and why such a run fails.

ghost use Rattle.std.specs.Prelude.{IfOk, IfErr};
ghost use Rattle.certpath_inputs.specs.Reads.{ReadsItems};
ghost use Rattle.certpath_run.specs.Items.{IsOfItems, item_use_of};
ghost use Rattle.certpath_inputs.specs.Uses.{Used, counts};

use asn1_device::Source;
use cert_framing::Items;
use certpath_inputs::{InputError, read_items};
use std::alloc::Global;
use thiserror::Error;

/// One of the two inputs of items.
#[derive(Clone, Copy, Debug, PartialEq, Eq, Hash)]
pub enum ItemInput {
    /// The bundle, or the one input of `frame`.
    Bundle,
    /// The anchors.
    Anchors,
}

/// Why a run over items alone wrote nothing, or not its whole text.
#[derive(Clone, Copy, Debug, PartialEq, Eq, Hash, Error)]
pub enum ItemsError {
    /// A read of this input failed.
    #[error("Read")]
    Read(ItemInput),
    /// This input gave octets at each of 16,777,216 reads.
    #[error("TooLong")]
    TooLong(ItemInput),
    /// Memory was refused.
    #[error("OutOfMemory")]
    OutOfMemory,
    /// A write or the flush failed, or a write took no octet.
    #[error("Write")]
    Write,
}

/// Reads the items of one input, to its end.
pub(crate) fn items_of<R: Source>(
    alloc: Global,
    reader: &mut R,
    input: ItemInput,
    limit: u32,
) -> Result<Items, ItemsError>
    ensures ok { IfOk result (λ items. ReadsItems (R.remaining reader.old) (R.remaining reader.new) limit items.items items.end) }
    ensures used { Used (item_use_of result) (counts R.Source reader.old) (counts R.Source reader.new) }
    ensures only { IfErr result (IsOfItems input) }
{
    match read_items(alloc, reader, limit) {
        Ok(items) => Ok(items),
        Err(InputError::Read) => Err(ItemsError::Read(input)),
        Err(InputError::TooLong) => Err(ItemsError::TooLong(input)),
        Err(InputError::OutOfMemory) => Err(ItemsError::OutOfMemory),
    }
}
