//! Bundle, anchors and vouchers, read one after the other.

ghost use Rattle.std.specs.Prelude.{◌≡◌, ◌≢◌, ℕ, List, IfOk, IfErr};
ghost use Rattle.certpath_inputs.specs.Reads.{ReadsItems, ReadsVouchers};
ghost use Rattle.cert_vouchers.specs.Answers.{AreVouchersOf};
ghost use Rattle.cert_vouchers.specs.Reader.{HasTaken};
ghost use Rattle.certpath_inputs.specs.Inputs.{AreInputs, MeetsRefusal, RefusesText};
ghost use Rattle.certpath_inputs.specs.Uses.{counts, Used, UseReaders, use_of, error_of, IsOfInput};

use crate::reading::{InputError, read_items, read_pairs};
use crate::settings::{Input, RunError};
use asn1_device::Source;
use cert_framing::Items;
use cert_vouchers::{VoucherError, VoucherReader, Vouchers};
use std::alloc::Global;

/// What was read.
#[derive(Drop)]
pub struct Inputs {
    /// The items of the bundle.
    pub items: Items,
    /// The items of the anchors.
    pub anchors: Items,
    /// Which key vouches for which item.
    pub vouchers: Vouchers,
}

/// Why a run ends that could not read this input.
fn refusal_of(error: InputError, input: Input) -> RunError
    ensures { result ≡ error_of error input }
{
    match error {
        InputError::Read => RunError::Read(input),
        InputError::TooLong => RunError::TooLong(input),
        InputError::OutOfMemory => RunError::OutOfMemory,
    }
}

fn stream_of<R: Source>(
    alloc: Global,
    reader: &mut R,
    input: Input,
    limit: u32,
) -> Result<Items, RunError>
    ensures ok { IfOk result (λ items. ReadsItems (R.remaining reader.old) (R.remaining reader.new) limit items.items items.end) }
    ensures used { Used (use_of result) (counts R.Source reader.old) (counts R.Source reader.new) }
    ensures only { IfErr result (IsOfInput input) }
{
    match read_items(alloc, reader, limit) {
        Ok(items) => Ok(items),
        Err(error) => Err(refusal_of(error, input)),
    }
}

fn pairs_in<R: Source>(
    alloc: Global,
    reader: &mut R,
    input: Input,
) -> Result<VoucherReader, RunError>
    ensures ok { IfOk result (ReadsVouchers (R.remaining reader.old) (R.remaining reader.new)) }
    ensures used { Used (use_of result) (counts R.Source reader.old) (counts R.Source reader.new) }
    ensures only { IfErr result (IsOfInput input) }
{
    match read_pairs(alloc, reader) {
        Ok(pairs) => Ok(pairs),
        Err(error) => Err(refusal_of(error, input)),
    }
}

fn vouchers_of(pairs: VoucherReader) -> Result<Vouchers, RunError>
    ensures ok { IfOk result (λ vouchers. (text : List ℕ) → HasTaken pairs text → AreVouchersOf text vouchers) }
    ensures refused { IfErr result (λ error. (text : List ℕ) → HasTaken pairs text → RefusesText text error) }
{
    match pairs.finish() {
        Ok(vouchers) => Ok(vouchers),
        Err(VoucherError::BadLine(number)) => Err(RunError::BadLine(number)),
        Err(VoucherError::OutOfMemory) => Err(RunError::OutOfMemory),
    }
}

/// Reads bundle, anchors and vouchers, in this order, each to its end; the items have at most `limit` content octets.
///
/// `Read` and `TooLong` name the input; if one is refused, those after it are not read. `BadLine`
/// has the number of the first bad line of the vouchers, from 1. Items are framed and not read:
/// that costs one pass over the octets, and keeps them. Of the vouchers' text the pairs are kept,
/// and one line at most.
pub fn read_inputs<B: Source, A: Source, V: Source>(
    alloc: Global,
    bundle: &mut B,
    anchors: &mut A,
    vouchers: &mut V,
    limit: u32,
) -> Result<Inputs, RunError>
    ensures ok { IfOk result (λ i. AreInputs (B.remaining bundle.old) (B.remaining bundle.new) (A.remaining anchors.old) (A.remaining anchors.new) (V.remaining vouchers.old) (V.remaining vouchers.new) limit i.items i.anchors i.vouchers) }
    ensures refused { IfErr result (MeetsRefusal (B.remaining bundle.old) (B.remaining bundle.new) (A.remaining anchors.old) (A.remaining anchors.new) (V.remaining vouchers.old) (V.remaining vouchers.new) limit) }
    ensures not_write { IfErr result (λ e. e ≢ RunError.Write) }
    ensures uses { UseReaders result
        (counts B.Source bundle.old) (counts B.Source bundle.new)
        (counts A.Source anchors.old) (counts A.Source anchors.new)
        (counts V.Source vouchers.old) (counts V.Source vouchers.new) }
{
    let items = stream_of(alloc, bundle, Input::Bundle, limit)?;
    let anchors = stream_of(alloc, anchors, Input::Anchors, limit)?;
    let pairs = pairs_in(alloc, vouchers, Input::Vouchers)?;
    let vouchers = vouchers_of(pairs)?;
    Ok(Inputs {
        items,
        anchors,
        vouchers,
    })
}
