//! Reading to the end.
ghost use Rattle.std.specs.Prelude.{◌≡◌, ◌+◌, ◌≤◌, max, vec_len, IfOk, IsErrOf};
ghost use Rattle.certpath_inputs.specs.Reads.{ReadsAll, ReadsItems, ReadsVouchers, MeetsEnd, failed_reads};

use asn1_device::Source;
use cert_framing::{Bundle, Items};
use cert_vouchers::VoucherReader;
use std::alloc::{AllocError, Global};
use thiserror::Error;

/// The most reads that are asked of one reader.
pub const MAX_READS: u32 = 16_777_216;

/// The most octets that are asked of one read.
pub const READ_SIZE: usize = 65_536;

/// Why an input was not read.
#[derive(Clone, Copy, Debug, PartialEq, Eq, Hash, Error)]
pub enum InputError {
    /// A read failed.
    #[error("Read")]
    Read,
    /// The reader gave octets at each of 16,777,216 reads.
    #[error("TooLong")]
    TooLong,
    /// Memory was refused.
    #[error("OutOfMemory")]
    OutOfMemory,
}

/// The items, of at most `limit` content octets, of all that `reader` gives, read by pieces into one buffer.
pub fn read_items<R: Source>(alloc: Global, reader: &mut R, limit: u32) -> Result<Items, InputError>
    ensures ok { IfOk result (λ items. ReadsItems (R.remaining reader.old) (R.remaining reader.new) limit items.items items.end) }
    ensures read { R.failures reader.new ≡ R.failures reader.old + failed_reads result }
    ensures end { MeetsEnd (R.ends reader.old) (R.ends reader.new) result }
    ensures too_long { IsErrOf result InputError.TooLong → R.reads reader.new ≡ R.reads reader.old + MAX_READS }
    ensures reads { R.reads reader.new ≤ R.reads reader.old + MAX_READS }
    ensures widest { R.widest reader.new ≤ max (R.widest reader.old) READ_SIZE }
{
    let Ok(mut buffer) = zeros(alloc, READ_SIZE) else {
        return Err(InputError::OutOfMemory);
    };
    let mut bundle = Bundle::new(alloc, limit);
    for _ in 0..MAX_READS {
        let Ok(count) = reader.read(&mut buffer) else {
            return Err(InputError::Read);
        };
        if count == 0 {
            let Ok(items) = bundle.finish() else {
                unreachable!()
            };
            return Ok(items);
        }
        if bundle.feed(&buffer[..count]).is_err() {
            return Err(InputError::OutOfMemory);
        }
    }
    Err(InputError::TooLong)
}

/// A voucher reader that took all that `reader` gives, read by pieces into one buffer. A bad line
/// doesn't end the reading.
pub fn read_pairs<R: Source>(alloc: Global, reader: &mut R) -> Result<VoucherReader, InputError>
    ensures ok { IfOk result (ReadsVouchers (R.remaining reader.old) (R.remaining reader.new)) }
    ensures read { R.failures reader.new ≡ R.failures reader.old + failed_reads result }
    ensures end { MeetsEnd (R.ends reader.old) (R.ends reader.new) result }
    ensures too_long { IsErrOf result InputError.TooLong → R.reads reader.new ≡ R.reads reader.old + MAX_READS }
    ensures reads { R.reads reader.new ≤ R.reads reader.old + MAX_READS }
    ensures widest { R.widest reader.new ≤ max (R.widest reader.old) READ_SIZE }
{
    let Ok(mut buffer) = zeros(alloc, READ_SIZE) else {
        return Err(InputError::OutOfMemory);
    };
    let mut pairs = VoucherReader::new(alloc);
    for _ in 0..MAX_READS {
        let Ok(count) = reader.read(&mut buffer) else {
            return Err(InputError::Read);
        };
        if count == 0 {
            return Ok(pairs);
        }
        if pairs.feed(&buffer[..count]).is_err() {
            return Err(InputError::OutOfMemory);
        }
    }
    Err(InputError::TooLong)
}

/// All octets that `reader` gives.
pub fn read_text<R: Source>(alloc: Global, reader: &mut R) -> Result<Vec<u8>, InputError>
    ensures ok { IfOk result (λ text. ReadsAll (R.remaining reader.old) (R.remaining reader.new) text.items) }
    ensures read { R.failures reader.new ≡ R.failures reader.old + failed_reads result }
    ensures end { MeetsEnd (R.ends reader.old) (R.ends reader.new) result }
    ensures too_long { IsErrOf result InputError.TooLong → R.reads reader.new ≡ R.reads reader.old + MAX_READS }
    ensures reads { R.reads reader.new ≤ R.reads reader.old + MAX_READS }
    ensures widest { R.widest reader.new ≤ max (R.widest reader.old) READ_SIZE }
{
    let Ok(mut buffer) = zeros(alloc, READ_SIZE) else {
        return Err(InputError::OutOfMemory);
    };
    let mut text = Vec::new(alloc);
    for _ in 0..MAX_READS {
        let Ok(count) = reader.read(&mut buffer) else {
            return Err(InputError::Read);
        };
        if count == 0 {
            return Ok(text);
        }
        if text.extend_from_slice(&buffer[..count]).is_err() {
            return Err(InputError::OutOfMemory);
        }
    }
    Err(InputError::TooLong)
}

/// So many zeros.
fn zeros(alloc: Global, size: usize) -> Result<Vec<u8>, AllocError>
    ensures { IfOk result (λ v. vec_len v ≡ size) }
{
    vec![in alloc; 0; size]
}
