//! A voucher file that is handed in by pieces.

ghost use Rattle.std.specs.Prelude.{◌↔◌, [], IsErr, IsErrOf};
ghost use Rattle.cert_vouchers.specs.Reader.{HasTaken, TakesPiece, Finishes, HasFailed};

use crate::reading::{Reading, VoucherError};
use crate::vouchers::Vouchers;
use asn1_core::OutOfMemory;
use std::alloc::Global;

/// Takes the text of a voucher file piece by piece, and gives in the end what `read_vouchers` gives
/// for the whole text, however it was cut.
///
/// Beside the pairs it keeps the octets of a line that isn't ended yet, at most 130: a longer line
/// is bad. From the first bad line on it keeps that line's number alone.
#[derive(Drop)]
pub struct VoucherReader {
    reading: Result<Reading, VoucherError>,
}

impl VoucherReader {
    /// A reader of no octets yet. It takes no memory.
    pub fn new(alloc: Global) -> VoucherReader
        ensures takes { HasTaken result [] }
        ensures ready { HasFailed result → ⊥ }
    {
        VoucherReader {
            reading: Ok(Reading::new(alloc)),
        }
    }

    /// Takes the next octets of the text, any number of them. A bad line is reported by `finish`.
    ///
    /// `OutOfMemory` if memory was refused before any bad line, and at each later call.
    pub fn feed(&mut self, piece: &[u8]) -> Result<(), OutOfMemory>
        ensures takes { TakesPiece self.old piece.now self.new }
        ensures refused { IsErr result ↔ HasFailed self.new }
        ensures lasts { HasFailed self.old → HasFailed self.new }
    {
        self.take(piece);
        match self.reading {
            Err(VoucherError::OutOfMemory) => Err(OutOfMemory),
            _ => Ok(()),
        }
    }

    /// Takes the next octets, and looks at none after a bad line.
    fn take(&mut self, piece: &[u8])
        ensures takes { TakesPiece self.old piece.now self.new }
        ensures lasts { HasFailed self.old → HasFailed self.new }
    {
        match &mut self.reading {
            Ok(reading) => match reading.feed(piece) {
                Ok(()) => {}
                Err(error) => self.reading = Err(error),
            },
            Err(_) => {}
        }
    }

    /// The pairs of the whole text.
    ///
    /// # Errors
    ///
    /// Those of `read_vouchers`; `OutOfMemory` also if a `feed` returned it.
    pub fn finish(self) -> Result<Vouchers, VoucherError>
        ensures answers { Finishes self result }
        ensures failed { HasFailed self → IsErrOf result VoucherError.OutOfMemory }
    {
        match self.reading {
            Ok(reading) => reading.finish(),
            Err(error) => Err(error),
        }
    }
}
