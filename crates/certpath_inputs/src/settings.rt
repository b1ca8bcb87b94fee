//! What a run over all items is asked, and why it has no report.

use cert_serving::Policy;
use thiserror::Error;

/// What a run over all items is asked.
#[derive(Drop)]
pub struct AllSettings {
    /// The moment, and whether revocation lists are demanded.
    pub policy: Policy,
    /// The most content octets that an item has, in bundle and anchors.
    pub limit: u32,
}

/// One of the three inputs.
#[derive(Clone, Copy, Debug, PartialEq, Eq, Hash)]
pub enum Input {
    Bundle,
    Anchors,
    Vouchers,
}

/// Why a run has no report, or has not written it whole.
#[derive(Clone, Copy, Debug, PartialEq, Eq, Hash, Error)]
pub enum RunError {
    /// A read of this input failed.
    #[error("Read")]
    Read(Input),
    /// This input gave octets at each of 16,777,216 reads.
    #[error("TooLong")]
    TooLong(Input),
    /// This line of the vouchers, counted from 1, is the first bad one.
    #[error("BadLine")]
    BadLine(usize),
    /// Memory was refused.
    #[error("OutOfMemory")]
    OutOfMemory,
    /// A write or the flush failed, or a write took no octet.
    #[error("Write")]
    Write,
}
