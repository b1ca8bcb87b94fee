//! The rules by which an iterator reads.

/// Values are read by BER's rules.
pub struct BerParser;

/// Values are read by DER's rules.
pub struct DerParser;
