//! Which keys vouch for which items: pairs of SHA-256 digests, a cache of the digests of one run, and the file that holds the pairs.
//!
//! Signatures are verified elsewhere; a pair records that the signature of an item verified with a key.
#![tactic(auto)]

mod digits;
mod keys;
pub mod laws;
mod lines;
mod lookup;
mod pairs;
mod reader;
mod reading;
mod remembered;
mod vouchers;

pub use crate::reader::VoucherReader;
pub use crate::reading::{VoucherError, read_vouchers};
pub use crate::remembered::RememberedVouchers;
pub use crate::vouchers::Vouchers;
