//! Unsigned integers of any size, as borrowed octets.
#![tactic(auto)]

mod compare;
pub mod laws;
mod unsigned;

pub use crate::unsigned::UnsignedBytes;
