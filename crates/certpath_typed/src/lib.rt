//! The typed road: the class of an item by the lenient readers of certificates and revocation
//! lists, whose fields are written back and compared with the item.
//!
//! An item is a certificate if it is a DER object of at most 50 levels, the reader of certificates
//! reads all of it, the fields that it read are in range, and they write the item. It is a list if
//! the reader of lists does so. It is `Other` in every other case.
#![tactic(auto)]

mod certificates;
mod class;
mod comparison;
mod identifier;
pub mod laws;
mod lists;
mod parts;
mod read;
mod uncounted;
mod written;

pub use crate::class::read_typed_counted;
pub use crate::uncounted::read_typed;
pub use asn1_core::HeaderCount;
