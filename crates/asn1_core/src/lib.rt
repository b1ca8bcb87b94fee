//! What all ASN.1 readers of this repository depend on: classes, tag numbers, lengths and headers,
//! read strictly (DER) or leniently (BER), and the errors and results of all readers and writers.
//!
//! Octets are read from the front of a slice. A reader returns `(rest, value)`: the octets after
//! what it read, and the value.
#![tactic(auto)]

mod class;
mod count;
mod error;
mod header;
mod laws;
mod length;
mod memory;
mod octets;
mod outcome;
mod read;
mod serialize;
mod tag;

pub use crate::class::{BerClassFromIntError, Class};
pub use crate::count::HeaderCount;
pub use crate::error::{DerConstraint, Error, ErrorKind, Needed};
pub use crate::header::Header;
pub use crate::laws::{
    fewest_digits, lenient_is_ber, long_length, one_ber_header, one_element, one_header,
    one_lenient_header, strict_is_lenient,
};
pub use crate::length::Length;
pub use crate::memory::OutOfMemory;
pub use crate::octets::HeaderOctets;
pub use crate::outcome::{Err, IResult, ParseResult};
pub use crate::serialize::{SerializeError, SerializeResult};
pub use crate::tag::Tag;
