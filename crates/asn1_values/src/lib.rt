//! The primitive values of ASN.1 that have types of their own: booleans, integers, enumerated
//! values, null, bit strings and octet strings.
#![tactic(auto)]

mod bitstring;
mod boolean;
mod enumerated;
mod integer;
pub mod laws;
mod null;
mod octetstring;
mod whole;

pub use crate::bitstring::BitString;
pub use crate::boolean::Boolean;
pub use crate::enumerated::Enumerated;
pub use crate::integer::Integer;
pub use crate::null::Null;
pub use crate::octetstring::OctetString;
