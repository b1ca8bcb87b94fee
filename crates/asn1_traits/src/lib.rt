//! The traits by which values are read from elements and written as elements, their laws, and the
//! readers and writers of Rust's own types.
#![tactic(auto)]

mod any;
mod ber_items;
mod boolean;
mod integer;
mod integers;
mod items;
mod laws;
mod leaf;
mod list;
mod null;
mod octets;
mod oid;
mod option;
mod read;
mod round_trip;
mod text;
mod window;
mod write;
mod written;

pub use crate::ber_items::read_ber_items;
pub use crate::integer::{DerInteger, Whole, check_shortest, integer_functions};
pub use crate::items::read_items;
pub use crate::laws::{DerElement, TaggedElement};
pub use crate::leaf::{DerLeaf, FromLeaf};
pub use crate::list::check_container;
pub use crate::read::{
    AnyMeaning, BerMeaning, CheckDerConstraints, DerAnyMeaning, DerAutoDerive, DerMeaning, FromAny,
    FromBer, FromDer, FromDerAny, Tagged,
};
pub use crate::round_trip::{read_back, read_back_optional};
pub use crate::write::{DerKind, ToDer, write_all};
pub use crate::written::{are_in_der_form, items_len, write_items};
