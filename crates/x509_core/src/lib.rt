//! What the readers of certificates, revocation lists and requests share: their errors, a content
//! cut into its elements, and readers of single elements.
#![tactic(auto)]

mod ahead;
mod elements;
mod error;
mod parts;
mod room;

pub use crate::elements::{
    cut_all, front_element, front_header, leaf_of, named, oid_of, parts_of, renamed,
};
pub use crate::error::{X509Error, X509Result};
pub use crate::parts::Parts;
pub use crate::room::push_in_room;
pub use asn1_any::Any;
pub use asn1_oid::Oid;
pub use asn1_traits::{DerLeaf, DerMeaning, FromDer, FromLeaf, check_shortest};
