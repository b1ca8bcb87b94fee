//! Cuts a stream of octets, which arrives in pieces of any size, into DER items: certificates and
//! revocation lists in a file one after another.
#![tactic(auto)]

mod bundle;
mod ending;
mod front;
mod items;
mod laws;

pub use bundle::{Bundle, BundleError};
pub use ending::End;
pub use items::Items;
pub use laws::{any_cutting, one_bundle, one_framing, one_item, one_stream};
