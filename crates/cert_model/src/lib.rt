//! What certificates and revocation lists are, by one spelling (RFC 5280, 4.1 and 5.1; X.690, 10
//! and 11).
//!
//! The definitions go from fields to octets: `specs/Octets.antt` says what fields write,
//! `specs/Range.antt` which fields may be written, `specs/Class.antt` what octets are. Of octets
//! `parts` alone reads, single elements. A reader of items is in no file here: `certcheck` has one,
//! `certpath_typed` another.
#![tactic(auto)]

mod ascending;
mod class;
pub mod fields;
pub mod identifiers;
mod key_ids;
pub mod laws;
pub mod parts;
mod range;

pub use crate::class::ItemClass;
pub use cert_framing::Items;
pub use der_tree::{bits_of, is_negative_integer, is_shortest_integer, number_of};
