//! The fields of certificates and revocation lists written back as the octets that spell them.
//!
//! What is written is the one spelling of `cert_model` (`specs/Octets.antt`), by a walk over the
//! fields: lengths are counted first, and no memory is taken. Whether octets are what fields write
//! is found by a walk from the end, which counts nothing.
#![tactic(auto)]

mod certificates;
mod encode;
mod lists;
mod parts;
mod rebuild;
mod times;

pub use crate::rebuild::{rebuild_certificate, rebuild_list, writes_certificate, writes_list};
