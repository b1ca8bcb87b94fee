//! Certificates, revocation lists (RFC 5280) and certification requests (RFC 2986): the modules and
//! names of the Rust crate `x509-parser`. Reading is lenient, and accepts exactly what the lenient
//! grammar has.
//!
//! The types come from crates of their own, with their contracts.
#![tactic(auto)]

pub mod certificate;
pub mod certification_request;
pub mod cri_attributes;
pub mod error;
pub mod extensions;
pub mod objects;
pub mod prelude;
pub mod public_key;
pub mod revocation_list;
pub mod signature_algorithm;
pub mod signature_value;
pub mod time;
pub mod utils;
pub mod validate;
pub mod visitor;
pub mod x509;

pub use asn1_traits::FromDer;
pub use x509_certs::{parse_x509_certificate, parse_x509_der};
pub use x509_lists::{parse_crl_der, parse_x509_crl};
