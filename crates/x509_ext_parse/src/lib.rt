//! Parsing the values of extensions by their identifiers (RFC 5280, 4.2, 5.2 and 5.3; RFC 6962,
//! 3.3).
#![tactic(auto)]

mod flags;
mod general;
mod kind;
mod leaves;
mod others;
mod parse;
mod parsed;
mod settled;
pub mod types;

pub use crate::parse::parse_extension;
pub use crate::parsed::ParsedExtension;
pub use x509_ext_basic::number_of;
