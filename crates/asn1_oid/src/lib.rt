//! Object identifiers of ASN.1 (X.690, 8.19).
#![tactic(auto)]

pub use components::SubIdentifierIterator;
pub use content::is_oid_content;
pub use identifier::Oid;

mod compare;
mod components;
mod content;
mod identifier;
pub mod laws;
mod spell;
mod text;
