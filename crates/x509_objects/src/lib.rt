//! Names of object identifiers: a registry of short names and descriptions, and the abbreviations of attribute types.
#![tactic(auto)]

mod known;
mod laws;
mod registry;

pub use crate::known::{oid_registry, oid2abbrev};
pub use crate::laws::{abbreviated_types, known_identifiers};
pub use crate::registry::{NidError, OidEntry, OidRegistry, oid2description, oid2sn};
