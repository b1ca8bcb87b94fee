//! Names of object identifiers.

pub use x509_objects::{
    OidEntry, OidRegistry, abbreviated_types, known_identifiers, oid_registry, oid2abbrev,
    oid2description, oid2sn,
};
