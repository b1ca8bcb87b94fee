//! Names of identifiers.

use crate::kinds::OnOctets;
use crate::words::had;
use asn1_oid::Oid;
use rows_hex::Added;
use x509_objects::{OidRegistry, oid_registry, oid2abbrev, oid2description, oid2sn};

/// Adds what the call answers of an identifier with these octets.
pub(crate) fn add_name_of(text: &mut String, call: OnOctets, octets: &[u8]) -> Added {
    let registry = had(oid_registry(*text.allocator()))?;
    text.push_str(name_in(&registry, call, &Oid::new(octets)))
}

fn name_in(registry: &OidRegistry, call: OnOctets, oid: &Oid<'_>) -> &'static str {
    let name = match call {
        OnOctets::ShortName => oid2sn(oid, registry),
        OnOctets::Description => oid2description(oid, registry),
        _ => oid2abbrev(oid, registry),
    };
    name.unwrap_or("no name")
}
