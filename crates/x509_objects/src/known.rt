//! The known identifiers.

ghost use Rattle.std.specs.Prelude.{◌≡◌, ℕ, List, Some, if◌then◌else◌, bytes_eq, option_map, IfOk};
ghost use Rattle.std.specs.Result.{result_ok};
ghost use Rattle.x509_objects.specs.Registry.{entry_of, abbreviated};
ghost use Rattle.x509_objects.specs.Table.{plain, places, owners, algorithms, told_else, known_entry, abbreviation_of};

use crate::registry::{NidError, OidEntry, OidRegistry};
use asn1_core::OutOfMemory;
use asn1_oid::Oid;
use std::alloc::Global;

// 2.5.4.3
const COMMON_NAME: &[u8] = b"\x55\x04\x03";

// 2.5.4.6
const COUNTRY: &[u8] = b"\x55\x04\x06";

// 2.5.4.7
const LOCALITY: &[u8] = b"\x55\x04\x07";

// 2.5.4.8
const STATE_OR_PROVINCE: &[u8] = b"\x55\x04\x08";

// 2.5.4.10
const ORGANIZATION: &[u8] = b"\x55\x04\x0a";

// 2.5.4.11
const ORGANIZATIONAL_UNIT: &[u8] = b"\x55\x04\x0b";

// 0.9.2342.19200300.100.1.25
const DOMAIN_COMPONENT: &[u8] = b"\x09\x92\x26\x89\x93\xf2\x2c\x64\x01\x19";

// 1.2.840.113549.1.9.1
const EMAIL_ADDRESS: &[u8] = b"\x2a\x86\x48\x86\xf7\x0d\x01\x09\x01";

// 1.2.840.113549.1.1.1
const RSA_ENCRYPTION: &[u8] = b"\x2a\x86\x48\x86\xf7\x0d\x01\x01\x01";

// 1.2.840.10045.2.1
const EC_PUBLIC_KEY: &[u8] = b"\x2a\x86\x48\xce\x3d\x02\x01";

// 1.2.840.10040.4.1
const DSA: &[u8] = b"\x2a\x86\x48\xce\x38\x04\x01";

// 1.2.840.113549.1.1.8
const MGF1: &[u8] = b"\x2a\x86\x48\x86\xf7\x0d\x01\x01\x08";

/// A registry of the known identifiers: attribute types with an abbreviation, the algorithms of
/// RSA, EC and DSA keys, and the mask generation function MGF1.
///
/// # Errors
///
/// `OutOfMemory`.
pub fn oid_registry(alloc: Global) -> Result<OidRegistry, OutOfMemory>
    ensures { IfOk result (λ r. (id : List ℕ) → entry_of r id ≡ known_entry id) }
{
    let mut registry = OidRegistry::new(alloc);
    add_places(&mut registry, alloc)?;
    add_owners(&mut registry, alloc)?;
    add_algorithms(&mut registry, alloc)?;
    Ok(registry)
}

// Adds the attribute types of persons and places.
fn add_places(registry: &mut OidRegistry, alloc: Global) -> Result<(), OutOfMemory>
    ensures { IfOk result (λ _. (id : List ℕ) → entry_of registry.new id ≡ told_else places id (entry_of registry.old id)) }
{
    add(registry, alloc, COMMON_NAME, "commonName")?;
    add(registry, alloc, COUNTRY, "countryName")?;
    add(registry, alloc, LOCALITY, "localityName")?;
    add(registry, alloc, STATE_OR_PROVINCE, "stateOrProvinceName")
}

// Adds the attribute types of organizations, domains and mail.
fn add_owners(registry: &mut OidRegistry, alloc: Global) -> Result<(), OutOfMemory>
    ensures { IfOk result (λ _. (id : List ℕ) → entry_of registry.new id ≡ told_else owners id (entry_of registry.old id)) }
{
    add(registry, alloc, ORGANIZATION, "organizationName")?;
    add(registry, alloc, ORGANIZATIONAL_UNIT, "organizationalUnit")?;
    add(registry, alloc, DOMAIN_COMPONENT, "domainComponent")?;
    add(registry, alloc, EMAIL_ADDRESS, "emailAddress")
}

// Adds the algorithms.
fn add_algorithms(registry: &mut OidRegistry, alloc: Global) -> Result<(), OutOfMemory>
    ensures { IfOk result (λ _. (id : List ℕ) → entry_of registry.new id ≡ told_else algorithms id (entry_of registry.old id)) }
{
    add(registry, alloc, RSA_ENCRYPTION, "rsaEncryption")?;
    add(registry, alloc, EC_PUBLIC_KEY, "ecPublicKey")?;
    add(registry, alloc, DSA, "dsa")?;
    let mgf1 = OidEntry::new("id-mgf1", "Mask Generator Function 1 (MGF1)");
    registry.put(alloc, MGF1, mgf1)?;
    Ok(())
}

// Adds a name that describes itself.
fn add(
    registry: &mut OidRegistry,
    alloc: Global,
    octets: &[u8],
    name: &'static str,
) -> Result<(), OutOfMemory>
    ensures { IfOk result (λ _. (id : List ℕ) → entry_of registry.new id
        ≡ (if bytes_eq id octets.now then Some (plain octets.now name.now).told else entry_of registry.old id)) }
{
    registry.put(alloc, octets, OidEntry::new(name, name))?;
    Ok(())
}

/// The abbreviation of an attribute type, as `CN`; else the identifier's short name in the
/// registry.
///
/// # Errors
///
/// `NidError` if there is neither.
pub fn oid2abbrev(oid: &Oid<'_>, registry: &OidRegistry) -> Result<&'static str, NidError>
    ensures { option_map (λ s. s.now) (result_ok result) ≡ abbreviated registry.now oid.now }
{
    if let Some(text) = abbreviation(oid.as_bytes()) {
        return Ok(text);
    }
    match registry.get(oid) {
        Some(entry) => Ok(entry.sn()),
        None => Err(NidError),
    }
}

// The abbreviation of an attribute type.
fn abbreviation(octets: &[u8]) -> Option<&'static str>
    ensures { option_map (λ s. s.now) result ≡ abbreviation_of octets.now }
{
    if octets == COMMON_NAME {
        Some("CN")
    } else if octets == COUNTRY {
        Some("C")
    } else if octets == LOCALITY {
        Some("L")
    } else if octets == STATE_OR_PROVINCE {
        Some("ST")
    } else if octets == ORGANIZATION {
        Some("O")
    } else if octets == ORGANIZATIONAL_UNIT {
        Some("OU")
    } else if octets == DOMAIN_COMPONENT {
        Some("DC")
    } else if octets == EMAIL_ADDRESS {
        Some("Email")
    } else {
        None
    }
}
