//! Labels of attribute types, as `CN`.

ghost use Rattle.std.specs.Prelude.{◌≡◌, option_map};
ghost use Rattle.x509_names.specs.NameTexts.{known_label};
ghost use Rattle.x509_names.specs.Writing.{label_of};
ghost use Rattle.x509_objects.specs.Table.{abbreviation_of, known_entry};

use asn1_oid::Oid;
use x509_objects::{OidRegistry, oid2abbrev};

// 2.5.4.3
const COMMON_NAME: &[u8] = b"\x55\x04\x03";

// 2.5.4.6
const COUNTRY: &[u8] = b"\x55\x04\x06";

// 2.5.4.7
const LOCALITY: &[u8] = b"\x55\x04\x07";

// 2.5.4.8
const STATE_OR_PROVINCE: &[u8] = b"\x55\x04\x08";

// 2.5.4.10
const ORGANIZATION: &[u8] = b"\x55\x04\x0a";

// 2.5.4.11
const ORGANIZATIONAL_UNIT: &[u8] = b"\x55\x04\x0b";

// 0.9.2342.19200300.100.1.25
const DOMAIN_COMPONENT: &[u8] = b"\x09\x92\x26\x89\x93\xf2\x2c\x64\x01\x19";

// 1.2.840.113549.1.9.1
const EMAIL_ADDRESS: &[u8] = b"\x2a\x86\x48\x86\xf7\x0d\x01\x09\x01";

// 1.2.840.113549.1.1.1
const RSA_ENCRYPTION: &[u8] = b"\x2a\x86\x48\x86\xf7\x0d\x01\x01\x01";

// 1.2.840.10045.2.1
const EC_PUBLIC_KEY: &[u8] = b"\x2a\x86\x48\xce\x3d\x02\x01";

// 1.2.840.10040.4.1
const DSA: &[u8] = b"\x2a\x86\x48\xce\x38\x04\x01";

// 1.2.840.113549.1.1.8
const MGF1: &[u8] = b"\x2a\x86\x48\x86\xf7\x0d\x01\x01\x08";

/// Where the labels of attribute types are looked up.
#[derive(Clone, Copy)]
pub(crate) enum Labels<'n> {
    /// In the identifiers of `oid_registry`, without building that registry.
    Known,
    /// In a registry of the caller.
    Of(&'n OidRegistry),
}

impl<'n> Labels<'n> {
    /// The abbreviation of the type, else its short name, else `None`.
    pub(crate) fn label(self, oid: &Oid<'_>) -> Option<&'static str>
        ensures { option_map (λ s. s.now) result ≡ label_of self.entry oid.now }
    {
        match self {
            Labels::Known => known_label(oid.as_bytes()),
            Labels::Of(registry) => oid2abbrev(oid, registry).ok(),
        }
    }
}

fn known_label(octets: &[u8]) -> Option<&'static str>
    ensures { option_map (λ s. s.now) result ≡ known_label octets.now }
{
    match abbreviation(octets) {
        Some(text) => Some(text),
        None => short_name(octets),
    }
}

// The abbreviation of an attribute type.
fn abbreviation(octets: &[u8]) -> Option<&'static str>
    ensures { option_map (λ s. s.now) result ≡ abbreviation_of octets.now }
{
    if octets == COMMON_NAME {
        Some("CN")
    } else if octets == COUNTRY {
        Some("C")
    } else if octets == LOCALITY {
        Some("L")
    } else if octets == STATE_OR_PROVINCE {
        Some("ST")
    } else if octets == ORGANIZATION {
        Some("O")
    } else if octets == ORGANIZATIONAL_UNIT {
        Some("OU")
    } else if octets == DOMAIN_COMPONENT {
        Some("DC")
    } else if octets == EMAIL_ADDRESS {
        Some("Email")
    } else {
        None
    }
}

// The short name in the registry that is handed out.
fn short_name(octets: &[u8]) -> Option<&'static str>
    ensures { option_map (λ s. s.now) result ≡ option_map (λ e. e.short_name) (known_entry octets.now) }
{
    if octets == MGF1 {
        Some("id-mgf1")
    } else if octets == DSA {
        Some("dsa")
    } else if octets == EC_PUBLIC_KEY {
        Some("ecPublicKey")
    } else if octets == RSA_ENCRYPTION {
        Some("rsaEncryption")
    } else if octets == EMAIL_ADDRESS {
        Some("emailAddress")
    } else if octets == DOMAIN_COMPONENT {
        Some("domainComponent")
    } else if octets == ORGANIZATIONAL_UNIT {
        Some("organizationalUnit")
    } else if octets == ORGANIZATION {
        Some("organizationName")
    } else if octets == STATE_OR_PROVINCE {
        Some("stateOrProvinceName")
    } else if octets == LOCALITY {
        Some("localityName")
    } else if octets == COUNTRY {
        Some("countryName")
    } else if octets == COMMON_NAME {
        Some("commonName")
    } else {
        None
    }
}
