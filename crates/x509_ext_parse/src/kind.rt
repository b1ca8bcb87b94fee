//! `Kind`, the known kinds of values, and their identifiers.

ghost use Rattle.std.specs.Prelude.{◌≡◌};
ghost use Rattle.x509_ext_parse.specs.Kinds.{identifier_of};
ghost use Rattle.x509_ext_parse.specs.Reading.{among, kind_of};

/// A known kind of values.
#[derive(Clone, Copy, Debug, PartialEq, Eq)]
pub enum Kind {
    /// RFC 5280, 4.2.1.2.
    SubjectKeyIdentifier,
    /// RFC 5280, 4.2.1.3.
    KeyUsage,
    /// RFC 5280, 4.2.1.6.
    SubjectAlternativeName,
    /// RFC 5280, 4.2.1.7.
    IssuerAlternativeName,
    /// RFC 5280, 4.2.1.9.
    BasicConstraints,
    /// RFC 5280, 5.2.3.
    CRLNumber,
    /// RFC 5280, 5.3.1.
    ReasonCode,
    /// RFC 5280, 5.3.2.
    InvalidityDate,
    /// RFC 5280, 5.2.5.
    IssuingDistributionPoint,
    /// RFC 5280, 4.2.1.10.
    NameConstraints,
    /// RFC 5280, 4.2.1.13.
    CRLDistributionPoints,
    /// RFC 5280, 4.2.1.4.
    CertificatePolicies,
    /// RFC 5280, 4.2.1.5.
    PolicyMappings,
    /// RFC 5280, 4.2.1.1.
    AuthorityKeyIdentifier,
    /// RFC 5280, 4.2.1.11.
    PolicyConstraints,
    /// RFC 5280, 4.2.1.12.
    ExtendedKeyUsage,
    /// RFC 5280, 4.2.1.14.
    InhibitAnyPolicy,
    /// RFC 5280, 4.2.2.1.
    AuthorityInfoAccess,
    /// RFC 5280, 4.2.2.2.
    SubjectInfoAccess,
    /// RFC 6962, 3.3.
    SCT,
    /// Netscape's type of a certificate.
    NSCertType,
    /// Netscape's comment.
    NsCertComment,
}

/// All known kinds.
const KNOWN: [Kind; 22] = [
    Kind::SubjectKeyIdentifier,
    Kind::KeyUsage,
    Kind::SubjectAlternativeName,
    Kind::IssuerAlternativeName,
    Kind::BasicConstraints,
    Kind::CRLNumber,
    Kind::ReasonCode,
    Kind::InvalidityDate,
    Kind::IssuingDistributionPoint,
    Kind::NameConstraints,
    Kind::CRLDistributionPoints,
    Kind::CertificatePolicies,
    Kind::PolicyMappings,
    Kind::AuthorityKeyIdentifier,
    Kind::PolicyConstraints,
    Kind::ExtendedKeyUsage,
    Kind::InhibitAnyPolicy,
    Kind::AuthorityInfoAccess,
    Kind::SubjectInfoAccess,
    Kind::SCT,
    Kind::NSCertType,
    Kind::NsCertComment,
];

impl Kind {
    // The content octets of the extension's identifier.
    fn identifier(self) -> &'static [u8]
        ensures { result.now ≡ identifier_of self }
    {
        match self {
            Kind::SubjectKeyIdentifier => b"\x55\x1d\x0e",
            Kind::KeyUsage => b"\x55\x1d\x0f",
            Kind::SubjectAlternativeName => b"\x55\x1d\x11",
            Kind::IssuerAlternativeName => b"\x55\x1d\x12",
            Kind::BasicConstraints => b"\x55\x1d\x13",
            Kind::CRLNumber => b"\x55\x1d\x14",
            Kind::ReasonCode => b"\x55\x1d\x15",
            Kind::InvalidityDate => b"\x55\x1d\x18",
            Kind::IssuingDistributionPoint => b"\x55\x1d\x1c",
            Kind::NameConstraints => b"\x55\x1d\x1e",
            Kind::CRLDistributionPoints => b"\x55\x1d\x1f",
            Kind::CertificatePolicies => b"\x55\x1d\x20",
            Kind::PolicyMappings => b"\x55\x1d\x21",
            Kind::AuthorityKeyIdentifier => b"\x55\x1d\x23",
            Kind::PolicyConstraints => b"\x55\x1d\x24",
            Kind::ExtendedKeyUsage => b"\x55\x1d\x25",
            Kind::InhibitAnyPolicy => b"\x55\x1d\x36",
            Kind::AuthorityInfoAccess => b"\x2b\x06\x01\x05\x05\x07\x01\x01",
            Kind::SubjectInfoAccess => b"\x2b\x06\x01\x05\x05\x07\x01\x0b",
            Kind::SCT => b"\x2b\x06\x01\x04\x01\xd6\x79\x02\x04\x02",
            Kind::NSCertType => b"\x60\x86\x48\x01\x86\xf8\x42\x01\x01",
            Kind::NsCertComment => b"\x60\x86\x48\x01\x86\xf8\x42\x01\x0d",
        }
    }
}

// The kind of this identifier among some.
fn among(identifier: &[u8], kinds: &[Kind]) -> Option<Kind>
    ensures { result ≡ among identifier.now kinds.now }
{
    for kind in kinds {
        if kind.identifier() == identifier {
            return Some(*kind);
        }
    }
    None
}

// The only kind whose identifier may have this length and this last octet. Whether it is the kind isn't asked.
fn likely_kind_of(identifier: &[u8]) -> Option<Kind> {
    let [.., last] = identifier else {
        return None;
    };
    match (identifier.len(), *last) {
        (3, 0x0e) => Some(Kind::SubjectKeyIdentifier),
        (3, 0x0f) => Some(Kind::KeyUsage),
        (3, 0x11) => Some(Kind::SubjectAlternativeName),
        (3, 0x12) => Some(Kind::IssuerAlternativeName),
        (3, 0x13) => Some(Kind::BasicConstraints),
        (3, 0x14) => Some(Kind::CRLNumber),
        (3, 0x15) => Some(Kind::ReasonCode),
        (3, 0x18) => Some(Kind::InvalidityDate),
        (3, 0x1c) => Some(Kind::IssuingDistributionPoint),
        (3, 0x1e) => Some(Kind::NameConstraints),
        (3, 0x1f) => Some(Kind::CRLDistributionPoints),
        (3, 0x20) => Some(Kind::CertificatePolicies),
        (3, 0x21) => Some(Kind::PolicyMappings),
        (3, 0x23) => Some(Kind::AuthorityKeyIdentifier),
        (3, 0x24) => Some(Kind::PolicyConstraints),
        (3, 0x25) => Some(Kind::ExtendedKeyUsage),
        (3, 0x36) => Some(Kind::InhibitAnyPolicy),
        (8, 0x01) => Some(Kind::AuthorityInfoAccess),
        (8, 0x0b) => Some(Kind::SubjectInfoAccess),
        (9, 0x01) => Some(Kind::NSCertType),
        (9, 0x0d) => Some(Kind::NsCertComment),
        (10, 0x02) => Some(Kind::SCT),
        _ => None,
    }
}

/// The kind with this identifier, or `None`.
pub(crate) fn kind_of(identifier: &[u8]) -> Option<Kind>
    ensures { result ≡ kind_of identifier.now }
{
    if let Some(kind) = likely_kind_of(identifier) {
        if kind.identifier() == identifier {
            return Some(kind);
        }
    }
    among(identifier, KNOWN.as_slice())
}
