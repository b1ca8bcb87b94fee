//! The fields of certificates and revocation lists, as they lie in an item.
//!
//! All octets are borrowed. Times are civil UTC. Which fields have a spelling is said by
//! `AreCertificateFields` and `AreListFields` of `specs/Range.antt`.

use asn1_core::{Class, Tag};
use jiff::civil::DateTime;

/// Any element: its header's class, constructed bit and tag, and its content octets (X.690, 8.1).
#[derive(Clone, Copy, Debug, PartialEq, Eq)]
pub struct AnyField<'a> {
    pub class: Class,
    /// The content octets are elements (X.690, 8.1.2.5).
    pub constructed: bool,
    pub tag: Tag,
    pub content: &'a [u8],
}

/// AlgorithmIdentifier (RFC 5280, 4.1.1.2): the content octets of the identifier, and the
/// parameters if there are any.
#[derive(Clone, Copy, Debug, PartialEq, Eq)]
pub struct AlgField<'a> {
    pub identifier: &'a [u8],
    pub parameters: Option<AnyField<'a>>,
}

/// AttributeTypeAndValue (RFC 5280, 4.1.2.4).
#[derive(Clone, Copy, Debug, PartialEq, Eq)]
pub struct AttrField<'a> {
    pub identifier: &'a [u8],
    pub value: AnyField<'a>,
}

/// Name (RFC 5280, 4.1.2.4): its relative distinguished names, each in the order in which it is
/// written.
#[derive(Debug, PartialEq, Eq, Drop)]
pub struct NameFields<'a> {
    pub sets: Vec<Vec<AttrField<'a>>>,
}

/// A BIT STRING: how many bits of the last octet are unused, and the octets (X.690, 8.6).
#[derive(Clone, Copy, Debug, PartialEq, Eq)]
pub struct BitField<'a> {
    /// From 0 to 7.
    pub unused: u8,
    pub octets: &'a [u8],
}

/// SubjectPublicKeyInfo (RFC 5280, 4.1.2.7).
#[derive(Clone, Copy, Debug, PartialEq, Eq)]
pub struct KeyField<'a> {
    pub algorithm: AlgField<'a>,
    pub key: BitField<'a>,
}

/// Extension (RFC 5280, 4.2): the content octets of the identifier, and of the OCTET STRING that
/// holds the value.
#[derive(Clone, Copy, Debug, PartialEq, Eq)]
pub struct ExtField<'a> {
    pub identifier: &'a [u8],
    pub critical: bool,
    pub value: &'a [u8],
}

/// Certificate with its TBSCertificate (RFC 5280, 4.1). `version` counts from 0, as it is written;
/// `serial` is the content octets of the INTEGER; `algorithm` and `signature_value` come after the
/// TBSCertificate.
#[derive(Debug, PartialEq, Eq, Drop)]
pub struct CertFields<'a> {
    pub version: u8,
    pub serial: &'a [u8],
    pub signature: AlgField<'a>,
    pub issuer: NameFields<'a>,
    pub not_before: DateTime,
    pub not_after: DateTime,
    pub subject: NameFields<'a>,
    pub key: KeyField<'a>,
    pub issuer_id: Option<BitField<'a>>,
    pub subject_id: Option<BitField<'a>>,
    pub extensions: Vec<ExtField<'a>>,
    pub algorithm: AlgField<'a>,
    pub signature_value: BitField<'a>,
}

/// An entry of revokedCertificates (RFC 5280, 5.1.2.6).
#[derive(Debug, PartialEq, Eq, Drop)]
pub struct EntryFields<'a> {
    pub serial: &'a [u8],
    pub date: DateTime,
    pub extensions: Vec<ExtField<'a>>,
}

/// CertificateList with its TBSCertList (RFC 5280, 5.1). `version` is 1 if it is written.
#[derive(Debug, PartialEq, Eq, Drop)]
pub struct ListFields<'a> {
    pub version: Option<u8>,
    pub signature: AlgField<'a>,
    pub issuer: NameFields<'a>,
    pub this_update: DateTime,
    pub next_update: Option<DateTime>,
    pub entries: Vec<EntryFields<'a>>,
    pub extensions: Vec<ExtField<'a>>,
    pub algorithm: AlgField<'a>,
    pub signature_value: BitField<'a>,
}
