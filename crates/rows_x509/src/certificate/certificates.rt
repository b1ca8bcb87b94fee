//! Versions, extensions and certificates.

use crate::call::copies::{add_copy, add_serial as add_serial_text};
use crate::call::maps::add_map;
use crate::call::parsers::add_kinds;
use crate::called::Called;
use crate::certificate::getters::add_extension;
use crate::kinds::{Check, OfCertificate, OfSignedPart};
use crate::validator::certificate::{add_check, add_judged};
use crate::validator::messages::add_by_itself;
use crate::walk;
use crate::words::{
    Words, add, add_each, add_error, add_refusal, add_text_before, add_words_before, count_text,
};
use asn1_core::HeaderCount;
use asn1_oid::Oid;
use rows_hex::{Added, add_hex, octets_of};
use std::alloc::Global;
use x509_core::Parts;
use x509_ext::types::format_serial;
use x509_ext::{
    UniqueIdentifier, X509Extension, X509Version, each_extension, find_extension,
    get_extension_unique, next_version,
};
use x509_parser::certificate::{TbsCertificate, X509Certificate, X509CertificateParser};

/// Adds the version that begins a certificate's content, or the first one where none is written; then the octets that are left.
pub(crate) fn add_version_at(text: &mut String, octets: &[u8]) -> Added {
    let alloc = *text.allocator();
    let mut count = HeaderCount::new();
    let Ok(mut parts) = Parts::cut(alloc, octets, &mut count) else {
        return text.push_str("out of memory");
    };
    match next_version(alloc, &mut parts, &mut count) {
        Ok(version) => add_text_before(text, &version, parts.left()),
        Err(refusal) => add_refusal(text, &refusal),
    }
}

/// Adds the extension of this identifier among those that the octets are: the first, or the only one.
pub(crate) fn add_extension_among(
    text: &mut String,
    is_unique: bool,
    identifier: &str,
    octets: &[u8],
) -> Added {
    let alloc: Global = *text.allocator();
    match octets_of(alloc, identifier)? {
        Some(identifier) => add_found(text, is_unique, &Oid::new(&identifier), octets),
        None => text.push_str("no identifier"),
    }
}

fn add_found(text: &mut String, is_unique: bool, oid: &Oid<'_>, octets: &[u8]) -> Added {
    match extensions_of(*text.allocator(), octets) {
        Some(extensions) if is_unique => add_unique(text, oid, &extensions),
        Some(extensions) => add_first(text, oid, &extensions),
        None => text.push_str("out of memory"),
    }
}

fn add_first(text: &mut String, oid: &Oid<'_>, extensions: &[X509Extension<'_>]) -> Added {
    match find_extension(extensions, oid) {
        Some(extension) => extension.add_words(text),
        None => text.push_str("none"),
    }
}

fn add_unique(text: &mut String, oid: &Oid<'_>, extensions: &[X509Extension<'_>]) -> Added {
    match get_extension_unique(extensions, oid) {
        Ok(Some(extension)) => extension.add_words(text),
        Ok(None) => text.push_str("none"),
        Err(error) => add_error(text, &error),
    }
}

/// The extensions that begin the octets, one behind the other; none where memory ran out.
fn extensions_of<'a>(alloc: Global, octets: &'a [u8]) -> Option<Vec<X509Extension<'a>>> {
    let mut count = HeaderCount::new();
    let Ok(mut parts) = Parts::cut(alloc, octets, &mut count) else {
        return None;
    };
    match each_extension(alloc, &mut parts, true, &mut count) {
        Ok(extensions) => Some(extensions),
        Err(_) => None,
    }
}

/// Whether a certificate is read, and whether the number of headers that were tried is in its bounds: at most eight for each
/// octet, and at least 17 of a certificate.
pub(crate) fn counted(alloc: Global, octets: &[u8]) -> &'static str {
    let mut count = HeaderCount::new();
    let is_read = X509CertificateParser::new()
        .parse_counted(alloc, octets, &mut count)
        .is_ok();
    count_text(is_read, count.get(), 17, octets.len())
}

/// Adds the octets in hexadecimal, with a colon between two.
pub(crate) fn add_serial(text: &mut String, octets: &[u8]) -> Added {
    let alloc = *text.allocator();
    add_serial_text(text, format_serial(alloc, octets))
}

impl Words for X509Version {
    fn add_words(&self, text: &mut String) -> Added {
        write!(text, "{self}, {}", self.0)
    }
}

impl Words for X509Extension<'_> {
    fn add_words(&self, text: &mut String) -> Added {
        let critical = if self.critical { "critical, " } else { "" };
        write!(text, "{}, {critical}", self.oid)?;
        add_hex(text, self.value)?;
        text.push_str(", ")?;
        self.parsed_extension().add_words(text)
    }
}

impl Words for TbsCertificate<'_> {
    fn add_words(&self, text: &mut String) -> Added {
        add_hex(text, self.as_ref())?;
        write!(text, "\n  version {}\n  serial ", self.version())?;
        add_hex(text, self.raw_serial())?;
        add(text, "signature", &self.signature)?;
        add(text, "issuer", self.issuer())?;
        add(text, "validity", self.validity())?;
        add(text, "subject", self.subject())?;
        add(text, "key", self.public_key())?;
        add_identifier(text, "issuer id", &self.issuer_uid)?;
        add_identifier(text, "subject id", &self.subject_uid)?;
        add_each(text, "extension", self.iter_extensions())
    }
}

impl Words for X509Certificate<'_> {
    fn add_words(&self, text: &mut String) -> Added {
        self.tbs_certificate.add_words(text)?;
        add(text, "algorithm", &self.signature_algorithm)?;
        add(text, "signature value", &self.signature_value)?;
        text.push_str("\n  of ")?;
        add_hex(text, self.as_raw())
    }
}

/// Adds a line of an identifier that stands.
fn add_identifier(
    text: &mut String,
    name: &str,
    identifier: &Option<UniqueIdentifier<'_>>,
) -> Added {
    match identifier {
        Some(identifier) => add(text, name, &identifier.0),
        None => Ok(()),
    }
}

impl Called<OfCertificate> for X509Certificate<'_> {
    fn add_called(&self, text: &mut String, call: OfCertificate, rest: &[u8]) -> Added {
        let alloc = *text.allocator();
        match call {
            OfCertificate::Words => add_words_before(text, self, rest),
            OfCertificate::Copy => add_copy(text, self),
            OfCertificate::Serial => add_serial_text(text, self.raw_serial_as_string(alloc)),
            OfCertificate::Map => add_map(text, self.extensions_map(alloc)),
            OfCertificate::Walk => walk::certificate::add_certificate(text, self),
            OfCertificate::Kinds => add_kinds(text, self.extensions(), rest),
            OfCertificate::Get(getter) => add_extension(text, getter, self),
            OfCertificate::Check(check) => add_check(text, check, self),
        }
    }
}

impl Called<OfSignedPart> for TbsCertificate<'_> {
    fn add_called(&self, text: &mut String, call: OfSignedPart, rest: &[u8]) -> Added {
        let alloc = *text.allocator();
        match call {
            OfSignedPart::Words => add_words_before(text, self, rest),
            OfSignedPart::Serial => add_serial_text(text, self.raw_serial_as_string(alloc)),
            OfSignedPart::Map => add_map(text, self.extensions_map(alloc)),
            OfSignedPart::Walk => walk::certificate::add_tbs(text, self),
            OfSignedPart::Kinds => add_kinds(text, self.extensions(), rest),
            OfSignedPart::Structure => add_judged(text, Check::Structure, self),
            OfSignedPart::Validate => add_by_itself(text, self),
        }
    }
}
