//! Certification requests and their attributes.

use crate::call::copies::add_copy;
use crate::call::maps::add_map;
use crate::called::Called;
use crate::kinds::{OfAttribute, OfRequest, OfRequestInfo};
use crate::words::{Words, add, add_each, add_words_before};
use asn1_oid::Oid;
use rows_hex::{Added, add_hex};
use x509_parser::certification_request::{X509CertificationRequest, X509CertificationRequestInfo};
use x509_parser::cri_attributes::{ExtensionRequest, ParsedCriAttribute, X509CriAttribute};

impl Called<OfRequest> for X509CertificationRequest<'_> {
    fn add_called(&self, text: &mut String, call: OfRequest, rest: &[u8]) -> Added {
        match call {
            OfRequest::Words => add_words_before(text, self, rest),
            OfRequest::Extensions => add_requested(text, self),
        }
    }
}

impl Called<OfRequestInfo> for X509CertificationRequestInfo<'_> {
    fn add_called(&self, text: &mut String, call: OfRequestInfo, rest: &[u8]) -> Added {
        let alloc = *text.allocator();
        match call {
            OfRequestInfo::Words => add_words_before(text, self, rest),
            OfRequestInfo::Find => add_password(text, self),
            OfRequestInfo::Map => add_map(text, self.attributes_map(alloc)),
        }
    }
}

impl Called<OfAttribute> for X509CriAttribute<'_> {
    fn add_called(&self, text: &mut String, call: OfAttribute, rest: &[u8]) -> Added {
        match call {
            OfAttribute::Words => add_words_before(text, self, rest),
            OfAttribute::Copy => add_copy(text, self),
        }
    }
}

/// Adds what the requested extensions were parsed as, one behind the other.
fn add_requested(text: &mut String, request: &X509CertificationRequest<'_>) -> Added {
    let Some(extensions) = request.requested_extensions() else {
        return text.push_str("none");
    };
    for extension in extensions {
        add_in_parentheses(text, extension)?;
    }
    Ok(())
}

fn add_in_parentheses<T: Words>(text: &mut String, value: &T) -> Added {
    text.push('(')?;
    value.add_words(text)?;
    text.push(')')
}

/// Adds the first challenge password.
fn add_password(text: &mut String, info: &X509CertificationRequestInfo<'_>) -> Added {
    match info.find_attribute(&Oid::new(b"\x2a\x86\x48\x86\xf7\x0d\x01\x09\x07")) {
        Some(attribute) => attribute.add_words(text),
        None => text.push_str("none"),
    }
}

impl Words for ExtensionRequest<'_> {
    fn add_words(&self, text: &mut String) -> Added {
        text.push_str("extensions")?;
        add_each(text, "  extension", self.extensions.iter())
    }
}

impl Words for X509CriAttribute<'_> {
    fn add_words(&self, text: &mut String) -> Added {
        write!(text, "{}, ", self.oid)?;
        add_hex(text, self.value)?;
        text.push_str(", ")?;
        match self.parsed_attribute() {
            ParsedCriAttribute::ChallengePassword(password) => {
                write!(text, "password {}", password.0)
            }
            ParsedCriAttribute::ExtensionRequest(request) => request.add_words(text),
            ParsedCriAttribute::UnsupportedAttribute => text.push_str("unsupported"),
        }
    }
}

impl Words for X509CertificationRequestInfo<'_> {
    fn add_words(&self, text: &mut String) -> Added {
        add_hex(text, self.raw)?;
        write!(text, "\n  version {}", self.version)?;
        add(text, "subject", &self.subject)?;
        add(text, "key", &self.subject_pki)?;
        add_each(text, "attribute", self.iter_attributes())
    }
}

impl Words for X509CertificationRequest<'_> {
    fn add_words(&self, text: &mut String) -> Added {
        self.certification_request_info.add_words(text)?;
        add(text, "algorithm", &self.signature_algorithm)?;
        add(text, "signature value", &self.signature_value)?;
        text.push_str("\n  of ")?;
        add_hex(text, self.as_raw())
    }
}
