//! Calls on what the octets of a row begin with.

use crate::call::grouped::add_grouped;
use crate::call::parsers::add_parsed;
use crate::call::words::add_on_words;
use crate::certificate::octets::add_on_octets;
use crate::certificate::parts::add_part;
use crate::kinds::{
    Kind, OfAttribute, OfCertificate, OfEntry, OfKey, OfList, OfName, OfRequest, OfRequestInfo,
    OfSignedList, OfSignedPart,
};
use crate::row::Asked;
use crate::value::algorithms::add_algorithm_value;
use crate::value::leaves::add_leaf;
use crate::value::types::add_value;
use crate::words::add_refusal;
use asn1_traits::FromDer;
use rows_hex::Added;
use x509_core::{X509Error, X509Result};
use x509_names::{SubjectPublicKeyInfo, X509Name};
use x509_parser::certificate::{TbsCertificate, X509Certificate};
use x509_parser::certification_request::{X509CertificationRequest, X509CertificationRequestInfo};
use x509_parser::cri_attributes::X509CriAttribute;
use x509_parser::revocation_list::{CertificateRevocationList, RevokedCertificate, TbsCertList};

/// Adds what the call answers.
pub(crate) fn add_of_kind(text: &mut String, asked: &Asked<'_>) -> Added {
    let octets = asked.octets;
    match asked.kind {
        Kind::Part(part) => add_part(text, part, octets),
        Kind::Octets(call) => add_on_octets(text, call, asked),
        Kind::Value(value) => add_value(text, value, octets),
        Kind::Leaf(leaf) => add_leaf(text, leaf, octets),
        Kind::Algorithm(value) => add_algorithm_value(text, value, octets),
        Kind::Grouped(call) => add_grouped(text, call, octets),
        Kind::Parsed(parser) => add_parsed(text, parser, octets, asked.is_read),
        Kind::Words(call) => add_on_words(text, call, asked.word),
        Kind::Unknown => text.push_str("no call"),
        _ => add_of_value(text, asked),
    }
}

/// Adds what a call answers of a value of the call's type that begins the octets.
fn add_of_value(text: &mut String, asked: &Asked<'_>) -> Added {
    let absent = if asked.is_read {
        ""
    } else {
        noun_of(asked.kind)
    };
    let octets = asked.octets;
    match asked.kind {
        Kind::Certificate(call) => {
            add_of::<OfCertificate, X509Certificate<'_>>(text, call, octets, absent)
        }
        Kind::SignedPart(call) => {
            add_of::<OfSignedPart, TbsCertificate<'_>>(text, call, octets, absent)
        }
        Kind::Name(call) => add_of::<OfName, X509Name<'_>>(text, call, octets, absent),
        Kind::Key(call) => add_of::<OfKey, SubjectPublicKeyInfo<'_>>(text, call, octets, absent),
        kind => add_of_list(text, kind, octets, absent),
    }
}

/// The same of lists, requests and their parts.
fn add_of_list(text: &mut String, kind: Kind, octets: &[u8], absent: &str) -> Added {
    match kind {
        Kind::List(call) => {
            add_of::<OfList, CertificateRevocationList<'_>>(text, call, octets, absent)
        }
        Kind::SignedList(call) => {
            add_of::<OfSignedList, TbsCertList<'_>>(text, call, octets, absent)
        }
        Kind::Entry(call) => add_of::<OfEntry, RevokedCertificate<'_>>(text, call, octets, absent),
        Kind::Request(call) => {
            add_of::<OfRequest, X509CertificationRequest<'_>>(text, call, octets, absent)
        }
        Kind::RequestInfo(call) => {
            add_of::<OfRequestInfo, X509CertificationRequestInfo<'_>>(text, call, octets, absent)
        }
        Kind::Attribute(call) => {
            add_of::<OfAttribute, X509CriAttribute<'_>>(text, call, octets, absent)
        }
        _ => text.push_str("no call"),
    }
}

/// What a call is on, where no value of its type begins the octets.
fn noun_of(kind: Kind) -> &'static str {
    match kind {
        Kind::Certificate(_) => "no certificate",
        Kind::List(_) => "no list",
        Kind::SignedPart(_) => "no signed part",
        Kind::SignedList(_) => "no signed part",
        Kind::Name(_) => "no name",
        Kind::Key(_) => "no key",
        _ => "no attribute",
    }
}

/// A type with calls that rows name.
pub(crate) trait Called<C> {
    /// Adds what the call answers of the value, with the octets behind it.
    fn add_called(&self, text: &mut String, call: C, rest: &[u8]) -> Added;
}

/// Adds what the call answers of the value that begins the octets; where none does, the refusal, or the words that are there for that.
fn add_of<'a, C: Copy, T: FromDer<'a, X509Error> + Called<C> + Drop>(
    text: &mut String,
    call: C,
    octets: &'a [u8],
    absent: &str,
) -> Added {
    let alloc = *text.allocator();
    add_called_of(text, call, T::from_der(alloc, octets), absent)
}

/// The same of a value that was read.
pub(crate) fn add_called_of<C: Copy, T: Called<C> + Drop>(
    text: &mut String,
    call: C,
    read: X509Result<'_, T>,
    absent: &str,
) -> Added {
    match read {
        Ok((rest, value)) => value.add_called(text, call, rest),
        Err(refusal) if absent.is_empty() => add_refusal(text, &refusal),
        Err(_) => text.push_str(absent),
    }
}
