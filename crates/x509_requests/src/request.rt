//! `X509CertificationRequest` (RFC 2986, 4.2).

ghost use Rattle.std.specs.Prelude.{◌≡◌, ◌≤◌, length, IfOk, option_map};
ghost use Rattle.asn1_any.specs.CutViews.{piece_of};
ghost use Rattle.x509_core.specs.Answers.{Gives, naming};
ghost use Rattle.x509_core.specs.declared.error.X509Error.TheVariants.{InvalidSignatureValue};
ghost use Rattle.x509_names.specs.Reading.{bits_at};
ghost use Rattle.x509_names.specs.View.{bits_view};
ghost use Rattle.x509_ext.specs.Values.{deeply};
ghost use Rattle.x509_requests.specs.Lookup.{requested_of};
ghost use Rattle.x509_requests.specs.Reading.{request_in};
ghost use Rattle.x509_requests.specs.View.{request_view, AttributesWantNoMemory, IsCountedRequest};

use crate::attribute::{ParsedCriAttribute, X509CriAttribute};
use crate::info::{X509CertificationRequestInfo, next_info};
use crate::requested::RequestedExtensions;
use asn1_any::Element;
use asn1_core::{Err as Refusal, HeaderCount};
use asn1_values::BitString;
use std::alloc::Global;
use x509_core::{Parts, X509Error, named, parts_of};
use x509_names::{AlgorithmIdentifier, next_algorithm, next_bits};

/// A certification request (RFC 2986, 4.2), borrowed from the octets that it was read from.
#[derive(Debug, Drop, PartialEq, Eq)]
pub struct X509CertificationRequest<'a> {
    /// The signed part, `certificationRequestInfo`.
    pub certification_request_info: X509CertificationRequestInfo<'a>,
    /// The algorithm that the signature is made with (RFC 2986, 4.2).
    pub signature_algorithm: AlgorithmIdentifier<'a>,
    /// The signature's bits (RFC 2986, 4.2). No signature is verified.
    pub signature_value: BitString<'a>,
    raw: &'a [u8],
}

impl<'a> X509CertificationRequest<'a> {
    /// The whole encoding of the request, from its header to its last octet.
    pub fn as_raw(&self) -> &'a [u8]
        ensures { result ≡ self.now.raw }
    {
        self.raw
    }

    /// The whole encoding of the request, from its header to its last octet.
    pub fn as_ref(&self) -> &'a [u8]
        ensures { result ≡ self.now.raw }
    {
        self.raw
    }

    /// The parsed values of the extensions in the first extension request; `None` if there is no
    /// extension request.
    pub fn requested_extensions(&self) -> Option<RequestedExtensions<'_, 'a>>
        ensures { result ≡ requested_of self.now.certification_request_info.attributes.items }
    {
        requested_by(self.certification_request_info.attributes())
    }
}

fn requested_by<'n, 'a>(
    attributes: &'n [X509CriAttribute<'a>],
) -> Option<RequestedExtensions<'n, 'a>>
    ensures { result ≡ requested_of attributes.now }
{
    for attribute in attributes {
        if let ParsedCriAttribute::ExtensionRequest(request) = attribute.parsed_attribute() {
            return Some(RequestedExtensions::new(request.extensions.as_slice()));
        }
    }
    None
}

fn next_signature<'a>(
    alloc: Global,
    parts: &mut Parts<'a>,
) -> Result<BitString<'a>, Refusal<X509Error>>
    ensures read { Gives (λ v. (bits_view v, parts.new.octets)) result (naming InvalidSignatureValue (bits_at parts.old.octets)) }
{
    named(next_bits(alloc, parts), X509Error::InvalidSignatureValue)
}

/// Reads the request in an element.
#[tactic(auto, unfolding(crate::specs::Reading::request_in))]
pub(crate) fn request_of<'a>(
    alloc: Global,
    element: Element<'a>,
) -> Result<X509CertificationRequest<'a>, Refusal<X509Error>>
    ensures read { Gives request_view result (request_in deeply (piece_of element.entry)) }
    ensures memory { IfOk result (λ r. AttributesWantNoMemory r.certification_request_info) }
    ensures counted { IfOk result IsCountedRequest }
{
    let mut count = HeaderCount::new();
    let mut parts = parts_of(alloc, 16, element, &mut count)?;
    let certification_request_info = next_info(alloc, &mut parts)?;
    let signature_algorithm = next_algorithm(alloc, &mut parts, &mut count)?;
    let signature_value = next_signature(alloc, &mut parts)?;
    Ok(X509CertificationRequest {
        certification_request_info,
        signature_algorithm,
        signature_value,
        raw: element.octets,
    })
}
