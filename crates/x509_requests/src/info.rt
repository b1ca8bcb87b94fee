//! `X509CertificationRequestInfo`, the signed part of a request (RFC 2986, 4.1).

ghost use Rattle.std.specs.Prelude.{◌≡◌, ◌≤◌, length, IfOk, option_map};
ghost use Rattle.std.specs.Slice.Iter.{iter_rest};
ghost use Rattle.asn1_any.specs.CutViews.{piece_of};
ghost use Rattle.x509_core.specs.Answers.{Gives};
ghost use Rattle.x509_ext.specs.Values.{deeply};
ghost use Rattle.x509_ext.specs.Reading.{version_at};
ghost use Rattle.x509_requests.specs.Lookup.{attributes_of, first_attribute};
ghost use Rattle.x509_requests.specs.Reading.{info_in, info_at};
ghost use Rattle.x509_requests.specs.View.{info_view, AttributesWantNoMemory, IsCountedInfo};

use crate::attribute::X509CriAttribute;
use crate::attributes::attributes_of;
use asn1_any::Element;
use asn1_core::{Err as Refusal, HeaderCount};
use asn1_oid::Oid;
use std::alloc::Global;
use std::slice;
use x509_core::{Parts, X509Error, named, parts_of};
use x509_ext::{X509Version, version_of};
use x509_names::{SubjectPublicKeyInfo, X509Name, next_key, next_name};

/// The signed part of a request, `CertificationRequestInfo` (RFC 2986, 4.1), borrowed from the
/// octets that it was read from.
#[derive(Debug, Drop, PartialEq, Eq)]
pub struct X509CertificationRequestInfo<'a> {
    /// The version; the one of RFC 2986 is encoded as 0, `V1`.
    pub version: X509Version,
    /// The subject's name (RFC 2986, 4.1).
    pub subject: X509Name<'a>,
    /// The subject's public key and its algorithm (RFC 2986, 4.1).
    pub subject_pki: SubjectPublicKeyInfo<'a>,
    attributes: Vec<X509CriAttribute<'a>>,
    /// The octets that the signature covers: the whole encoding of the signed part.
    pub raw: &'a [u8],
}

impl<'a> X509CertificationRequestInfo<'a> {
    /// The attributes, in the order of the encoding.
    pub fn attributes(&self) -> &[X509CriAttribute<'a>]
        ensures { result.now ≡ self.now.attributes.items }
    {
        self.attributes.as_slice()
    }

    /// The attributes, in the order of the encoding.
    pub fn iter_attributes(&self) -> slice::Iter<'_, X509CriAttribute<'a>>
        ensures { iter_rest result ≡ self.now.attributes.items }
    {
        self.attributes.iter()
    }

    /// The first attribute with this identifier, or `None`. Later ones aren't looked at.
    pub fn find_attribute(&self, oid: &Oid<'_>) -> Option<&X509CriAttribute<'a>>
        ensures { option_map (λ a. a.now) result ≡ first_attribute (attributes_of oid.now self.now.attributes.items) }
    {
        find_attribute(self.attributes.as_slice(), oid)
    }
}

fn find_attribute<'n, 'a>(
    attributes: &'n [X509CriAttribute<'a>],
    oid: &Oid<'_>,
) -> Option<&'n X509CriAttribute<'a>>
    ensures { option_map (λ a. a.now) result ≡ first_attribute (attributes_of oid.now attributes.now) }
{
    for attribute in attributes {
        if attribute.oid == *oid {
            return Some(attribute);
        }
    }
    None
}

/// Reads the version.
fn next_version(parts: &mut Parts<'_>) -> Result<X509Version, Refusal<X509Error>>
    ensures read { Gives (λ v. (v.0, parts.new.octets)) result (version_at parts.old.octets) }
    ensures ends { length parts.new.octets ≤ length parts.old.octets }
{
    let element = named(parts.next(), X509Error::InvalidVersion)?;
    match version_of(element.any) {
        Some(version) => Ok(version),
        None => Err(Refusal::Error(X509Error::InvalidVersion)),
    }
}

/// Reads the signed part in an element.
#[tactic(auto, unfolding(crate::specs::Reading::info_in))]
pub(crate) fn info_of<'a>(
    alloc: Global,
    element: Element<'a>,
) -> Result<X509CertificationRequestInfo<'a>, Refusal<X509Error>>
    ensures read { Gives info_view result (info_in deeply (piece_of element.entry)) }
    ensures memory { IfOk result AttributesWantNoMemory }
    ensures counted { IfOk result IsCountedInfo }
{
    let mut count = HeaderCount::new();
    let mut parts = parts_of(alloc, 16, element, &mut count)?;
    let version = next_version(&mut parts)?;
    let subject = next_name(alloc, &mut parts, &mut count)?;
    let subject_pki = next_key(alloc, &mut parts, &mut count)?;
    let attributes = attributes_of(alloc, parts.left())?;
    Ok(X509CertificationRequestInfo {
        version,
        subject,
        subject_pki,
        attributes,
        raw: element.octets,
    })
}

/// Reads the signed part at the front.
pub(crate) fn next_info<'a>(
    alloc: Global,
    parts: &mut Parts<'a>,
) -> Result<X509CertificationRequestInfo<'a>, Refusal<X509Error>>
    ensures read { Gives (λ v. (info_view v, parts.new.octets)) result (info_at deeply parts.old.octets) }
    ensures memory { IfOk result AttributesWantNoMemory }
    ensures counted { IfOk result IsCountedInfo }
    ensures ends { length parts.new.octets ≤ length parts.old.octets }
{
    let element = parts.next()?;
    info_of(alloc, element)
}
