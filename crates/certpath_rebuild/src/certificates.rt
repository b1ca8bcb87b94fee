//! Certificates as parts that are written (RFC 5280, 4.1).
ghost use Rattle.std.specs.Prelude.{◌≡◌};
ghost use Rattle.cert_model.specs.Octets.{version_octets, validity_octets, tbs_certificate_octets, certificate_octets};
ghost use Rattle.cert_model.specs.View.{time_view, certificate_view};
ghost use Rattle.certpath_rebuild.specs.Cuts.{holder_octets, additions_octets};

use crate::encode::{Both, Element, Encode, Nothing, Octet, explicit, primitive, sequence};
use crate::parts::{
    Algorithm, Bits, Extensions, Key, Name, Plain, algorithm, bits, implicit_bits, key, name,
    plain, tagged_extensions,
};
use crate::times::{Time, time};
use asn1_core::Tag;
use asn1_device::{DeviceFault, Sink};
use cert_model::fields::CertFields;
use jiff::civil::DateTime;

// Version (RFC 5280, 4.1.2.1).
type Version = Option<Element<Element<Octet>>>;

// Validity (RFC 5280, 4.1.2.5).
type Validity = Element<Both<Time, Time>>;

// TBSCertificate.
type Signed<'a> = Element<
    Both<Version, Both<Plain<'a>, Both<Algorithm<'a>, Both<Name<'a>, Holder<'a>>>>>,
>;

// The fields after the issuer: validity, subject and key, and what may be absent.
type Held<'a> = Both<Validity, Both<Name<'a>, Both<Key<'a>, Additions<'a>>>>;

// Unique identifiers and extensions.
type Added<'a> = Both<
    Option<Bits<'a>>,
    Both<Option<Bits<'a>>, Both<Option<Element<Extensions<'a>>>, Nothing>>,
>;

/// The TBSCertificate of these fields.
#[derive(Clone, Copy)]
pub(crate) struct FirstPart<'a>(&'a CertFields<'a>);

impl<'a> Encode for FirstPart<'a> {
    ghost use Rattle.cert_model.specs.Octets.{tbs_certificate_octets};
    ghost use Rattle.cert_model.specs.View.{certificate_view};

    ghost octets = { λ p. tbs_certificate_octets (certificate_view p.0.now) };

    fn size(&self) -> Option<usize> {
        signed(self.0).size()
    }

    fn put<S: Sink>(&self, writer: &mut S) -> Result<(), DeviceFault> {
        signed(self.0).put(writer)
    }

    fn before<'w>(&self, whole: &'w [u8]) -> Option<&'w [u8]> {
        signed(self.0).before(whole)
    }
}

// The fields after the issuer.
#[derive(Clone, Copy)]
struct Holder<'a>(&'a CertFields<'a>);

impl<'a> Encode for Holder<'a> {
    ghost use Rattle.certpath_rebuild.specs.Cuts.{holder_octets};
    ghost use Rattle.cert_model.specs.View.{certificate_view};

    ghost octets = { λ p. holder_octets (certificate_view p.0.now) };

    fn size(&self) -> Option<usize> {
        held(self.0).size()
    }

    fn put<S: Sink>(&self, writer: &mut S) -> Result<(), DeviceFault> {
        held(self.0).put(writer)
    }

    fn before<'w>(&self, whole: &'w [u8]) -> Option<&'w [u8]> {
        held(self.0).before(whole)
    }
}

// The fields after the subject's key.
#[derive(Clone, Copy)]
struct Additions<'a>(&'a CertFields<'a>);

impl<'a> Encode for Additions<'a> {
    ghost use Rattle.certpath_rebuild.specs.Cuts.{additions_octets};
    ghost use Rattle.cert_model.specs.View.{certificate_view};

    ghost octets = { λ p. additions_octets (certificate_view p.0.now) };

    fn size(&self) -> Option<usize> {
        added(self.0).size()
    }

    fn put<S: Sink>(&self, writer: &mut S) -> Result<(), DeviceFault> {
        added(self.0).put(writer)
    }

    fn before<'w>(&self, whole: &'w [u8]) -> Option<&'w [u8]> {
        added(self.0).before(whole)
    }
}

/// A Certificate.
pub(crate) type Certificate<'a> = Element<
    Both<FirstPart<'a>, Both<Algorithm<'a>, Both<Bits<'a>, Nothing>>>,
>;

// Nothing for version 0 (X.690, 11.5).
fn version(version: u8) -> Version
    ensures { ⟦<Version as Encode>⟧.octets result ≡ version_octets version }
{
    if version > 0 {
        Some(explicit(0, primitive(Tag::Integer, Octet(version))))
    } else {
        None
    }
}

fn validity(not_before: DateTime, not_after: DateTime) -> Validity
    ensures { ⟦<Validity as Encode>⟧.octets result ≡ validity_octets (time_view not_before) (time_view not_after) }
{
    sequence(Both(time(not_before), time(not_after)))
}

fn added<'a>(fields: &'a CertFields<'a>) -> Added<'a>
    ensures { ⟦<Added<'a> as Encode>⟧.octets result ≡ additions_octets (certificate_view fields.now) }
{
    let extensions = Both(tagged_extensions(3, fields.extensions.as_slice()), Nothing);
    let subject = Both(implicit_bits(2, fields.subject_id), extensions);
    Both(implicit_bits(1, fields.issuer_id), subject)
}

fn held<'a>(fields: &'a CertFields<'a>) -> Held<'a>
    ensures { ⟦<Held<'a> as Encode>⟧.octets result ≡ holder_octets (certificate_view fields.now) }
{
    let key = Both(key(fields.key), Additions(fields));
    Both(
        validity(fields.not_before, fields.not_after),
        Both(name(&fields.subject), key),
    )
}

fn signed<'a>(fields: &'a CertFields<'a>) -> Signed<'a>
    ensures { ⟦<Signed<'a> as Encode>⟧.octets result ≡ tbs_certificate_octets (certificate_view fields.now) }
{
    let issuer = Both(name(&fields.issuer), Holder(fields));
    let serial = Both(
        plain(Tag::Integer, fields.serial),
        Both(algorithm(fields.signature), issuer),
    );
    sequence(Both(version(fields.version), serial))
}

/// Returns the certificate of these fields.
pub(crate) fn certificate<'a>(fields: &'a CertFields<'a>) -> Certificate<'a>
    ensures { ⟦<Certificate<'a> as Encode>⟧.octets result ≡ certificate_octets (certificate_view fields.now) }
{
    let signature = Both(
        algorithm(fields.algorithm),
        Both(bits(fields.signature_value), Nothing),
    );
    sequence(Both(FirstPart(fields), signature))
}
