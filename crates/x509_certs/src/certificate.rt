//! `X509Certificate` (RFC 5280, 4.1.1) and its accessors.

ghost use Rattle.std.specs.Prelude.{◌≡◌, ◌+◌, ◌*◌, ◌^◌, ◌<◌, ◌≤◌, length, All, IfOk, map, option_map, string_bytes};
ghost use Rattle.std.specs.Slice.Iter.{iter_rest};
ghost use Rattle.asn1_core.specs.Counts.{attempts};
ghost use Rattle.asn1_any.specs.CutViews.{piece_of};
ghost use Rattle.x509_core.specs.Answers.{Gives, naming};
ghost use Rattle.x509_core.specs.declared.error.X509Error.TheVariants.{InvalidSignatureValue};
ghost use Rattle.x509_names.specs.Reading.{bits_at};
ghost use Rattle.x509_names.specs.View.{bits_view};
ghost use Rattle.x509_ext.specs.Values.{serial_text};
ghost use Rattle.x509_ext.specs.Fields.{reading_of};
ghost use Rattle.x509_ext.specs.Lookup.{all_of, first_of, only_of, seen};
ghost use Rattle.x509_ext.specs.View.{WantsNoMemory, extension_error};
ghost use Rattle.x509_certs.specs.Reading.{certificate_in};
ghost use Rattle.x509_certs.specs.View.{certificate_view, HasSerial, IsCountedCertificate};

use crate::tbs::{TbsCertificate, next_tbs};
use asn1_any::Element;
use asn1_core::{Err as Refusal, HeaderCount, OutOfMemory};
use asn1_oid::Oid;
use asn1_values::BitString;
use std::alloc::Global;
use std::slice;
use x509_core::{Parts, X509Error, named, parts_of};
use x509_ext::{X509Extension, X509Version};
use x509_names::{AlgorithmIdentifier, SubjectPublicKeyInfo, X509Name, next_algorithm, next_bits};
use x509_time::Validity;

/// An X.509 certificate (RFC 5280, 4.1), borrowed from the octets that it was read from. It has all
/// methods of [`TbsCertificate`].
#[derive(Debug, Drop, PartialEq, Eq)]
pub struct X509Certificate<'a> {
    /// The signed part, `tbsCertificate`.
    pub tbs_certificate: TbsCertificate<'a>,
    /// The algorithm that the signature is made with (RFC 5280, 4.1.1.2).
    pub signature_algorithm: AlgorithmIdentifier<'a>,
    /// The signature's bits (RFC 5280, 4.1.1.3). No signature is verified.
    pub signature_value: BitString<'a>,
    raw: &'a [u8],
}

impl<'a> X509Certificate<'a> {
    /// The whole encoding of the certificate, from its header to its last octet.
    pub fn as_raw(&self) -> &'a [u8]
        ensures { result ≡ self.now.raw }
    {
        self.raw
    }

    /// The whole encoding of the certificate, from its header to its last octet.
    pub fn as_ref(&self) -> &'a [u8]
        ensures { result ≡ self.now.raw }
    {
        self.raw
    }

    /// A copy that borrows the same octets as the certificate.
    ///
    /// # Errors
    ///
    /// Out of memory, for the copied vectors of names and extensions.
    pub fn clone(&self, alloc: Global) -> Result<X509Certificate<'a>, OutOfMemory>
        ensures value { IfOk result (λ copy. certificate_view copy ≡ certificate_view self.now) }
        ensures serial { IfOk result (λ copy. copy.tbs_certificate.serial ≡ self.now.tbs_certificate.serial) }
        ensures errors { IfOk result (λ copy. map extension_error copy.tbs_certificate.extensions.items ≡ map extension_error self.now.tbs_certificate.extensions.items) }
    {
        let tbs_certificate = self.tbs_certificate.clone(alloc)?;
        let signature_algorithm = self.signature_algorithm.clone(alloc)?;
        Ok(X509Certificate {
            tbs_certificate,
            signature_algorithm,
            signature_value: self.signature_value,
            raw: self.raw,
        })
    }

    /// The version (RFC 5280, 4.1.2.1), `V1` if the field is absent.
    pub fn version(&self) -> X509Version
        ensures { result ≡ self.now.tbs_certificate.version }
    {
        self.tbs_certificate.version()
    }

    /// The subject's name (RFC 5280, 4.1.2.6).
    pub fn subject(&self) -> &X509Name<'a>
        ensures { result.now ≡ self.now.tbs_certificate.subject }
    {
        self.tbs_certificate.subject()
    }

    /// The issuer's name (RFC 5280, 4.1.2.4). No signature is verified.
    pub fn issuer(&self) -> &X509Name<'a>
        ensures { result.now ≡ self.now.tbs_certificate.issuer }
    {
        self.tbs_certificate.issuer()
    }

    /// The validity period (RFC 5280, 4.1.2.5).
    pub fn validity(&self) -> &Validity
        ensures { result.now ≡ self.now.tbs_certificate.validity }
    {
        self.tbs_certificate.validity()
    }

    /// The subject's public key and its algorithm (RFC 5280, 4.1.2.7).
    pub fn public_key(&self) -> &SubjectPublicKeyInfo<'a>
        ensures { result.now ≡ self.now.tbs_certificate.subject_pki }
    {
        self.tbs_certificate.public_key()
    }

    /// The extensions, in the order of the encoding (RFC 5280, 4.2).
    pub fn extensions(&self) -> &[X509Extension<'a>]
        ensures { result.now ≡ self.now.tbs_certificate.extensions.items }
    {
        self.tbs_certificate.extensions()
    }

    /// The extensions, in the order of the encoding (RFC 5280, 4.2).
    pub fn iter_extensions(&self) -> slice::Iter<'_, X509Extension<'a>>
        ensures { iter_rest result ≡ self.now.tbs_certificate.extensions.items }
    {
        self.tbs_certificate.iter_extensions()
    }

    /// The extension with this identifier, or `None` if there is none.
    ///
    /// # Errors
    ///
    /// `DuplicateExtensions` if several extensions have the identifier (RFC 5280, 4.2).
    pub fn get_extension_unique(
        &self,
        oid: &Oid<'_>,
    ) -> Result<Option<&X509Extension<'a>>, X509Error>
        ensures { seen (λ e. e.now) result ≡ only_of (all_of oid.now self.now.tbs_certificate.extensions.items) }
    {
        self.tbs_certificate.get_extension_unique(oid)
    }

    /// The first extension with this identifier, or `None`. Later ones with the same identifier
    /// aren't looked at: `get_extension_unique` reports them.
    pub fn find_extension(&self, oid: &Oid<'_>) -> Option<&X509Extension<'a>>
        ensures { option_map (λ e. e.now) result ≡ first_of (all_of oid.now self.now.tbs_certificate.extensions.items) }
    {
        self.tbs_certificate.find_extension(oid)
    }

    /// The content octets of the serial number (RFC 5280, 4.1.2.2), as they are encoded.
    pub fn raw_serial(&self) -> &'a [u8]
        ensures { result ≡ self.now.tbs_certificate.raw_serial }
    {
        self.tbs_certificate.raw_serial()
    }

    /// The content octets of the serial number as text: two lower-case hexadecimal digits each,
    /// separated by colons, as `01:02:ff`.
    ///
    /// # Errors
    ///
    /// Out of memory, for a text of three characters an octet.
    pub fn raw_serial_as_string(&self, alloc: Global) -> Result<String, OutOfMemory>
        ensures { IfOk result (λ text. string_bytes text ≡ serial_text self.now.tbs_certificate.raw_serial.now) }
    {
        self.tbs_certificate.raw_serial_as_string(alloc)
    }
}

fn next_signature<'a>(
    alloc: Global,
    parts: &mut Parts<'a>,
) -> Result<BitString<'a>, Refusal<X509Error>>
    ensures read { Gives (λ v. (bits_view v, parts.new.octets)) result (naming InvalidSignatureValue (bits_at parts.old.octets)) }
    ensures elements { IfOk result (λ _. parts.old.elements ≡ parts.new.elements + 1) }
{
    named(next_bits(alloc, parts), X509Error::InvalidSignatureValue)
}

/// Reads the certificate in an element; extension values are parsed if `deep` is true.
#[tactic(auto, unfolding(crate::specs::Reading::certificate_in))]
pub(crate) fn certificate_of<'a>(
    alloc: Global,
    element: Element<'a>,
    deep: bool,
    count: &mut HeaderCount,
) -> Result<X509Certificate<'a>, Refusal<X509Error>>
    requires { attempts count.old + 8 * length element.any.content.now < 2 ^ 128 }
    ensures read { Gives certificate_view result (certificate_in (reading_of deep) (piece_of element.entry)) }
    ensures serial { IfOk result (λ c. HasSerial c.tbs_certificate) }
    ensures counted { IfOk result IsCountedCertificate }
    ensures memory { IfOk result (λ c. All WantsNoMemory c.tbs_certificate.extensions.items) }
    ensures least { IfOk result (λ _. attempts count.old + 16 ≤ attempts count.new) }
    ensures grows { attempts count.old ≤ attempts count.new }
    ensures most { attempts count.new ≤ attempts count.old + 8 * length element.entry.any.content.now }
{
    let mut parts = parts_of(alloc, 16, element, count)?;
    let tbs_certificate = next_tbs(alloc, &mut parts, deep, count)?;
    let signature_algorithm = next_algorithm(alloc, &mut parts, count)?;
    let signature_value = next_signature(alloc, &mut parts)?;
    Ok(X509Certificate {
        tbs_certificate,
        signature_algorithm,
        signature_value,
        raw: element.octets,
    })
}
