//! `TbsCertificate`, the signed part of a certificate (RFC 5280, 4.1.2).

ghost use Rattle.std.specs.Prelude.{◌≡◌, ◌+◌, ◌*◌, ◌^◌, ◌<◌, ◌≤◌, length, All, IfOk, map, option_map, string_bytes};
ghost use Rattle.std.specs.Int.Digits.{number_from_digits};
ghost use Rattle.std.specs.Slice.Iter.{iter_rest};
ghost use Rattle.asn1_core.specs.Counts.{attempts};
ghost use Rattle.asn1_any.specs.CutViews.{piece_of};
ghost use Rattle.asn1_unsigned.specs.Numbers.{number_of};
ghost use Rattle.x509_core.specs.Answers.{Gives};
ghost use Rattle.x509_names.specs.View.{HasCountedParameters, IsCountedName, IsCountedKey, algorithm_view, name_view, key_view};
ghost use Rattle.x509_time.specs.View.{validity_view};
ghost use Rattle.x509_ext.specs.Values.{serial_text};
ghost use Rattle.x509_ext.specs.Fields.{reading_of};
ghost use Rattle.x509_ext.specs.Lookup.{all_of, first_of, only_of, seen};
ghost use Rattle.x509_ext.specs.View.{IsCountedExtension, WantsNoMemory, extension_error, extension_view, identifier_view};
ghost use Rattle.x509_certs.specs.Reading.{start_at, binding_at, end_at, tbs_in, tbs_at};
ghost use Rattle.x509_certs.specs.View.{tbs_view, HasSerial, IsCountedTbs};

use asn1_any::Element;
use asn1_core::{Err as Refusal, HeaderCount, OutOfMemory};
use asn1_oid::Oid;
use asn1_unsigned::UnsignedBytes;
use std::alloc::Global;
use std::slice;
use x509_core::{Parts, X509Error, parts_of};
use x509_ext::types::format_serial;
use x509_ext::{
    UniqueIdentifier, X509Extension, X509Version, copy_extensions, extensions_of, find_extension,
    get_extension_unique, next_issuer_id, next_serial, next_subject_id, next_version,
};
use x509_names::{
    AlgorithmIdentifier, SubjectPublicKeyInfo, X509Name, next_algorithm, next_key, next_name,
};
use x509_time::{Validity, next_validity};

/// The signed part of a certificate, `TBSCertificate` (RFC 5280, 4.1.2), borrowed from the octets
/// that it was read from.
#[derive(Debug, Drop, PartialEq, Eq)]
pub struct TbsCertificate<'a> {
    /// The version (4.1.2.1), `V1` if the field is absent.
    pub version: X509Version,
    /// The serial number (4.1.2.2): the content octets of the INTEGER, read as unsigned.
    pub serial: UnsignedBytes<'a>,
    /// The algorithm that the signature is made with (RFC 5280, 4.1.1.2).
    pub signature: AlgorithmIdentifier<'a>,
    /// The issuer's name (RFC 5280, 4.1.2.4). No signature is verified.
    pub issuer: X509Name<'a>,
    /// The validity period (RFC 5280, 4.1.2.5).
    pub validity: Validity,
    /// The subject's name (RFC 5280, 4.1.2.6).
    pub subject: X509Name<'a>,
    /// The subject's public key and its algorithm (RFC 5280, 4.1.2.7).
    pub subject_pki: SubjectPublicKeyInfo<'a>,
    /// The issuer's unique identifier (4.1.2.8), if there is one.
    pub issuer_uid: Option<UniqueIdentifier<'a>>,
    /// The subject's unique identifier (4.1.2.8), if there is one.
    pub subject_uid: Option<UniqueIdentifier<'a>>,
    extensions: Vec<X509Extension<'a>>,
    raw: &'a [u8],
    raw_serial: &'a [u8],
}

impl<'a> TbsCertificate<'a> {
    /// The version (RFC 5280, 4.1.2.1), `V1` if the field is absent.
    pub fn version(&self) -> X509Version
        ensures { result ≡ self.now.version }
    {
        self.version
    }

    /// The subject's name (RFC 5280, 4.1.2.6).
    pub fn subject(&self) -> &X509Name<'a>
        ensures { result.now ≡ self.now.subject }
    {
        &self.subject
    }

    /// The issuer's name (RFC 5280, 4.1.2.4). No signature is verified.
    pub fn issuer(&self) -> &X509Name<'a>
        ensures { result.now ≡ self.now.issuer }
    {
        &self.issuer
    }

    /// The validity period (RFC 5280, 4.1.2.5).
    pub fn validity(&self) -> &Validity
        ensures { result.now ≡ self.now.validity }
    {
        &self.validity
    }

    /// The subject's public key and its algorithm (RFC 5280, 4.1.2.7).
    pub fn public_key(&self) -> &SubjectPublicKeyInfo<'a>
        ensures { result.now ≡ self.now.subject_pki }
    {
        &self.subject_pki
    }

    /// The extensions, in the order of the encoding (RFC 5280, 4.2).
    pub fn extensions(&self) -> &[X509Extension<'a>]
        ensures { result.now ≡ self.now.extensions.items }
    {
        self.extensions.as_slice()
    }

    /// The extensions, in the order of the encoding (RFC 5280, 4.2).
    pub fn iter_extensions(&self) -> slice::Iter<'_, X509Extension<'a>>
        ensures { iter_rest result ≡ self.now.extensions.items }
    {
        self.extensions.iter()
    }

    /// The extension with this identifier, or `None` if there is none.
    ///
    /// # Errors
    ///
    /// `DuplicateExtensions` if several extensions have the identifier (RFC 5280, 4.2).
    pub fn get_extension_unique(
        &self,
        oid: &Oid<'_>,
    ) -> Result<Option<&X509Extension<'a>>, X509Error>
        ensures { seen (λ e. e.now) result ≡ only_of (all_of oid.now self.now.extensions.items) }
    {
        get_extension_unique(self.extensions.as_slice(), oid)
    }

    /// The first extension with this identifier, or `None`. Later ones with the same identifier
    /// aren't looked at: `get_extension_unique` reports them.
    pub fn find_extension(&self, oid: &Oid<'_>) -> Option<&X509Extension<'a>>
        ensures { option_map (λ e. e.now) result ≡ first_of (all_of oid.now self.now.extensions.items) }
    {
        find_extension(self.extensions.as_slice(), oid)
    }

    /// The content octets of the serial number (RFC 5280, 4.1.2.2), as they are encoded.
    pub fn raw_serial(&self) -> &'a [u8]
        ensures { result ≡ self.now.raw_serial }
    {
        self.raw_serial
    }

    /// The content octets of the serial number as text: two lower-case hexadecimal digits each,
    /// separated by colons, as `01:02:ff`.
    ///
    /// # Errors
    ///
    /// Out of memory, for a text of three characters an octet.
    pub fn raw_serial_as_string(&self, alloc: Global) -> Result<String, OutOfMemory>
        ensures { IfOk result (λ text. string_bytes text ≡ serial_text self.now.raw_serial.now) }
    {
        format_serial(alloc, self.raw_serial)
    }

    /// A copy that borrows the same octets as the signed part.
    ///
    /// # Errors
    ///
    /// Out of memory, for the copied vectors.
    #[tactic(auto, using(x509_names::proofs::Copied::same_name))]
    pub fn clone(&self, alloc: Global) -> Result<TbsCertificate<'a>, OutOfMemory>
        ensures value { IfOk result (λ copy. tbs_view copy ≡ tbs_view self.now) }
        ensures serial { IfOk result (λ copy. copy.serial ≡ self.now.serial) }
        ensures errors { IfOk result (λ copy. map extension_error copy.extensions.items ≡ map extension_error self.now.extensions.items) }
    {
        let signature = self.signature.clone(alloc)?;
        let issuer = self.issuer.clone(alloc)?;
        let subject = self.subject.clone(alloc)?;
        let subject_pki = self.subject_pki.clone(alloc)?;
        let extensions = copy_extensions(alloc, self.extensions.as_slice())?;
        Ok(TbsCertificate {
            version: self.version,
            serial: self.serial,
            signature,
            issuer,
            validity: Validity {
                not_before: self.validity.not_before,
                not_after: self.validity.not_after,
            },
            subject,
            subject_pki,
            issuer_uid: copy_id(&self.issuer_uid),
            subject_uid: copy_id(&self.subject_uid),
            extensions,
            raw: self.raw,
            raw_serial: self.raw_serial,
        })
    }

    /// The octets that the signature covers: the whole encoding of the signed part.
    pub fn as_ref(&self) -> &'a [u8]
        ensures { result ≡ self.now.raw }
    {
        self.raw
    }
}

fn copy_id<'a>(id: &Option<UniqueIdentifier<'a>>) -> Option<UniqueIdentifier<'a>>
    ensures { result ≡ id.now }
{
    match id {
        Some(id) => Some(UniqueIdentifier(id.0)),
        None => None,
    }
}

/// The first fields: version, serial number and signature algorithm.
#[derive(Drop)]
struct Start<'a> {
    version: X509Version,
    serial: UnsignedBytes<'a>,
    raw_serial: &'a [u8],
    signature: AlgorithmIdentifier<'a>,
}

/// The fields from the issuer to the public key.
#[derive(Drop)]
struct Binding<'a> {
    issuer: X509Name<'a>,
    validity: Validity,
    subject: X509Name<'a>,
    subject_pki: SubjectPublicKeyInfo<'a>,
}

/// The optional last fields: both unique identifiers and the extensions.
#[derive(Drop)]
struct End<'a> {
    issuer_uid: Option<UniqueIdentifier<'a>>,
    subject_uid: Option<UniqueIdentifier<'a>>,
    extensions: Vec<X509Extension<'a>>,
}

/// Reads the version, the serial number and the signature algorithm.
#[tactic(auto, unfolding(crate::specs::Reading::start_at))]
fn next_start<'a>(
    alloc: Global,
    parts: &mut Parts<'a>,
    count: &mut HeaderCount,
) -> Result<Start<'a>, Refusal<X509Error>>
    requires { attempts count.old + length parts.old.octets < 2 ^ 128 }
    ensures read { Gives (λ v. ((v.version.0, v.raw_serial.now, algorithm_view v.signature), parts.new.octets)) result (start_at parts.old.octets) }
    ensures serial { IfOk result (λ v. number_of v.serial ≡ number_from_digits 256 v.raw_serial.now) }
    ensures counted { IfOk result (λ v. HasCountedParameters v.signature) }
    ensures elements { IfOk result (λ _. parts.new.elements + 2 ≤ parts.old.elements) }
    ensures least { IfOk result (λ _. attempts count.old + 1 ≤ attempts count.new) }
    ensures grows { attempts count.old ≤ attempts count.new }
    ensures most { attempts count.new ≤ attempts count.old + length parts.old.octets }
    ensures taken { IfOk result (λ _. attempts count.new + length parts.new.octets ≤ attempts count.old + length parts.old.octets) }
{
    let version = next_version(alloc, parts, count)?;
    let raw_serial = next_serial(parts)?;
    let signature = next_algorithm(alloc, parts, count)?;
    Ok(Start {
        version,
        serial: UnsignedBytes::from_bytes_be(raw_serial),
        raw_serial,
        signature,
    })
}

/// Reads the issuer, the validity, the subject and its public key.
#[tactic(auto, unfolding(crate::specs::Reading::binding_at))]
fn next_binding<'a>(
    alloc: Global,
    parts: &mut Parts<'a>,
    count: &mut HeaderCount,
) -> Result<Binding<'a>, Refusal<X509Error>>
    requires { attempts count.old + 3 * length parts.old.octets < 2 ^ 128 }
    ensures read { Gives (λ v. ((name_view v.issuer, validity_view v.validity, name_view v.subject, key_view v.subject_pki), parts.new.octets)) result (binding_at parts.old.octets) }
    ensures counted { IfOk result (λ v. IsCountedName v.issuer × IsCountedName v.subject × IsCountedKey v.subject_pki) }
    ensures elements { IfOk result (λ _. parts.old.elements ≡ parts.new.elements + 4) }
    ensures least { IfOk result (λ _. attempts count.old + 5 ≤ attempts count.new) }
    ensures grows { attempts count.old ≤ attempts count.new }
    ensures most { attempts count.new + 3 * length parts.new.octets ≤ attempts count.old + 3 * length parts.old.octets }
{
    let issuer = next_name(alloc, parts, count)?;
    let validity = match next_validity(alloc, parts, count) {
        Ok(validity) => validity,
        Err(refusal) => return Err(refusal),
    };
    let subject = next_name(alloc, parts, count)?;
    let subject_pki = next_key(alloc, parts, count)?;
    Ok(Binding {
        issuer,
        validity,
        subject,
        subject_pki,
    })
}

/// Reads the unique identifiers and the extensions, whose values are parsed if `deep` is true.
#[tactic(auto, unfolding(crate::specs::Reading::end_at))]
fn next_end<'a>(
    alloc: Global,
    parts: &mut Parts<'a>,
    deep: bool,
    count: &mut HeaderCount,
) -> Result<End<'a>, Refusal<X509Error>>
    requires { attempts count.old + 6 * length parts.old.octets < 2 ^ 128 }
    ensures read { Gives (λ v. (option_map identifier_view v.issuer_uid, option_map identifier_view v.subject_uid, map extension_view v.extensions.items)) result (end_at (reading_of deep) parts.old.octets) }
    ensures counted { IfOk result (λ v. All IsCountedExtension v.extensions.items) }
    ensures memory { IfOk result (λ v. All WantsNoMemory v.extensions.items) }
    ensures grows { attempts count.old ≤ attempts count.new }
    ensures most { attempts count.new ≤ attempts count.old + 6 * length parts.old.octets }
{
    let issuer_uid = next_issuer_id(alloc, parts, count)?;
    let subject_uid = next_subject_id(alloc, parts, count)?;
    let extensions = extensions_of(alloc, 3, parts.left(), deep, count)?;
    Ok(End {
        issuer_uid,
        subject_uid,
        extensions,
    })
}

/// Reads the signed part in an element; extension values are parsed if `deep` is true.
pub(crate) fn tbs_of<'a>(
    alloc: Global,
    element: Element<'a>,
    deep: bool,
    count: &mut HeaderCount,
) -> Result<TbsCertificate<'a>, Refusal<X509Error>>
    requires { attempts count.old + 7 * length element.any.content.now < 2 ^ 128 }
    ensures read { Gives tbs_view result (tbs_in (reading_of deep) (piece_of element.entry)) }
    ensures serial { IfOk result HasSerial }
    ensures counted { IfOk result IsCountedTbs }
    ensures memory { IfOk result (λ t. All WantsNoMemory t.extensions.items) }
    ensures least { IfOk result (λ _. attempts count.old + 12 ≤ attempts count.new) }
    ensures grows { attempts count.old ≤ attempts count.new }
    ensures most { attempts count.new ≤ attempts count.old + 7 * length element.entry.any.content.now }
{
    let mut parts = parts_of(alloc, 16, element, count)?;
    let start = next_start(alloc, &mut parts, count)?;
    let binding = next_binding(alloc, &mut parts, count)?;
    let end = next_end(alloc, &mut parts, deep, count)?;
    Ok(TbsCertificate {
        version: start.version,
        serial: start.serial,
        signature: start.signature,
        issuer: binding.issuer,
        validity: binding.validity,
        subject: binding.subject,
        subject_pki: binding.subject_pki,
        issuer_uid: end.issuer_uid,
        subject_uid: end.subject_uid,
        extensions: end.extensions,
        raw: element.octets,
        raw_serial: start.raw_serial,
    })
}

/// Reads the signed part at the front; extension values are parsed if `deep` is true.
pub(crate) fn next_tbs<'a>(
    alloc: Global,
    parts: &mut Parts<'a>,
    deep: bool,
    count: &mut HeaderCount,
) -> Result<TbsCertificate<'a>, Refusal<X509Error>>
    requires { attempts count.old + 7 * length parts.old.octets < 2 ^ 128 }
    ensures read { Gives (λ v. (tbs_view v, parts.new.octets)) result (tbs_at (reading_of deep) parts.old.octets) }
    ensures serial { IfOk result HasSerial }
    ensures counted { IfOk result IsCountedTbs }
    ensures memory { IfOk result (λ t. All WantsNoMemory t.extensions.items) }
    ensures elements { IfOk result (λ _. parts.old.elements ≡ parts.new.elements + 1) }
    ensures least { IfOk result (λ _. attempts count.old + 12 ≤ attempts count.new) }
    ensures grows { attempts count.old ≤ attempts count.new }
    ensures ends { length parts.new.octets ≤ length parts.old.octets }
    ensures most { attempts count.new + 7 * length parts.new.octets ≤ attempts count.old + 7 * length parts.old.octets }
{
    let element = parts.next()?;
    tbs_of(alloc, element, deep, count)
}
