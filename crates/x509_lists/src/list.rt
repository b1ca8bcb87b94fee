//! `CertificateRevocationList` (RFC 5280, 5.1.1) and its accessors.

ghost use Rattle.std.specs.Prelude.{◌≡◌, ◌+◌, ◌*◌, ◌^◌, ◌<◌, ◌≤◌, length, All, IfOk, map, option_map};
ghost use Rattle.std.specs.Slice.Iter.{iter_rest};
ghost use Rattle.asn1_core.specs.Counts.{attempts};
ghost use Rattle.asn1_any.specs.CutViews.{piece_of};
ghost use Rattle.x509_core.specs.Answers.{Gives, naming};
ghost use Rattle.x509_core.specs.declared.error.X509Error.TheVariants.{InvalidSignatureValue};
ghost use Rattle.x509_names.specs.Reading.{bits_at};
ghost use Rattle.x509_names.specs.View.{bits_view};
ghost use Rattle.x509_ext.specs.Fields.{reading_of};
ghost use Rattle.x509_ext.specs.View.{WantsNoMemory, extension_error};
ghost use Rattle.x509_lists.specs.Lookup.{crl_number_of};
ghost use Rattle.x509_lists.specs.Reading.{list_in};
ghost use Rattle.x509_lists.specs.View.{list_view, entry_errors, HaveSerials, EntriesWantNoMemory, IsCountedList};

use crate::entry::RevokedCertificate;
use crate::tbs::{TbsCertList, next_tbs};
use asn1_any::Element;
use asn1_core::{Err as Refusal, HeaderCount, OutOfMemory};
use asn1_oid::Oid;
use asn1_unsigned::UnsignedBytes;
use asn1_values::BitString;
use std::alloc::Global;
use std::slice;
use x509_core::{Parts, X509Error, named, parts_of};
use x509_ext::{ParsedExtension, X509Extension, X509Version};
use x509_names::{AlgorithmIdentifier, X509Name, next_algorithm, next_bits};
use x509_time::ASN1Time;

/// id-ce-cRLNumber, 2.5.29.20.
const CRL_NUMBER: &[u8] = b"\x55\x1d\x14";

/// A certificate revocation list (RFC 5280, 5.1), borrowed from the octets that it was read from.
#[derive(Debug, Drop)]
pub struct CertificateRevocationList<'a> {
    /// The signed part, `tbsCertList`.
    pub tbs_cert_list: TbsCertList<'a>,
    /// The algorithm that the signature is made with (RFC 5280, 5.1.1.2).
    pub signature_algorithm: AlgorithmIdentifier<'a>,
    /// The signature's bits (RFC 5280, 5.1.1.3). No signature is verified.
    pub signature_value: BitString<'a>,
    raw: &'a [u8],
}

impl<'a> CertificateRevocationList<'a> {
    /// The version (RFC 5280, 5.1.2.1), or `None` if the field is absent.
    pub fn version(&self) -> Option<X509Version>
        ensures { result ≡ self.now.tbs_cert_list.version }
    {
        self.tbs_cert_list.version
    }

    /// The issuer's name (RFC 5280, 5.1.2.3). No signature is verified.
    pub fn issuer(&self) -> &X509Name<'a>
        ensures { result.now ≡ self.now.tbs_cert_list.issuer }
    {
        &self.tbs_cert_list.issuer
    }

    /// The issue date, `thisUpdate` (RFC 5280, 5.1.2.4).
    pub fn last_update(&self) -> ASN1Time
        ensures { result ≡ self.now.tbs_cert_list.this_update }
    {
        self.tbs_cert_list.this_update
    }

    /// The date by which the next list is issued, `nextUpdate` (RFC 5280, 5.1.2.5), or `None` if
    /// the field is absent.
    pub fn next_update(&self) -> Option<ASN1Time>
        ensures { result ≡ self.now.tbs_cert_list.next_update }
    {
        self.tbs_cert_list.next_update
    }

    /// The entries, in the order of the encoding (RFC 5280, 5.1.2.6).
    pub fn iter_revoked_certificates(&self) -> slice::Iter<'_, RevokedCertificate<'a>>
        ensures { iter_rest result ≡ self.now.tbs_cert_list.revoked_certificates.items }
    {
        self.tbs_cert_list.revoked_certificates.iter()
    }

    /// The extensions, in the order of the encoding (RFC 5280, 5.2).
    pub fn extensions(&self) -> &[X509Extension<'a>]
        ensures { result.now ≡ self.now.tbs_cert_list.extensions.items }
    {
        self.tbs_cert_list.extensions()
    }

    /// The CRL number (RFC 5280, 5.2.3). `None` if there is no cRLNumber, or the first one wasn't
    /// parsed as a number.
    pub fn crl_number(&self) -> Option<&UnsignedBytes<'a>>
        ensures { option_map (λ n. n.now) result ≡ crl_number_of self.now.tbs_cert_list.extensions.items }
    {
        let extension = self.tbs_cert_list.find_extension(&Oid::new(CRL_NUMBER))?;
        match extension.parsed_extension() {
            ParsedExtension::CRLNumber(number) => Some(number),
            _ => None,
        }
    }

    /// The whole encoding of the list, from its header to its last octet.
    pub fn as_raw(&self) -> &'a [u8]
        ensures { result ≡ self.now.raw }
    {
        self.raw
    }

    /// The whole encoding of the list, from its header to its last octet.
    pub fn as_ref(&self) -> &'a [u8]
        ensures { result ≡ self.now.raw }
    {
        self.raw
    }

    /// A copy that borrows the same octets as the list.
    ///
    /// # Errors
    ///
    /// Out of memory, for the copied vectors of entries and extensions.
    pub fn clone(&self, alloc: Global) -> Result<CertificateRevocationList<'a>, OutOfMemory>
        ensures value { IfOk result (λ copy. list_view copy ≡ list_view self.now) }
        ensures serials { IfOk result (λ copy. map (λ e. e.user_certificate) copy.tbs_cert_list.revoked_certificates.items ≡ map (λ e. e.user_certificate) self.now.tbs_cert_list.revoked_certificates.items) }
        ensures errors { IfOk result (λ copy. map extension_error copy.tbs_cert_list.extensions.items ≡ map extension_error self.now.tbs_cert_list.extensions.items) }
        ensures entry_errors { IfOk result (λ copy. map entry_errors copy.tbs_cert_list.revoked_certificates.items ≡ map entry_errors self.now.tbs_cert_list.revoked_certificates.items) }
    {
        let tbs_cert_list = self.tbs_cert_list.clone(alloc)?;
        let signature_algorithm = self.signature_algorithm.clone(alloc)?;
        Ok(CertificateRevocationList {
            tbs_cert_list,
            signature_algorithm,
            signature_value: self.signature_value,
            raw: self.raw,
        })
    }
}

fn next_signature<'a>(
    alloc: Global,
    parts: &mut Parts<'a>,
) -> Result<BitString<'a>, Refusal<X509Error>>
    ensures read { Gives (λ v. (bits_view v, parts.new.octets)) result (naming InvalidSignatureValue (bits_at parts.old.octets)) }
    ensures elements { IfOk result (λ _. parts.old.elements ≡ parts.new.elements + 1) }
{
    named(next_bits(alloc, parts), X509Error::InvalidSignatureValue)
}

/// Reads the list in an element; extension values are parsed if `deep` is true.
#[tactic(auto, unfolding(crate::specs::Reading::list_in))]
pub(crate) fn list_of<'a>(
    alloc: Global,
    element: Element<'a>,
    deep: bool,
    count: &mut HeaderCount,
) -> Result<CertificateRevocationList<'a>, Refusal<X509Error>>
    requires { attempts count.old + 8 * length element.any.content.now < 2 ^ 128 }
    ensures read { Gives list_view result (list_in (reading_of deep) (piece_of element.entry)) }
    ensures serials { IfOk result (λ l. HaveSerials l.tbs_cert_list) }
    ensures counted { IfOk result IsCountedList }
    ensures memory { IfOk result (λ l. All WantsNoMemory l.tbs_cert_list.extensions.items) }
    ensures entries { IfOk result (λ l. EntriesWantNoMemory l.tbs_cert_list) }
    ensures least { IfOk result (λ _. attempts count.old + 8 ≤ attempts count.new) }
    ensures grows { attempts count.old ≤ attempts count.new }
    ensures most { attempts count.new ≤ attempts count.old + 8 * length element.entry.any.content.now }
{
    let mut parts = parts_of(alloc, 16, element, count)?;
    let tbs_cert_list = next_tbs(alloc, &mut parts, deep, count)?;
    let signature_algorithm = next_algorithm(alloc, &mut parts, count)?;
    let signature_value = next_signature(alloc, &mut parts)?;
    Ok(CertificateRevocationList {
        tbs_cert_list,
        signature_algorithm,
        signature_value,
        raw: element.octets,
    })
}
