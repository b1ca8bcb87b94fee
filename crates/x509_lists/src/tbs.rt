//! `TbsCertList`, the signed part of a revocation list (RFC 5280, 5.1.2).

ghost use Rattle.std.specs.Prelude.{◌≡◌, ◌+◌, ◌*◌, ◌^◌, ◌<◌, ◌≤◌, length, All, IfOk, map, option_map};
ghost use Rattle.std.specs.Slice.Iter.{iter_rest};
ghost use Rattle.asn1_core.specs.Counts.{attempts};
ghost use Rattle.asn1_any.specs.CutViews.{piece_of};
ghost use Rattle.x509_core.specs.Answers.{Gives};
ghost use Rattle.x509_names.specs.View.{HasCountedParameters, IsCountedName};
ghost use Rattle.x509_ext.specs.Fields.{reading_of};
ghost use Rattle.x509_ext.specs.Lookup.{all_of, first_of};
ghost use Rattle.x509_ext.specs.View.{IsCountedExtension, WantsNoMemory, extension_error};
ghost use Rattle.x509_lists.specs.Reading.{version_at, tbs_in, tbs_at};
ghost use Rattle.x509_lists.specs.Steps.{signer_at, dates_at, revoked_at, signed_at, signer_view, dates_view, revoked_view};
ghost use Rattle.x509_lists.specs.View.{tbs_view, entry_errors, HasSerial, IsCountedEntry, EntryWantsNoMemory, HaveSerials, EntriesWantNoMemory, IsCountedTbs};

use crate::entries::{copy_entries, next_entries};
use crate::entry::RevokedCertificate;
use asn1_any::Element;
use asn1_core::{Err as Refusal, HeaderCount, OutOfMemory};
use asn1_oid::Oid;
use std::alloc::Global;
use std::slice;
use x509_core::{Parts, X509Error, parts_of};
use x509_ext::{
    X509Extension, X509Version, copy_extensions, extensions_of, find_extension, version_of,
};
use x509_names::{AlgorithmIdentifier, X509Name, next_algorithm, next_name};
use x509_time::{ASN1Time, next_time, next_update};

/// The signed part of a revocation list, `TBSCertList` (RFC 5280, 5.1.2), borrowed from the octets
/// that it was read from.
#[derive(Debug, Drop, PartialEq, Eq)]
pub struct TbsCertList<'a> {
    /// The version (RFC 5280, 5.1.2.1), or `None` if the field is absent.
    pub version: Option<X509Version>,
    /// The algorithm that the signature is made with (RFC 5280, 5.1.1.2).
    pub signature: AlgorithmIdentifier<'a>,
    /// The issuer's name (RFC 5280, 5.1.2.3). No signature is verified.
    pub issuer: X509Name<'a>,
    /// The issue date, `thisUpdate` (RFC 5280, 5.1.2.4).
    pub this_update: ASN1Time,
    /// The date by which the next list is issued, `nextUpdate` (RFC 5280, 5.1.2.5), or `None` if
    /// the field is absent.
    pub next_update: Option<ASN1Time>,
    /// The entries, in the order of the encoding (RFC 5280, 5.1.2.6).
    pub revoked_certificates: Vec<RevokedCertificate<'a>>,
    extensions: Vec<X509Extension<'a>>,
    raw: &'a [u8],
}

impl<'a> TbsCertList<'a> {
    /// The extensions, in the order of the encoding (RFC 5280, 5.2).
    pub fn extensions(&self) -> &[X509Extension<'a>]
        ensures { result.now ≡ self.now.extensions.items }
    {
        self.extensions.as_slice()
    }

    /// The extensions, in the order of the encoding (RFC 5280, 5.2).
    pub fn iter_extensions(&self) -> slice::Iter<'_, X509Extension<'a>>
        ensures { iter_rest result ≡ self.now.extensions.items }
    {
        self.extensions.iter()
    }

    /// The first extension with this identifier, or `None`. Later ones with the same identifier
    /// aren't looked at: `get_extension_unique` reports them.
    pub fn find_extension(&self, oid: &Oid<'_>) -> Option<&X509Extension<'a>>
        ensures { option_map (λ e. e.now) result ≡ first_of (all_of oid.now self.now.extensions.items) }
    {
        find_extension(self.extensions.as_slice(), oid)
    }

    /// The octets that the signature covers: the whole encoding of the signed part.
    pub fn as_ref(&self) -> &'a [u8]
        ensures { result ≡ self.now.raw }
    {
        self.raw
    }

    /// A copy that borrows the same octets as the signed part.
    ///
    /// # Errors
    ///
    /// Out of memory, for the copied vectors.
    #[tactic(auto, using(x509_names::proofs::Copied::same_name))]
    pub fn clone(&self, alloc: Global) -> Result<TbsCertList<'a>, OutOfMemory>
        ensures value { IfOk result (λ copy. tbs_view copy ≡ tbs_view self.now) }
        ensures serials { IfOk result (λ copy. map (λ e. e.user_certificate) copy.revoked_certificates.items ≡ map (λ e. e.user_certificate) self.now.revoked_certificates.items) }
        ensures errors { IfOk result (λ copy. map extension_error copy.extensions.items ≡ map extension_error self.now.extensions.items) }
        ensures entry_errors { IfOk result (λ copy. map entry_errors copy.revoked_certificates.items ≡ map entry_errors self.now.revoked_certificates.items) }
    {
        let signature = self.signature.clone(alloc)?;
        let issuer = self.issuer.clone(alloc)?;
        let revoked_certificates = copy_entries(alloc, self.revoked_certificates.as_slice())?;
        let extensions = copy_extensions(alloc, self.extensions.as_slice())?;
        Ok(TbsCertList {
            version: self.version,
            signature,
            issuer,
            this_update: self.this_update,
            next_update: self.next_update,
            revoked_certificates,
            extensions,
            raw: self.raw,
        })
    }
}

/// Reads the version, or `None` without reading if there is none.
#[tactic(auto, unfolding(crate::specs::Reading::version_at))]
fn next_version(parts: &mut Parts<'_>) -> Option<X509Version>
    ensures read { (option_map (λ v. v.0) result, parts.new.octets) ≡ version_at parts.old.octets }
    ensures elements { parts.new.elements ≤ parts.old.elements }
    ensures ends { length parts.new.octets ≤ length parts.old.octets }
{
    let element = parts.first()?;
    let version = version_of(element.any)?;
    parts.advance();
    Some(version)
}

/// The fields before the dates: version, signature algorithm and issuer.
#[derive(Drop)]
struct Signer<'a> {
    version: Option<X509Version>,
    signature: AlgorithmIdentifier<'a>,
    issuer: X509Name<'a>,
}

/// The dates: `thisUpdate` and `nextUpdate`.
#[derive(Clone, Copy)]
struct Dates {
    this_update: ASN1Time,
    next_update: Option<ASN1Time>,
}

/// The fields after the dates: entries and extensions.
#[derive(Drop)]
struct Revoked<'a> {
    entries: Vec<RevokedCertificate<'a>>,
    extensions: Vec<X509Extension<'a>>,
}

/// Reads the version, the signature algorithm and the issuer.
#[tactic(auto, unfolding(crate::specs::Steps::signer_at))]
fn next_signer<'a>(
    alloc: Global,
    parts: &mut Parts<'a>,
    count: &mut HeaderCount,
) -> Result<Signer<'a>, Refusal<X509Error>>
    requires { attempts count.old + 3 * length parts.old.octets < 2 ^ 128 }
    ensures read { Gives (λ v. (signer_view v, parts.new.octets)) result (signer_at parts.old.octets) }
    ensures counted { IfOk result (λ v. HasCountedParameters v.signature × IsCountedName v.issuer) }
    ensures elements { IfOk result (λ _. parts.new.elements + 2 ≤ parts.old.elements) }
    ensures least { IfOk result (λ _. attempts count.old + 1 ≤ attempts count.new) }
    ensures grows { attempts count.old ≤ attempts count.new }
    ensures ends { length parts.new.octets ≤ length parts.old.octets }
    ensures most { attempts count.new + 3 * length parts.new.octets ≤ attempts count.old + 3 * length parts.old.octets }
{
    let version = next_version(parts);
    let signature = next_algorithm(alloc, parts, count)?;
    let issuer = next_name(alloc, parts, count)?;
    Ok(Signer {
        version,
        signature,
        issuer,
    })
}

/// Reads `thisUpdate` and `nextUpdate`.
#[tactic(auto, unfolding(crate::specs::Steps::dates_at))]
fn next_dates(parts: &mut Parts<'_>, count: &mut HeaderCount) -> Result<Dates, Refusal<X509Error>>
    requires { attempts count.old + 1 < 2 ^ 128 }
    ensures read { Gives (λ v. (dates_view v, parts.new.octets)) result (dates_at parts.old.octets) }
    ensures elements { IfOk result (λ _. parts.new.elements + 1 ≤ parts.old.elements) }
    ensures grows { attempts count.old ≤ attempts count.new }
    ensures ends { length parts.new.octets ≤ length parts.old.octets }
    ensures most { attempts count.new ≤ attempts count.old + 1 }
{
    let this_update = match next_time(parts) {
        Ok(time) => time,
        Err(refusal) => return Err(refusal),
    };
    match next_update(parts, count) {
        Ok(next_update) => Ok(Dates {
            this_update,
            next_update,
        }),
        Err(refusal) => Err(refusal),
    }
}

/// Reads the entries and the extensions, to the end.
#[tactic(auto, unfolding(crate::specs::Steps::revoked_at))]
fn revoked_of<'a>(
    alloc: Global,
    parts: &mut Parts<'a>,
    deep: bool,
    count: &mut HeaderCount,
) -> Result<Revoked<'a>, Refusal<X509Error>>
    requires { attempts count.old + 4 * length parts.old.octets < 2 ^ 128 }
    ensures read { Gives revoked_view result (revoked_at (reading_of deep) parts.old.octets) }
    ensures serials { IfOk result (λ r. All HasSerial r.entries.items) }
    ensures counted { IfOk result (λ r. All IsCountedEntry r.entries.items × All IsCountedExtension r.extensions.items) }
    ensures memory { IfOk result (λ r. All WantsNoMemory r.extensions.items) }
    ensures entries { IfOk result (λ r. All EntryWantsNoMemory r.entries.items) }
    ensures grows { attempts count.old ≤ attempts count.new }
    ensures most { attempts count.new ≤ attempts count.old + 4 * length parts.old.octets }
{
    let entries = next_entries(alloc, parts, deep, count)?;
    let extensions = extensions_of(alloc, 0, parts.left(), deep, count)?;
    Ok(Revoked {
        entries,
        extensions,
    })
}

/// Joins the fields of a signed part with its octets.
fn joined<'a>(
    raw: &'a [u8],
    signer: Signer<'a>,
    dates: Dates,
    revoked: Revoked<'a>,
) -> TbsCertList<'a>
    ensures { result ≡ record { version = signer.entry.version; signature = signer.entry.signature; issuer = signer.entry.issuer; this_update = dates.this_update; next_update = dates.next_update; revoked_certificates = revoked.entry.entries; extensions = revoked.entry.extensions; raw = raw.entry } }
{
    TbsCertList {
        version: signer.version,
        signature: signer.signature,
        issuer: signer.issuer,
        this_update: dates.this_update,
        next_update: dates.next_update,
        revoked_certificates: revoked.entries,
        extensions: revoked.extensions,
        raw,
    }
}

/// Reads the fields of the signed part with these octets; extension values are parsed if `deep` is
/// true.
fn signed_of<'a>(
    alloc: Global,
    raw: &'a [u8],
    parts: &mut Parts<'a>,
    deep: bool,
    count: &mut HeaderCount,
) -> Result<TbsCertList<'a>, Refusal<X509Error>>
    requires { attempts count.old + 6 * length parts.old.octets < 2 ^ 128 }
    ensures read { Gives tbs_view result (signed_at (reading_of deep) raw.now parts.old.octets) }
    ensures serials { IfOk result HaveSerials }
    ensures counted { IfOk result IsCountedTbs }
    ensures memory { IfOk result (λ t. All WantsNoMemory t.extensions.items) }
    ensures entries { IfOk result EntriesWantNoMemory }
    ensures elements { IfOk result (λ _. 3 ≤ parts.old.elements) }
    ensures least { IfOk result (λ _. attempts count.old + 1 ≤ attempts count.new) }
    ensures grows { attempts count.old ≤ attempts count.new }
    ensures most { attempts count.new ≤ attempts count.old + 6 * length parts.old.octets }
{
    let signer = next_signer(alloc, parts, count)?;
    let dates = match next_dates(parts, count) {
        Ok(dates) => dates,
        Err(refusal) => return Err(refusal),
    };
    match revoked_of(alloc, parts, deep, count) {
        Ok(revoked) => Ok(joined(raw, signer, dates, revoked)),
        Err(refusal) => Err(refusal),
    }
}

/// Reads the signed part in an element; extension values are parsed if `deep` is true.
pub(crate) fn tbs_of<'a>(
    alloc: Global,
    element: Element<'a>,
    deep: bool,
    count: &mut HeaderCount,
) -> Result<TbsCertList<'a>, Refusal<X509Error>>
    requires { attempts count.old + 7 * length element.any.content.now < 2 ^ 128 }
    ensures read { Gives tbs_view result (tbs_in (reading_of deep) (piece_of element.entry)) }
    ensures serials { IfOk result HaveSerials }
    ensures counted { IfOk result IsCountedTbs }
    ensures memory { IfOk result (λ t. All WantsNoMemory t.extensions.items) }
    ensures entries { IfOk result EntriesWantNoMemory }
    ensures least { IfOk result (λ _. attempts count.old + 4 ≤ attempts count.new) }
    ensures grows { attempts count.old ≤ attempts count.new }
    ensures most { attempts count.new ≤ attempts count.old + 7 * length element.entry.any.content.now }
{
    match parts_of(alloc, 16, element, count) {
        Ok(mut parts) => signed_of(alloc, element.octets, &mut parts, deep, count),
        Err(refusal) => Err(refusal),
    }
}

/// Reads the signed part at the front; extension values are parsed if `deep` is true.
pub(crate) fn next_tbs<'a>(
    alloc: Global,
    parts: &mut Parts<'a>,
    deep: bool,
    count: &mut HeaderCount,
) -> Result<TbsCertList<'a>, Refusal<X509Error>>
    requires { attempts count.old + 7 * length parts.old.octets < 2 ^ 128 }
    ensures read { Gives (λ v. (tbs_view v, parts.new.octets)) result (tbs_at (reading_of deep) parts.old.octets) }
    ensures serials { IfOk result HaveSerials }
    ensures counted { IfOk result IsCountedTbs }
    ensures memory { IfOk result (λ t. All WantsNoMemory t.extensions.items) }
    ensures entries { IfOk result EntriesWantNoMemory }
    ensures elements { IfOk result (λ _. parts.old.elements ≡ parts.new.elements + 1) }
    ensures least { IfOk result (λ _. attempts count.old + 4 ≤ attempts count.new) }
    ensures grows { attempts count.old ≤ attempts count.new }
    ensures ends { length parts.new.octets ≤ length parts.old.octets }
    ensures most { attempts count.new + 7 * length parts.new.octets ≤ attempts count.old + 7 * length parts.old.octets }
{
    let element = parts.next()?;
    tbs_of(alloc, element, deep, count)
}
