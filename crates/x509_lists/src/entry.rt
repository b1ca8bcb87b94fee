//! `RevokedCertificate`, an entry of a revocation list (RFC 5280, 5.1.2.6 and 5.3).

ghost use Rattle.std.specs.Prelude.{◌≡◌, ◌+◌, ◌*◌, ◌^◌, ◌<◌, ◌≤◌, length, All, IfOk, map, option_map, string_bytes};
ghost use Rattle.std.specs.Slice.Iter.{iter_rest};
ghost use Rattle.asn1_core.specs.Counts.{attempts};
ghost use Rattle.asn1_any.specs.Views.{any_of};
ghost use Rattle.x509_core.specs.Answers.{Gives, ManyGive};
ghost use Rattle.x509_ext.specs.Values.{serial_text};
ghost use Rattle.x509_ext.specs.Fields.{reading_of};
ghost use Rattle.x509_ext.specs.Lookup.{all_of, first_of};
ghost use Rattle.x509_ext.specs.View.{extension_view, IsCountedExtension, WantsNoMemory};
ghost use Rattle.x509_lists.specs.Lists.{or_none};
ghost use Rattle.x509_lists.specs.Lookup.{reason_code_of, invalidity_date_of};
ghost use Rattle.x509_lists.specs.Reading.{entry_in, entry_extensions_at};
ghost use Rattle.x509_lists.specs.View.{entry_view, entry_errors, HasSerial, IsCountedEntry, EntryWantsNoMemory};

use asn1_any::Element;
use asn1_core::{Err as Refusal, HeaderCount, OutOfMemory};
use asn1_oid::Oid;
use asn1_unsigned::UnsignedBytes;
use std::alloc::Global;
use std::slice;
use x509_core::{Parts, X509Error, parts_of};
use x509_ext::types::{Copies, ReasonCode, format_serial};
use x509_ext::{
    ParsedExtension, X509Extension, copy_extensions, extension_list_of, find_extension, next_serial,
};
use x509_time::{ASN1Time, next_time};

/// id-ce-cRLReasons, 2.5.29.21.
const REASON_CODE: &[u8] = b"\x55\x1d\x15";

/// id-ce-invalidityDate, 2.5.29.24.
const INVALIDITY_DATE: &[u8] = b"\x55\x1d\x18";

/// An entry of a revocation list: a revoked certificate (RFC 5280, 5.1.2.6), borrowed from the
/// octets that it was read from.
#[derive(Debug, Drop, PartialEq, Eq)]
pub struct RevokedCertificate<'a> {
    /// The certificate's serial number: the content octets of the INTEGER, read as unsigned.
    pub user_certificate: UnsignedBytes<'a>,
    /// The date of revocation.
    pub revocation_date: ASN1Time,
    extensions: Vec<X509Extension<'a>>,
    raw_serial: &'a [u8],
}

impl<'a> RevokedCertificate<'a> {
    /// The revoked certificate's serial number.
    pub fn serial(&self) -> &UnsignedBytes<'a>
        ensures { result.now ≡ self.now.user_certificate }
    {
        &self.user_certificate
    }

    /// The extensions, in the order of the encoding (RFC 5280, 5.2).
    pub fn extensions(&self) -> &[X509Extension<'a>]
        ensures { result.now ≡ self.now.extensions.items }
    {
        self.extensions.as_slice()
    }

    /// The extensions, in the order of the encoding (RFC 5280, 5.2).
    pub fn iter_extensions(&self) -> slice::Iter<'_, X509Extension<'a>>
        ensures { iter_rest result ≡ self.now.extensions.items }
    {
        self.extensions.iter()
    }

    /// The first extension with this identifier, or `None`. Later ones with the same identifier
    /// aren't looked at: `get_extension_unique` reports them.
    pub fn find_extension(&self, oid: &Oid<'_>) -> Option<&X509Extension<'a>>
        ensures { option_map (λ e. e.now) result ≡ first_of (all_of oid.now self.now.extensions.items) }
    {
        find_extension(self.extensions.as_slice(), oid)
    }

    /// The content octets of the entry's serial number (RFC 5280, 5.1.2.6), as they are encoded.
    pub fn raw_serial(&self) -> &'a [u8]
        ensures { result ≡ self.now.raw_serial }
    {
        self.raw_serial
    }

    /// The content octets of the serial number as text: two lower-case hexadecimal digits each,
    /// separated by colons, as `01:02:ff`.
    ///
    /// # Errors
    ///
    /// Out of memory, for a text of three characters an octet.
    pub fn raw_serial_as_string(&self, alloc: Global) -> Result<String, OutOfMemory>
        ensures { IfOk result (λ text. string_bytes text ≡ serial_text self.now.raw_serial.now) }
    {
        format_serial(alloc, self.raw_serial)
    }

    /// The extension's critical flag and the reason of revocation (RFC 5280, 5.3.1). `None` if
    /// there is no reasonCode, or the first one wasn't parsed as a reason.
    pub fn reason_code(&self) -> Option<(bool, ReasonCode)>
        ensures { result ≡ reason_code_of self.now.extensions.items }
    {
        let extension = self.find_extension(&Oid::new(REASON_CODE))?;
        match extension.parsed_extension() {
            ParsedExtension::ReasonCode(reason) => Some((extension.critical, *reason)),
            _ => None,
        }
    }

    /// The extension's critical flag and the invalidity date (RFC 5280, 5.3.2). `None` if there is
    /// no invalidityDate, or the first one wasn't parsed as a time.
    pub fn invalidity_date(&self) -> Option<(bool, ASN1Time)>
        ensures { result ≡ invalidity_date_of self.now.extensions.items }
    {
        let extension = self.find_extension(&Oid::new(INVALIDITY_DATE))?;
        match extension.parsed_extension() {
            ParsedExtension::InvalidityDate(date) => Some((extension.critical, *date)),
            _ => None,
        }
    }

    /// A copy that borrows the same octets as the entry.
    ///
    /// # Errors
    ///
    /// Out of memory, for the copied vector of extensions.
    pub fn clone(&self, alloc: Global) -> Result<RevokedCertificate<'a>, OutOfMemory>
        ensures value { IfOk result (λ copy. entry_view copy ≡ entry_view self.now) }
        ensures serial { IfOk result (λ copy. copy.user_certificate ≡ self.now.user_certificate) }
        ensures errors { IfOk result (λ copy. entry_errors copy ≡ entry_errors self.now) }
    {
        let extensions = copy_extensions(alloc, self.extensions.as_slice())?;
        Ok(RevokedCertificate {
            user_certificate: self.user_certificate,
            revocation_date: self.revocation_date,
            extensions,
            raw_serial: self.raw_serial,
        })
    }
}

impl<'a> Copies for RevokedCertificate<'a> {
    ghost use Rattle.std.specs.Prelude.{List, Option};
    ghost use Rattle.asn1_core.specs.declared.error.Error.{Error};
    ghost use Rattle.asn1_core.specs.declared.outcome.Err.{Err as ParseRefusal};
    ghost use Rattle.asn1_unsigned.specs.declared.unsigned.UnsignedBytes.{UnsignedBytes as Number};
    ghost use Rattle.x509_lists.specs.Fields.{Entry};
    ghost use Rattle.x509_lists.specs.View.{entry_view, entry_errors};

    ghost Value = { Entry × (Number × List (Option (ParseRefusal Error))) };

    ghost value = { λ e. (entry_view e, (e.user_certificate, entry_errors e)) };

    fn copy(&self, alloc: Global) -> Result<RevokedCertificate<'a>, OutOfMemory> {
        self.clone(alloc)
    }
}

/// Reads the extensions of an entry; values are parsed if `deep` is true. Absent or malformed ones
/// give none, and nothing is read.
#[tactic(auto, unfolding(crate::specs::Reading::entry_extensions_at))]
fn entry_extensions<'a>(
    alloc: Global,
    parts: &mut Parts<'a>,
    deep: bool,
    count: &mut HeaderCount,
) -> Result<Vec<X509Extension<'a>>, Refusal<X509Error>>
    requires { attempts count.old + 2 * length parts.old.octets < 2 ^ 128 }
    ensures read { ManyGive (λ v. map extension_view v.items) result (entry_extensions_at (reading_of deep) parts.old.octets) parts.new.octets }
    ensures counted { IfOk result (λ v. All IsCountedExtension v.items) }
    ensures memory { IfOk result (λ v. All WantsNoMemory v.items) }
    ensures grows { attempts count.old ≤ attempts count.new }
    ensures most { attempts count.new ≤ attempts count.old + 2 * length parts.old.octets }
{
    let Some(element) = parts.first() else {
        return Ok(Vec::new(alloc));
    };
    match extension_list_of(alloc, element, deep, count) {
        Ok(extensions) => {
            parts.advance();
            Ok(extensions)
        }
        Err(refusal) => match refusal {
            Refusal::Failure(e) => Err(Refusal::Failure(e)),
            _ => Ok(Vec::new(alloc)),
        },
    }
}

/// Reads the entry in an element; extension values are parsed if `deep` is true.
#[tactic(auto, unfolding(crate::specs::Reading::entry_in))]
pub(crate) fn entry_of<'a>(
    alloc: Global,
    element: Element<'a>,
    deep: bool,
    count: &mut HeaderCount,
) -> Result<RevokedCertificate<'a>, Refusal<X509Error>>
    requires { attempts count.old + 3 * length element.any.content.now < 2 ^ 128 }
    ensures read { Gives entry_view result (entry_in (reading_of deep) (any_of element.entry.any)) }
    ensures serial { IfOk result HasSerial }
    ensures counted { IfOk result IsCountedEntry }
    ensures memory { IfOk result EntryWantsNoMemory }
    ensures grows { attempts count.old ≤ attempts count.new }
    ensures most { attempts count.new ≤ attempts count.old + 3 * length element.entry.any.content.now }
{
    let mut parts = parts_of(alloc, 16, element, count)?;
    let raw_serial = next_serial(&mut parts)?;
    let revocation_date = match next_time(&mut parts) {
        Ok(time) => time,
        Err(refusal) => return Err(refusal),
    };
    let extensions = entry_extensions(alloc, &mut parts, deep, count)?;
    Ok(RevokedCertificate {
        user_certificate: UnsignedBytes::from_bytes_be(raw_serial),
        revocation_date,
        extensions,
        raw_serial,
    })
}
