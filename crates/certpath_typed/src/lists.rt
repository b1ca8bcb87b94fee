//! Revocation lists: from what the reader returns to fields (RFC 5280, 5.1).

ghost use Rattle.std.specs.Prelude.{◌≡◌, map, min, option_map, IfOk};
ghost use Rattle.std.specs.List.{AllZip};
ghost use Rattle.cert_model.specs.View.{time_view, entry_view, list_view};
ghost use Rattle.certpath_typed.specs.ToldItems.{TellsEntry, TellsList};

use crate::certificates::small_version;
use crate::parts::{algorithm_field, bit_field, extension_fields, name_fields};
use asn1_core::OutOfMemory;
use cert_model::fields::{EntryFields, ListFields};
use jiff::civil::DateTime;
use std::alloc::Global;
use x509_links::{CertificateRevocationList, RevokedCertificate, X509Version};
use x509_time::ASN1Time;

fn version_field(version: &Option<X509Version>) -> Option<u8>
    ensures { result ≡ option_map (λ v. min v.0 255) version.now }
{
    match version {
        Some(version) => Some(small_version(version.0)),
        None => None,
    }
}

fn update_field(time: &Option<ASN1Time>) -> Option<DateTime>
    ensures { option_map time_view result ≡ option_map (λ t. time_view t.time) time.now }
{
    match time {
        Some(time) => Some(time.to_datetime()),
        None => None,
    }
}

fn entry_fields<'a>(
    alloc: Global,
    item: &'a [u8],
    entry: &RevokedCertificate<'a>,
) -> Result<EntryFields<'a>, OutOfMemory>
    ensures { IfOk result (λ f. TellsEntry item.now entry.now (entry_view f)) }
{
    let extensions = extension_fields(alloc, item, entry.extensions())?;
    Ok(EntryFields {
        serial: entry.raw_serial(),
        date: entry.revocation_date.to_datetime(),
        extensions,
    })
}

fn entries_fields<'a>(
    alloc: Global,
    item: &'a [u8],
    entries: &[RevokedCertificate<'a>],
) -> Result<Vec<EntryFields<'a>>, OutOfMemory>
    ensures { IfOk result (λ v. AllZip (TellsEntry item.now) entries.now (map entry_view v.items)) }
{
    let mut fields = Vec::with_capacity(alloc, entries.len())?;
    for entry in entries {
        fields.push(entry_fields(alloc, item, entry)?)?;
    }
    Ok(fields)
}

/// Returns the fields of a list that was read from the item.
pub(crate) fn list_fields<'a>(
    alloc: Global,
    item: &'a [u8],
    list: &CertificateRevocationList<'a>,
) -> Result<ListFields<'a>, OutOfMemory>
    ensures { IfOk result (λ f. TellsList item.now list.now (list_view f)) }
{
    let tbs = &list.tbs_cert_list;
    let issuer = name_fields(alloc, item, &tbs.issuer)?;
    let entries = entries_fields(alloc, item, tbs.revoked_certificates.as_slice())?;
    let extensions = extension_fields(alloc, item, list.extensions())?;
    Ok(ListFields {
        version: version_field(&tbs.version),
        signature: algorithm_field(item, &tbs.signature),
        issuer,
        this_update: tbs.this_update.to_datetime(),
        next_update: update_field(&tbs.next_update),
        entries,
        extensions,
        algorithm: algorithm_field(item, &list.signature_algorithm),
        signature_value: bit_field(list.signature_value),
    })
}
