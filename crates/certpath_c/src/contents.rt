//! All that is read of an item at once: what it is, its times, its fields, and digests.

ghost use Rattle.std.specs.Prelude.{◌≡◌, ◌++◌, option_copied, IfOk, OnOk};
ghost use Rattle.cert_model.specs.Class.{certificate, list, other};
ghost use Rattle.cert_model.specs.Octets.{certificate_octets, list_octets};
ghost use Rattle.cert_model.specs.View.{certificate_view, list_view};
ghost use Rattle.sha2.specs.Sha256.{sha256};
ghost use Rattle.certpath_c.specs.Contents.{IsSubjectIdIn, IsAuthorityIdIn, HasExtent, octets_in, digest_in, fields_octets, found_view, AreFieldsOf, IsReadOf, IsReadFrom, AreContents, ContentsAnswer};

use crate::status::{DONE, OUT_OF_MEMORY, TOO_SMALL};
use crate::times::{Moment, Validity, certificate_times, list_times};
use crate::writing::put;
use asn1_core::OutOfMemory;
use cert_judge::{list_issuer_of, windows_of};
use cert_model::fields::{CertFields, ListFields};
use certcheck::{ItemClass, read_tree};
use sha2::{Digest, Sha256};
use std::alloc::{AllocError, Global};

/// A field of an item: how many octets it has there, and whether the item has it.
#[repr(C)]
#[derive(Clone, Copy, Debug)]
pub struct Extent {
    pub length: usize,
    pub is_there: u32,
}

/// What an item is, its times, how long its fields are in a buffer that has them one after another,
/// and the digests of the item and of its key.
#[repr(C)]
#[derive(Clone, Copy, Debug)]
pub struct Contents {
    pub class: u32,
    pub validity: Validity,
    pub issuer: Extent,
    pub subject: Extent,
    pub key: Extent,
    pub serial: Extent,
    pub algorithm: Extent,
    pub subject_key_id: Extent,
    pub authority_key_id: Extent,
    pub length: usize,
    pub item_digest: [u8; 32],
    pub key_digest: [u8; 32],
}

/// The octets of each field, if the item has it.
#[derive(Clone, Copy, Debug)]
struct Found<'a> {
    issuer: Option<&'a [u8]>,
    subject: Option<&'a [u8]>,
    key: Option<&'a [u8]>,
    serial: Option<&'a [u8]>,
    algorithm: Option<&'a [u8]>,
    subject_key_id: Option<&'a [u8]>,
    authority_key_id: Option<&'a [u8]>,
}

/// What is read of an item.
#[derive(Clone, Copy, Debug)]
struct ItemRead<'a> {
    class: u32,
    validity: Validity,
    found: Found<'a>,
}

/// The identifier that a certificate gives its key.
fn subject_id<'a>(fields: &CertFields<'a>) -> Option<&'a [u8]>
    ensures { IsSubjectIdIn (certificate (certificate_view fields.now)) (option_copied result) }
{
    fields.subject_key_id()
}

/// The identifier that a certificate gives its issuer's key.
fn authority_id<'a>(fields: &CertFields<'a>) -> Option<&'a [u8]>
    ensures { IsAuthorityIdIn (certificate (certificate_view fields.now)) (option_copied result) }
{
    fields.authority_key_id()
}

/// The fields of a certificate.
fn certificate_found<'a>(item: &'a [u8], fields: &CertFields<'a>) -> Found<'a>
    requires { item.now ≡ certificate_octets (certificate_view fields.now) }
    ensures { AreFieldsOf (certificate (certificate_view fields.now)) (found_view result) }
{
    let Some(windows) = windows_of(item, fields) else {
        unreachable!()
    };
    Found {
        issuer: Some(windows.issuer),
        subject: Some(windows.subject),
        key: Some(windows.key),
        serial: Some(fields.serial),
        algorithm: Some(fields.algorithm.identifier),
        subject_key_id: subject_id(fields),
        authority_key_id: authority_id(fields),
    }
}

/// The fields of a list.
fn list_found<'a>(item: &'a [u8], fields: &ListFields<'a>) -> Found<'a>
    requires { item.now ≡ list_octets (list_view fields.now) }
    ensures { AreFieldsOf (list (list_view fields.now)) (found_view result) }
{
    let Some(issuer) = list_issuer_of(item, fields) else {
        unreachable!()
    };
    Found {
        issuer: Some(issuer),
        subject: None,
        key: None,
        serial: None,
        algorithm: Some(fields.algorithm.identifier),
        subject_key_id: None,
        authority_key_id: None,
    }
}

/// What is read of an item that is neither a certificate nor a list.
fn other_read<'a>() -> ItemRead<'a>
    ensures { IsReadOf other result }
{
    let never = Moment {
        year: 0,
        month: 0,
        day: 0,
        hour: 0,
        minute: 0,
        second: 0,
    };
    ItemRead {
        class: 0,
        validity: Validity {
            first: never,
            last: never,
            has_last: 0,
        },
        found: Found {
            issuer: None,
            subject: None,
            key: None,
            serial: None,
            algorithm: None,
            subject_key_id: None,
            authority_key_id: None,
        },
    }
}

/// What is read of a certificate.
fn certificate_read<'a>(item: &'a [u8], fields: &CertFields<'a>) -> ItemRead<'a>
    requires { item.now ≡ certificate_octets (certificate_view fields.now) }
    ensures { IsReadOf (certificate (certificate_view fields.now)) result }
{
    ItemRead {
        class: 1,
        validity: certificate_times(fields),
        found: certificate_found(item, fields),
    }
}

/// What is read of a list.
fn list_read<'a>(item: &'a [u8], fields: &ListFields<'a>) -> ItemRead<'a>
    requires { item.now ≡ list_octets (list_view fields.now) }
    ensures { IsReadOf (list (list_view fields.now)) result }
{
    ItemRead {
        class: 2,
        validity: list_times(fields),
        found: list_found(item, fields),
    }
}

/// What is read of an item, by one tree.
fn item_read<'a>(alloc: Global, item: &'a [u8]) -> Result<ItemRead<'a>, OutOfMemory>
    ensures { IfOk result (IsReadFrom item.now) }
{
    match read_tree(alloc, item)? {
        ItemClass::Certificate(fields) => Ok(certificate_read(item, &fields)),
        ItemClass::List(fields) => Ok(list_read(item, &fields)),
        ItemClass::Other => Ok(other_read()),
    }
}

fn extent_of(field: Option<&[u8]>) -> Extent
    ensures { HasExtent (option_copied field.entry) result }
{
    match field {
        Some(octets) => Extent {
            length: octets.len(),
            is_there: 1,
        },
        None => Extent {
            length: 0,
            is_there: 0,
        },
    }
}

/// The octets of a field; none if it isn't there.
fn octets_in<'a>(field: Option<&'a [u8]>) -> &'a [u8]
    ensures { result.now ≡ octets_in (option_copied field.entry) }
{
    match field {
        Some(octets) => octets,
        None => &[],
    }
}

/// Adds a field's octets.
fn push_field(octets: &mut Vec<u8>, field: Option<&[u8]>) -> Result<(), AllocError>
    ensures { OnOk result (octets.new.items ≡ octets.old.items ++ octets_in (option_copied field.entry)) }
{
    octets.extend_from_slice(octets_in(field))
}

/// The fields, one after another.
fn joined(alloc: Global, found: &Found<'_>) -> Result<Vec<u8>, AllocError>
    ensures { IfOk result (λ octets. octets.items ≡ fields_octets (found_view found.now)) }
{
    let mut octets = Vec::from_slice(alloc, octets_in(found.issuer))?;
    push_field(&mut octets, found.subject)?;
    push_field(&mut octets, found.key)?;
    push_field(&mut octets, found.serial)?;
    push_field(&mut octets, found.algorithm)?;
    push_field(&mut octets, found.subject_key_id)?;
    push_field(&mut octets, found.authority_key_id)?;
    Ok(octets)
}

/// The SHA-256 digest (FIPS 180-4) of octets.
fn digest_of(octets: &[u8]) -> [u8; 32]
    ensures { result ≡ sha256 octets.now }
{
    Sha256::digest(octets)
}

/// The digest of a field; zeros if it isn't there.
fn digest_in(field: Option<&[u8]>) -> [u8; 32]
    ensures { result ≡ digest_in (option_copied field.entry) }
{
    match field {
        Some(octets) => digest_of(octets),
        None => [0; 32],
    }
}

/// What was read of an item, as the caller gets it, with this many octets of fields.
fn contents_of(item: &[u8], read: &ItemRead<'_>, length: usize) -> Contents
    ensures { AreContents item.now read.now length result }
{
    let found = read.found;
    Contents {
        class: read.class,
        validity: read.validity,
        issuer: extent_of(found.issuer),
        subject: extent_of(found.subject),
        key: extent_of(found.key),
        serial: extent_of(found.serial),
        algorithm: extent_of(found.algorithm),
        subject_key_id: extent_of(found.subject_key_id),
        authority_key_id: extent_of(found.authority_key_id),
        length,
        item_digest: digest_of(item),
        key_digest: digest_in(found.key),
    }
}

/// `certpath_item` of the header.
#[unsafe(no_mangle)]
pub extern "C" fn certpath_item(
    alloc: Global,
    item: &[u8],
    octets: &mut [u8],
    contents: &mut Contents,
) -> i32
    ensures { ContentsAnswer item.now octets.old octets.new contents.old contents.new result }
{
    let Ok(read) = item_read(alloc, item) else {
        return OUT_OF_MEMORY;
    };
    let Ok(fields) = joined(alloc, &read.found) else {
        return OUT_OF_MEMORY;
    };
    *contents = contents_of(item, &read, fields.len());
    if put(octets, &fields) {
        DONE
    } else {
        TOO_SMALL
    }
}
