//! Fields of single items, as the octets that they have there.

ghost use Rattle.std.specs.Prelude.{◌≡◌, option_map, IfOk};
ghost use Rattle.cert_model.specs.Class.{Class, IsClassOf};
ghost use Rattle.cert_model.specs.Octets.{certificate_octets, list_octets};
ghost use Rattle.cert_model.specs.View.{certificate_view, list_view};
ghost use Rattle.certpath_c.specs.Fields.{certificate_field, list_field, field_in, FieldAnswer};

use crate::status::{DONE, NO_FIELD, OUT_OF_MEMORY, TOO_SMALL};
use crate::writing::put;
use asn1_core::OutOfMemory;
use cert_judge::{list_issuer_of, windows_of};
use cert_model::fields::{CertFields, ListFields};
use certcheck::{ItemClass, read_tree};
use std::alloc::Global;

/// A field of a certificate, by the numbers of the header.
fn certificate_field<'a>(item: &'a [u8], fields: &CertFields<'a>, number: u32) -> Option<&'a [u8]>
    requires { item.now ≡ certificate_octets (certificate_view fields.now) }
    ensures { option_map (λ o. o.now) result ≡ certificate_field number (certificate_view fields.now) }
{
    let Some(windows) = windows_of(item, fields) else {
        unreachable!()
    };
    if number == 0 {
        Some(windows.issuer)
    } else if number == 1 {
        Some(windows.subject)
    } else if number == 2 {
        Some(windows.key)
    } else if number == 3 {
        Some(fields.serial)
    } else if number == 4 {
        Some(fields.algorithm.identifier)
    } else {
        None
    }
}

/// A field of a list, by the same numbers.
fn list_field<'a>(item: &'a [u8], fields: &ListFields<'a>, number: u32) -> Option<&'a [u8]>
    requires { item.now ≡ list_octets (list_view fields.now) }
    ensures { option_map (λ o. o.now) result ≡ list_field number (list_view fields.now) }
{
    let Some(issuer) = list_issuer_of(item, fields) else {
        unreachable!()
    };
    if number == 0 {
        Some(issuer)
    } else if number == 4 {
        Some(fields.algorithm.identifier)
    } else {
        None
    }
}

/// A field of an item, if it has it.
fn field_of<'a>(alloc: Global, item: &'a [u8], number: u32) -> Result<Option<&'a [u8]>, OutOfMemory>
    ensures { IfOk result (λ r. (class : Class) × IsClassOf item.now class × (option_map (λ o. o.now) r ≡ field_in number class)) }
{
    match read_tree(alloc, item)? {
        ItemClass::Certificate(fields) => Ok(certificate_field(item, &fields, number)),
        ItemClass::List(fields) => Ok(list_field(item, &fields, number)),
        ItemClass::Other => Ok(None),
    }
}

/// `certpath_field` of the header.
#[unsafe(no_mangle)]
pub extern "C" fn certpath_field(
    alloc: Global,
    item: &[u8],
    number: u32,
    octets: &mut [u8],
    length: &mut usize,
) -> i32
    ensures { FieldAnswer item.now number octets.old octets.new length.old length.new result }
{
    let Ok(found) = field_of(alloc, item, number) else {
        return OUT_OF_MEMORY;
    };
    let Some(field) = found else {
        return NO_FIELD;
    };
    *length = field.len();
    if put(octets, field) { DONE } else { TOO_SMALL }
}
