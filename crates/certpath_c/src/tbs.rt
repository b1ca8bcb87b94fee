//! The first part of a certificate, TBSCertificate, without the extensions of an identifier.

ghost use Rattle.std.specs.Prelude.{◌≡◌, ◌++◌, map, IfOk, OnOk, IsSomeAnd, MatchOption};
ghost use Rattle.cert_model.specs.Fields.{Certificate};
ghost use Rattle.cert_model.specs.Octets.{tbs_certificate_octets, certificate_octets};
ghost use Rattle.cert_model.specs.View.{ext_view, certificate_view};
ghost use Rattle.cert_serving.specs.Demanding.{IsNoCertificate};
ghost use Rattle.certpath_c.specs.Tbs.{kept, without, certificate_without, IsRebuilt, TbsAnswer};

use crate::status::{DONE, NOT_CERTIFICATE, OUT_OF_MEMORY, TOO_SMALL};
use crate::writing::put;
use asn1_core::{Class, OutOfMemory, Tag};
use asn1_device::WriteSink;
use cert_model::fields::{CertFields, ExtField};
use cert_model::parts::{first_part, whole};
use certcheck::{ItemClass, read_tree};
use certpath_rebuild::rebuild_certificate;
use std::alloc::{AllocError, Global};

/// Adds an extension, unless it has the identifier.
fn push_kept<'a>(
    left: &mut Vec<ExtField<'a>>,
    extension: &ExtField<'a>,
    identifier: &[u8],
) -> Result<(), AllocError>
    ensures { OnOk result (map ext_view left.new.items ≡ map ext_view left.old.items ++ kept identifier.now (ext_view extension.now)) }
{
    if extension.identifier != identifier {
        left.push(*extension)?;
    }
    Ok(())
}

/// The extensions that don't have the identifier, in their order.
fn left_of<'a>(
    alloc: Global,
    extensions: &[ExtField<'a>],
    identifier: &[u8],
) -> Result<Vec<ExtField<'a>>, AllocError>
    ensures { IfOk result (λ left. map ext_view left.items ≡ without identifier.now (map ext_view extensions.now)) }
{
    let mut left = Vec::new(alloc);
    for extension in extensions {
        push_kept(&mut left, extension, identifier)?;
    }
    Ok(left)
}

/// Leaves the extensions of an identifier out of a certificate's fields.
fn leave_out(
    alloc: Global,
    fields: &mut CertFields<'_>,
    identifier: &[u8],
) -> Result<(), AllocError>
    ensures { OnOk result (certificate_view fields.new ≡ certificate_without identifier.now (certificate_view fields.old)) }
{
    fields.extensions = left_of(alloc, &fields.extensions, identifier)?;
    Ok(())
}

/// The octets that a certificate's fields write. The only error is out of memory.
fn written(alloc: Global, fields: &CertFields<'_>) -> Result<Vec<u8>, OutOfMemory>
    ensures { IfOk result (λ octets. octets.items ≡ certificate_octets (certificate_view fields.now)) }
{
    let mut sink = WriteSink::new(Vec::new(alloc));
    match rebuild_certificate(fields, &mut sink) {
        Ok(_) => Ok(sink.into_inner()),
        Err(_) => Err(OutOfMemory),
    }
}

/// The octets that the fields write without the extensions of an identifier.
fn rebuilt_of(
    alloc: Global,
    fields: CertFields<'_>,
    identifier: &[u8],
) -> Result<Vec<u8>, OutOfMemory>
    ensures { IfOk result (λ octets. octets.items ≡ certificate_octets (certificate_without identifier.now (certificate_view fields.entry))) }
{
    let mut fields = fields;
    leave_out(alloc, &mut fields, identifier)?;
    written(alloc, &fields)
}

/// A certificate, written without the extensions of an identifier; none of an item that is no
/// certificate.
fn rebuilt(alloc: Global, item: &[u8], identifier: &[u8]) -> Result<Option<Vec<u8>>, OutOfMemory>
    ensures { IfOk result (λ o. MatchOption o (IsNoCertificate item.now) (λ octets. IsRebuilt item.now identifier.now octets.items)) }
{
    match read_tree(alloc, item)? {
        ItemClass::Certificate(fields) => {
            let octets = rebuilt_of(alloc, fields, identifier)?;
            Ok(Some(octets))
        }
        _ => Ok(None),
    }
}

/// The first part of what a certificate's fields write.
fn first_of(octets: &[u8]) -> Option<&[u8]>
    ensures { (c : Certificate) → octets.now ≡ certificate_octets c → IsSomeAnd result (λ first. first.now ≡ tbs_certificate_octets c) }
{
    let content = whole(Class::Universal, true, Tag::Sequence.0, octets)?;
    let (first, _) = first_part(content)?;
    Some(first)
}

/// `certpath_tbs` of the header.
#[unsafe(no_mangle)]
pub extern "C" fn certpath_tbs(
    alloc: Global,
    item: &[u8],
    without: &[u8],
    octets: &mut [u8],
    length: &mut usize,
) -> i32
    ensures { TbsAnswer item.now without.now octets.old octets.new length.old length.new result }
{
    let Ok(found) = rebuilt(alloc, item, without) else {
        return OUT_OF_MEMORY;
    };
    let Some(certificate) = found else {
        return NOT_CERTIFICATE;
    };
    let Some(first) = first_of(&certificate) else {
        unreachable!()
    };
    *length = first.len();
    if put(octets, first) { DONE } else { TOO_SMALL }
}
