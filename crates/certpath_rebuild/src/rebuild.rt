//! Fields written back.
ghost use Rattle.std.specs.Prelude.{◌≡◌, ◌↔◌, IsTrue};
ghost use Rattle.cert_model.specs.Octets.{certificate_octets, list_octets};
ghost use Rattle.cert_model.specs.View.{certificate_view, list_view};
ghost use Rattle.certpath_rebuild.specs.Puts.{Rebuilds};

use crate::certificates::certificate;
use crate::encode::Encode;
use crate::lists::list;
use asn1_core::{SerializeError, SerializeResult};
use asn1_device::Sink;
use cert_model::fields::{CertFields, ListFields};

/// Writes the octets of these fields (RFC 5280, 4.1, by the rules of DER), and returns their
/// number. If the fields are in range (`CertFields::in_range`), the octets are a certificate. It
/// takes no memory and doesn't flush.
///
/// # Errors
///
/// `InvalidLength` if the number of octets passes `usize`, before anything is written; `IOError` if
/// the writer fails, after some octets from the front.
pub fn rebuild_certificate<S: Sink>(
    fields: &CertFields<'_>,
    writer: &mut S,
) -> SerializeResult<usize>
    ensures written { Rebuilds (S.contents writer.old) (S.contents writer.new) (S.failures writer.old) (S.failures writer.new) (certificate_octets (certificate_view fields.now)) result }
    ensures flushes { S.flushes writer.new ≡ S.flushes writer.old }
{
    let whole = certificate(fields);
    match whole.size() {
        Some(size) => match whole.put(writer) {
            Ok(()) => Ok(size),
            Err(_) => Err(SerializeError::IOError),
        },
        None => Err(SerializeError::InvalidLength),
    }
}

/// Writes the octets of these fields (RFC 5280, 5.1, by the rules of DER), and returns their
/// number. If the fields are in range (`ListFields::in_range`), the octets are a revocation list.
/// It takes no memory and doesn't flush.
///
/// # Errors
///
/// `InvalidLength` if the number of octets passes `usize`, before anything is written; `IOError` if
/// the writer fails, after some octets from the front.
pub fn rebuild_list<S: Sink>(fields: &ListFields<'_>, writer: &mut S) -> SerializeResult<usize>
    ensures written { Rebuilds (S.contents writer.old) (S.contents writer.new) (S.failures writer.old) (S.failures writer.new) (list_octets (list_view fields.now)) result }
    ensures flushes { S.flushes writer.new ≡ S.flushes writer.old }
{
    let whole = list(fields);
    match whole.size() {
        Some(size) => match whole.put(writer) {
            Ok(()) => Ok(size),
            Err(_) => Err(SerializeError::IOError),
        },
        None => Err(SerializeError::InvalidLength),
    }
}

// Whether the octets are the part's, and nothing is before them.
fn is_whole<P: Encode>(part: &P, octets: &[u8]) -> bool
    ensures { IsTrue result ↔ (P.octets part.now ≡ octets.now) }
{
    match part.before(octets) {
        Some(front) => front.is_empty(),
        None => false,
    }
}

/// Returns whether the octets are those that `rebuild_certificate` writes of these fields. They are
/// compared from the end, each octet once; nothing is written, and no memory is taken.
pub fn writes_certificate(fields: &CertFields<'_>, octets: &[u8]) -> bool
    ensures { IsTrue result ↔ (certificate_octets (certificate_view fields.now) ≡ octets.now) }
{
    is_whole(&certificate(fields), octets)
}

/// Returns whether the octets are those that `rebuild_list` writes of these fields. They are
/// compared from the end, each octet once; nothing is written, and no memory is taken.
pub fn writes_list(fields: &ListFields<'_>, octets: &[u8]) -> bool
    ensures { IsTrue result ↔ (list_octets (list_view fields.now) ≡ octets.now) }
{
    is_whole(&list(fields), octets)
}
