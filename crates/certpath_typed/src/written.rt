//! Whether fields write the octets of an item. Nothing is copied.

ghost use Rattle.std.specs.Prelude.{◌≡◌, ◌↔◌, IsTrue};
ghost use Rattle.cert_model.specs.Octets.{certificate_octets, list_octets};
ghost use Rattle.cert_model.specs.View.{certificate_view, list_view};

use crate::comparison::Comparison;
use cert_model::fields::{CertFields, ListFields};
use certpath_rebuild::{rebuild_certificate, rebuild_list, writes_certificate, writes_list};

/// The longest item that is compared from its end, which is faster: 65,536 octets. A longer one is
/// compared from its front, so that one that differs there is rejected before the rest is read.
const SHORT: usize = 65536;

/// Returns whether the certificate of these fields is the item.
pub(crate) fn is_written_certificate(fields: &CertFields<'_>, item: &[u8]) -> bool
    ensures { IsTrue result ↔ (certificate_octets (certificate_view fields.now) ≡ item.now) }
{
    if item.len() <= SHORT {
        writes_certificate(fields, item)
    } else {
        is_long_certificate(fields, item)
    }
}

/// Returns whether the certificate of these fields is the item, compared from its front.
fn is_long_certificate(fields: &CertFields<'_>, item: &[u8]) -> bool
    ensures { IsTrue result ↔ (certificate_octets (certificate_view fields.now) ≡ item.now) }
{
    let mut comparison = Comparison::new(item);
    match rebuild_certificate(fields, &mut comparison) {
        Ok(_) => comparison.is_whole(),
        Err(_) => false,
    }
}

/// Returns whether the list of these fields is the item.
pub(crate) fn is_written_list(fields: &ListFields<'_>, item: &[u8]) -> bool
    ensures { IsTrue result ↔ (list_octets (list_view fields.now) ≡ item.now) }
{
    if item.len() <= SHORT {
        writes_list(fields, item)
    } else {
        is_long_list(fields, item)
    }
}

/// Returns whether the list of these fields is the item, compared from its front.
fn is_long_list(fields: &ListFields<'_>, item: &[u8]) -> bool
    ensures { IsTrue result ↔ (list_octets (list_view fields.now) ≡ item.now) }
{
    let mut comparison = Comparison::new(item);
    match rebuild_list(fields, &mut comparison) {
        Ok(_) => comparison.is_whole(),
        Err(_) => false,
    }
}
