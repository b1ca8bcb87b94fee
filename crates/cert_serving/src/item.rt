//! Whether an item, by its octets, allows a purpose or serves a host.

ghost use Rattle.std.specs.Prelude.{◌↔◌, ◌≡◌, if◌then◌else◌, map, IsTrue, IfOk, MatchOption};
ghost use Rattle.cert_model.specs.View.{ext_view};
ghost use Rattle.cert_purpose.specs.Purposes.{Allows};
ghost use Rattle.host_names.specs.Asked.{host_view};
ghost use Rattle.cert_serving.specs.Demanding.{IsNoCertificate, HasExtensions, IsAnswer, IsPermitted};
ghost use Rattle.cert_serving.specs.Serving.{Serves};
ghost use Rattle.cert_serving.specs.View.{demands_view};

use crate::demands::{Demands, is_met_by_any, meets};
use crate::serving::serves;
use asn1_core::OutOfMemory;
use cert_model::fields::ExtField;
use cert_purpose::allows;
use certcheck::{ItemClass, read_tree};
use host_names::Host;
use std::alloc::Global;

/// The answer on an item of whose certificate something is asked.
#[derive(Clone, Copy, Debug, PartialEq, Eq)]
pub enum Answer {
    /// It is no certificate in its one spelling (RFC 5280, 4.1).
    NotCertificate,
    /// It is a certificate, and what was asked doesn't hold.
    No,
    /// It is a certificate, and what was asked holds.
    Yes,
}

fn answer_of(holds: bool) -> Answer
    ensures { result ≡ (if holds then Answer.Yes else Answer.No) }
{
    if holds { Answer::Yes } else { Answer::No }
}

/// The extensions of the certificate that an item is.
fn extensions_of<'a>(
    alloc: Global,
    octets: &'a [u8],
) -> Result<Option<Vec<ExtField<'a>>>, OutOfMemory>
    ensures { IfOk result (λ o. MatchOption o (IsNoCertificate octets.now) (λ es. HasExtensions octets.now (map ext_view es.items))) }
{
    match read_tree(alloc, octets)? {
        ItemClass::Certificate(fields) => Ok(Some(fields.extensions)),
        _ => Ok(None),
    }
}

/// Returns whether an item is a certificate that allows a purpose (RFC 5280, 4.2.1.12), given by
/// the content octets of its identifier. Takes time and memory linear in the item. The only error
/// is out of memory.
pub fn item_allows(alloc: Global, octets: &[u8], purpose: &[u8]) -> Result<Answer, OutOfMemory>
    ensures { IfOk result (IsAnswer octets.now (Allows purpose.now)) }
{
    match extensions_of(alloc, octets)? {
        Some(extensions) => Ok(answer_of(allows(&extensions, purpose))),
        None => Ok(Answer::NotCertificate),
    }
}

/// Returns whether an item is a certificate that serves a host (RFC 9525, 6). Takes time and memory
/// linear in the item. The only error is out of memory.
pub fn item_serves(alloc: Global, octets: &[u8], host: &Host<'_>) -> Result<Answer, OutOfMemory>
    ensures { IfOk result (IsAnswer octets.now (Serves (host_view host.now))) }
{
    match extensions_of(alloc, octets)? {
        Some(extensions) => Ok(answer_of(serves(&extensions, host))),
        None => Ok(Answer::NotCertificate),
    }
}

/// Whether an item is no certificate, or one that meets the demands. It is read only if
/// something may be demanded of it.
pub(crate) fn is_permitted(
    alloc: Global,
    octets: &[u8],
    demands: &Demands<'_>,
) -> Result<bool, OutOfMemory>
    ensures { IfOk result (λ yes. IsTrue yes ↔ IsPermitted (demands_view demands.now) octets.now) }
{
    if is_met_by_any(demands, octets) {
        return Ok(true);
    }
    match extensions_of(alloc, octets)? {
        Some(extensions) => Ok(meets(demands, octets, &extensions)),
        None => Ok(true),
    }
}
