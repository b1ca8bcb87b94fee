//! The class of an item, with a count of headers that is dropped. The other sources of this crate
//! make no count, and call no reader that keeps none.

ghost use Rattle.std.specs.Prelude.{IfOk};
ghost use Rattle.cert_model.specs.Class.{IsClassOf};
ghost use Rattle.cert_model.specs.ClassView.{class_view};

use crate::class::read_typed_counted;
use asn1_core::{HeaderCount, OutOfMemory};
use cert_model::ItemClass;
use std::alloc::Global;

/// Reads an item by the lenient readers of certificates and lists, and returns its class: a
/// certificate or a revocation list if it is an item under the greatest limit, a DER object of at
/// most 50 levels, and exactly the octets that fields in range write (RFC 5280, 4.1 and 5.1); other
/// octets are `Other`, and no error.
///
/// The only error is out of memory. It costs time and memory linear in the item.
pub fn read_typed<'a>(alloc: Global, item: &'a [u8]) -> Result<ItemClass<'a>, OutOfMemory>
    ensures class { IfOk result (λ class. IsClassOf item.now (class_view class)) }
{
    let mut count = HeaderCount::new();
    read_typed_counted(alloc, item, &mut count)
}
