//! What an item is, read off its strict elements (X.690, 8, 10 and 11).

ghost use Rattle.std.specs.Prelude.{◌≡◌, ℕ, IfOk};
ghost use Rattle.der_tree.specs.Tree.{octets};
ghost use Rattle.der_tree.specs.Shape.{IsObject};
ghost use Rattle.cert_model.specs.Class.{IsClassOf};
ghost use Rattle.cert_model.specs.ClassView.{class_view};
ghost use Rattle.cert_model.specs.View.{any_view};
ghost use Rattle.certcheck.specs.Windows.{tree_of};

use crate::certificate::certificate_of;
use crate::list::list_of;
use crate::stop::settled;
use crate::windows::first_of;
use asn1_core::OutOfMemory;
use cert_model::ItemClass;
use cert_model::fields::AnyField;
use der_tree::{MAX_RECURSION, is_der_object};
use std::alloc::Global;

/// Reads an item, and returns its class: a certificate or a revocation list if it is an item
/// under the greatest limit, a DER object of at most `MAX_RECURSION` levels, and exactly the octets that
/// fields in range write (RFC 5280, 4.1 and 5.1); other octets are `Other`, and no error.
///
/// The only error is out of memory. It costs time linear in the item, whose elements are read twice,
/// first to see that they are DER; memory goes into the fields alone.
pub fn read_tree<'a>(alloc: Global, item: &'a [u8]) -> Result<ItemClass<'a>, OutOfMemory>
    ensures class { IfOk result (λ class. IsClassOf item.now (class_view class)) }
{
    if !is_der_object(item, MAX_RECURSION) {
        return Ok(ItemClass::Other);
    }
    match first_of(item) {
        Some((object, _)) => class_of(alloc, &object),
        None => Ok(ItemClass::Other),
    }
}

/// The class of the octets of an object.
fn class_of<'a>(alloc: Global, object: &AnyField<'a>) -> Result<ItemClass<'a>, OutOfMemory>
    requires { IsObject 50 (tree_of (any_view object.now)) }
    ensures { IfOk result (λ class. IsClassOf (octets (tree_of (any_view object.now))) (class_view class)) }
{
    if let Some(fields) = settled(certificate_of(alloc, object))? {
        return Ok(ItemClass::Certificate(fields));
    }
    if let Some(fields) = settled(list_of(alloc, object))? {
        return Ok(ItemClass::List(fields));
    }
    Ok(ItemClass::Other)
}
