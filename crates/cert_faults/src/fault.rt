//! The first fault of an item that is other.

ghost use Rattle.std.specs.Prelude.{◌≡◌, ◌-◌, ℕ, length, drop, ◌≤◌, IfOk, IfSome, MatchOption};
ghost use Rattle.der_tree.specs.Tree.{octets};
ghost use Rattle.der_tree.specs.Shape.{IsObject};
ghost use Rattle.der_tree.specs.View.{view};
ghost use Rattle.cert_model.specs.Class.{IsClassOf, NoCertificate, NoList, other};
ghost use Rattle.cert_faults.specs.Fault.{stopped, IsFieldFault, IsItemFault, IsFound, IsFaultOf, IsFirstFault};

use crate::certificates::certificate_fault;
use crate::elements::first_broken;
use crate::lists::{list_fault, means_list};
use crate::places::{Expected, Field, Part};
use crate::steps::{Blame, Stop, left_after, unlike, whole};
use asn1_core::{Err as Refusal, Header, OutOfMemory};
use der_tree::{BerObject, MAX_RECURSION, parse_der_recursive};
use std::alloc::Global;

/// The first fault of an item: its place in the strict grammar, what that expects, and what is found.
#[derive(Clone, Copy, Debug)]
pub struct Fault {
    /// The field, `Field::Item` of a fault among the elements.
    pub field: Field,
    /// The part of the field.
    pub part: Part,
    /// What the grammar expects there.
    pub expected: Expected,
    /// The first octet of the element that fails, counted from the item's first. If an element is
    /// missing, it is the end of the element that has to hold it.
    pub offset: usize,
    /// The header of the element that fails, in any form of BER. `None` if an element is missing, or
    /// no header is there.
    pub found: Option<Header>,
}

/// How a walk ends: with no fault, with one, or out of memory.
fn stopped(walked: Result<(), Stop>) -> Result<Option<Blame>, OutOfMemory>
    ensures { result ≡ stopped walked }
{
    match walked {
        Ok(()) => Ok(None),
        Err(stop) => match stop {
            Stop::Fault(blame) => Ok(Some(blame)),
            Stop::OutOfMemory => Err(OutOfMemory),
        },
    }
}

/// The first fault of an object by its fields.
fn field_fault(
    alloc: Global,
    left: usize,
    object: &BerObject<'_>,
) -> Result<Option<Blame>, OutOfMemory>
    requires { IsObject 50 (view object.now) }
    ensures { IfOk result (λ found. MatchOption found (IsClassOf (octets (view object.now)) other → ⊥)
        (λ b. IsFieldFault left (view object.now) b × IsClassOf (octets (view object.now)) other)) }
{
    let Some(as_certificate) = stopped(certificate_fault(alloc, left, object))? else {
        return Ok(None);
    };
    let Some(as_list) = stopped(list_fault(alloc, left, object))? else {
        return Ok(None);
    };
    if means_list(object) {
        Ok(Some(as_list))
    } else {
        Ok(Some(as_certificate))
    }
}

/// The first fault of an item.
fn item_fault(alloc: Global, item: &[u8]) -> Result<Option<Blame>, OutOfMemory>
    ensures { IfOk result (λ found. MatchOption found (IsClassOf item.now other → ⊥) (λ b. IsItemFault item.now b × IsClassOf item.now other)) }
{
    let left = item.len();
    match parse_der_recursive(alloc, item, MAX_RECURSION) {
        Ok((rest, object)) => {
            if rest.is_empty() {
                field_fault(alloc, left, &object)
            } else {
                let left = left_after(&object, left);
                Ok(Some(unlike(whole(Field::Item), Expected::NothingMore, left)))
            }
        }
        Err(e) => match e {
            Refusal::Failure(_) => Err(OutOfMemory),
            _ => Ok(Some(first_broken(whole(Field::Item), item, left, MAX_RECURSION))),
        },
    }
}

/// What is found at a fault.
fn found_at(is_missing: bool, octets: &[u8]) -> Option<Header>
    ensures { IsFound is_missing octets.now result }
{
    if is_missing {
        return None;
    }
    match Header::from_ber(octets) {
        Ok((_, header)) => Some(header),
        Err(_) => None,
    }
}

/// The fault that a blame stands for.
fn fault_of(item: &[u8], blame: Blame) -> Fault
    ensures { IsFaultOf item.now blame result }
{
    let offset = item.len().saturating_sub(blame.left);
    Fault {
        field: blame.place.field,
        part: blame.place.part,
        expected: blame.expected,
        offset,
        found: found_at(blame.is_missing, &item[offset..]),
    }
}

/// Returns the first fault of an item, or `None` of a certificate or a revocation list.
///
/// An item that isn't one DER object of at most `MAX_RECURSION` levels has the fault of its first
/// element that X.690 doesn't allow. Any other item has the fault of its first field that RFC 5280
/// doesn't allow: as a list if a time is among the parts of its first part, else as a certificate.
///
/// # Errors
///
/// Out of memory alone.
///
/// # Cost
///
/// Time and memory linear in the item; for a fault of elements up to `MAX_RECURSION` times that.
pub fn first_fault(alloc: Global, item: &[u8]) -> Result<Option<Fault>, OutOfMemory>
    ensures exact { IfOk result (λ found. MatchOption found (IsClassOf item.now other → ⊥) (λ f. IsClassOf item.now other)) }
    ensures first { IfOk result (λ found. IfSome found (IsFirstFault item.now)) }
    ensures within { IfOk result (λ found. IfSome found (λ f. f.offset ≤ length item.now)) }
{
    match item_fault(alloc, item)? {
        None => Ok(None),
        Some(blame) => Ok(Some(fault_of(item, blame))),
    }
}
