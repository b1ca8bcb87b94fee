//! What an item is, by the lenient readers: the gate, the reading, the range and the comparison, in
//! this order, of a certificate and then of a list. Headers are counted on the way.

ghost use Rattle.std.specs.Prelude.{◌≡◌, ◌↔◌, ◌+◌, ◌*◌, ◌^◌, ◌<◌, ◌≤◌, ℕ, length, IfOk, IfSome, MatchOption, IsTrue};
ghost use Rattle.asn1_core.specs.Counts.{attempts};
ghost use Rattle.der_tree.specs.Object.{IsDerObject};
ghost use Rattle.cert_model.specs.Class.{IsCertificateItem, IsListItem, IsClassOf};
ghost use Rattle.cert_model.specs.Fields.{Certificate, RevocationList};
ghost use Rattle.cert_model.specs.View.{certificate_view, list_view};
ghost use Rattle.cert_model.specs.ClassView.{class_view};
ghost use Rattle.certpath_typed.specs.Tried.{HasTried, TriesTree};

use crate::certificates::certificate_fields;
use crate::lists::list_fields;
use crate::read::{certificate_read, list_read};
use crate::written::{is_written_certificate, is_written_list};
use asn1_core::{HeaderCount, OutOfMemory};
use cert_model::ItemClass;
use cert_model::fields::{CertFields, ListFields};
use der_tree::{MAX_RECURSION, is_der_object_counted};
use std::alloc::Global;

/// `read_typed`, which raises a count by each header that it tries (X.690, 8.1): at most 17 for
/// each octet, so none for no octets, and at least one for each element of the item's tree and 17
/// more if it is a certificate, nine more if it is a list.
///
/// The only error is out of memory. The count keeps to these bounds then too, and never falls.
pub fn read_typed_counted<'a>(
    alloc: Global,
    item: &'a [u8],
    count: &mut HeaderCount,
) -> Result<ItemClass<'a>, OutOfMemory>
    requires { attempts count.old + 17 * length item.now < 2 ^ 128 }
    ensures class { IfOk result (λ class. IsClassOf item.now (class_view class)) }
    ensures least { IfOk result (λ class. HasTried item.now (class_view class) (attempts count.old) (attempts count.new)) }
    ensures grows { attempts count.old ≤ attempts count.new }
    ensures most { attempts count.new ≤ attempts count.old + 17 * length item.now }
{
    if !is_object(item, count) {
        return Ok(ItemClass::Other);
    }
    if let Some(fields) = certificate_of(alloc, item, count)? {
        return Ok(ItemClass::Certificate(fields));
    }
    if let Some(fields) = list_of(alloc, item, count)? {
        return Ok(ItemClass::List(fields));
    }
    Ok(ItemClass::Other)
}

/// Returns whether the item is one DER object of at most `MAX_RECURSION` levels. It takes no
/// memory.
#[tactic(auto, using(crate::proofs::Gate::each_tried))]
fn is_object(item: &[u8], count: &mut HeaderCount) -> bool
    requires { attempts count.old + length item.now < 2 ^ 128 }
    ensures object { IsTrue result ↔ IsDerObject 50 item.now }
    ensures each { IsTrue result → TriesTree item.now (attempts count.old) (attempts count.new) }
    ensures grows { attempts count.old ≤ attempts count.new }
    ensures most { attempts count.new ≤ attempts count.old + length item.now }
{
    is_der_object_counted(item, MAX_RECURSION, count)
}

/// Returns the fields of the item, if it is a certificate.
fn certificate_of<'a>(
    alloc: Global,
    item: &'a [u8],
    count: &mut HeaderCount,
) -> Result<Option<CertFields<'a>>, OutOfMemory>
    requires room { attempts count.old + 8 * length item.now < 2 ^ 128 }
    requires object { IsDerObject 50 item.now }
    ensures class { IfOk result (λ o. MatchOption o ((c : Certificate) → ¬ IsCertificateItem item.now c)
        (λ f. IsCertificateItem item.now (certificate_view f))) }
    ensures least { IfOk result (λ o. IfSome o (λ _. attempts count.old + 17 ≤ attempts count.new)) }
    ensures grows { attempts count.old ≤ attempts count.new }
    ensures most { attempts count.new ≤ attempts count.old + 8 * length item.now }
{
    let Some(certificate) = certificate_read(alloc, item, count)? else {
        return Ok(None);
    };
    let fields = certificate_fields(alloc, item, &certificate)?;
    if !fields.in_range() {
        return Ok(None);
    }
    if !is_written_certificate(&fields, item) {
        return Ok(None);
    }
    Ok(Some(fields))
}

/// Returns the fields of the item, if it is a revocation list.
fn list_of<'a>(
    alloc: Global,
    item: &'a [u8],
    count: &mut HeaderCount,
) -> Result<Option<ListFields<'a>>, OutOfMemory>
    requires room { attempts count.old + 8 * length item.now < 2 ^ 128 }
    requires object { IsDerObject 50 item.now }
    ensures class { IfOk result (λ o. MatchOption o ((l : RevocationList) → ¬ IsListItem item.now l)
        (λ f. IsListItem item.now (list_view f))) }
    ensures least { IfOk result (λ o. IfSome o (λ _. attempts count.old + 9 ≤ attempts count.new)) }
    ensures grows { attempts count.old ≤ attempts count.new }
    ensures most { attempts count.new ≤ attempts count.old + 8 * length item.now }
{
    let Some(list) = list_read(alloc, item, count)? else {
        return Ok(None);
    };
    let fields = list_fields(alloc, item, &list)?;
    if !fields.in_range() {
        return Ok(None);
    }
    if !is_written_list(&fields, item) {
        return Ok(None);
    }
    Ok(Some(fields))
}
