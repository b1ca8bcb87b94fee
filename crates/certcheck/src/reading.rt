//! The reader of the check.

ghost use Rattle.std.specs.Prelude.{◌≡◌};
ghost use Rattle.cert_model.specs.Class.{IsCertificateItem, IsClassOf};
ghost use Rattle.cert_model.specs.View.{certificate_view};
ghost use Rattle.cert_judge.specs.Items.{item_of};

use crate::class::read_tree;
use asn1_core::OutOfMemory;
use cert_judge::{ReadItem, ReadsItem};
use cert_model::ItemClass;
use cert_model::fields::CertFields;
use std::alloc::Global;

/// Reads items by `read_tree`: the reader of `check`, `check_all` and `check_read`. A
/// search that is to be checked reads by another one.
///
/// It costs time and memory linear in the item.
pub struct TreeReader;

fn certificate_item<'a>(octets: &'a [u8], fields: CertFields<'a>) -> ReadItem<'a>
    requires { IsCertificateItem octets.now (certificate_view fields) }
    ensures octets { (item_of result).octets ≡ octets.now }
    ensures class { IsClassOf octets.now (item_of result).class }
{
    let authority_key_id = fields.authority_key_id();
    let subject_key_id = fields.subject_key_id();
    ReadItem::of_certificate(octets, fields, authority_key_id, subject_key_id)
}

impl ReadsItem for TreeReader {
    fn read_item<'a>(alloc: Global, octets: &'a [u8]) -> Result<ReadItem<'a>, OutOfMemory> {
        match read_tree(alloc, octets)? {
            ItemClass::Certificate(fields) => Ok(certificate_item(octets, fields)),
            ItemClass::List(fields) => Ok(ReadItem::of_list(octets, fields)),
            ItemClass::Other => Ok(ReadItem::Other(octets)),
        }
    }
}
