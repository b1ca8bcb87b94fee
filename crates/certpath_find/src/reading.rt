//! The reader of the search: items read by the typed readers of certificates and lists.

ghost use Rattle.std.specs.Prelude.{◌≡◌, List, IfOk};
ghost use Rattle.cert_model.specs.Class.{IsCertificateItem, IsClassOf};
ghost use Rattle.cert_model.specs.View.{certificate_view, time_view};
ghost use Rattle.cert_judge.specs.Classed.{AreClassed};
ghost use Rattle.cert_judge.specs.Items.{item_of};
ghost use Rattle.cert_judge.specs.JudgedItems.{AreJudged};
ghost use Rattle.cert_judge.specs.Revoking.{Item};

use crate::key_ids::{named_key_id, own_key_id};
use asn1_core::OutOfMemory;
use cert_framing::Items;
use cert_judge::{JudgedItem, ReadItem, ReadsItem};
use cert_model::ItemClass;
use cert_model::fields::CertFields;
use certpath_typed::read_typed;
use jiff::civil::DateTime;
use std::alloc::Global;

/// Reads items by `certpath_typed::read_typed`: the reader of `find` and `find_all`. The check of
/// an answer reads by another one, and shares no code with this that reads an item.
///
/// It costs time and memory linear in the item.
pub struct TypedReader;

fn certificate_item<'a>(alloc: Global, octets: &'a [u8], fields: CertFields<'a>) -> ReadItem<'a>
    requires { IsCertificateItem octets.now (certificate_view fields) }
    ensures octets { (item_of result).octets ≡ octets.now }
    ensures class { IsClassOf octets.now (item_of result).class }
{
    let named = named_key_id(&fields);
    let own = own_key_id(alloc, &fields);
    ReadItem::of_certificate(octets, fields, named, own)
}

impl ReadsItem for TypedReader {
    fn read_item<'a>(alloc: Global, octets: &'a [u8]) -> Result<ReadItem<'a>, OutOfMemory> {
        match read_typed(alloc, octets)? {
            ItemClass::Certificate(fields) => Ok(certificate_item(alloc, octets, fields)),
            ItemClass::List(fields) => Ok(ReadItem::of_list(octets, fields)),
            ItemClass::Other => Ok(ReadItem::Other(octets)),
        }
    }
}

/// Reads items by `TypedReader` and judges each by itself at a moment, as
/// `cert_judge::judged_items::<TypedReader>` does: for `find_judged` and `find_all_judged`. The
/// only error is out of memory.
pub fn judged_items<'a>(
    alloc: Global,
    items: &'a Items,
    moment: &DateTime,
) -> Result<Vec<JudgedItem<'a>>, OutOfMemory>
    ensures { IfOk result (λ judged. (classed : List Item) × AreClassed items.now.items classed × AreJudged (time_view moment.now) classed judged.items) }
{
    cert_judge::judged_items::<TypedReader>(alloc, items, moment)
}
