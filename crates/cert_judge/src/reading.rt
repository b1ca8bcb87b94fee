//! Items, each read once by a reader, and judged.
//!
//! A reader is a type, `R: ReadsItem`. There are two, and they share no code that reads an item:
//! `certcheck` has `TreeReader`, `certpath_find` has `TypedReader`.

ghost use Rattle.std.specs.Prelude.{◌≡◌, List, map, option_map, IfOk};
ghost use Rattle.cert_model.specs.Class.{IsCertificateItem, IsListItem, IsClassOf};
ghost use Rattle.cert_model.specs.View.{certificate_view, list_view, time_view};
ghost use Rattle.cert_judge.specs.Classed.{AreClassed};
ghost use Rattle.cert_judge.specs.Items.{item_of};
ghost use Rattle.cert_judge.specs.JudgedItems.{IsJudged, AreJudged};
ghost use Rattle.cert_judge.specs.Named.{NamesKeyId, HasKeyId};
ghost use Rattle.cert_judge.specs.Revoking.{Item};

use crate::items::{CertificateItem, ListItem, ReadItem};
use crate::judged::{JudgedItem, judge_item};
use asn1_core::OutOfMemory;
use cert_model::Items;
use cert_model::fields::{CertFields, ListFields};
use jiff::civil::DateTime;
use std::alloc::Global;

impl<'a> ReadItem<'a> {
    /// The certificate that these fields write, with the key identifiers that it names, as
    /// `CertificateItem::new` takes them.
    pub fn of_certificate(
        octets: &'a [u8],
        fields: CertFields<'a>,
        authority_key_id: Option<&'a [u8]>,
        subject_key_id: Option<&'a [u8]>,
    ) -> ReadItem<'a>
        requires strict { IsCertificateItem octets.now (certificate_view fields) }
        requires named { NamesKeyId (certificate_view fields) (option_map (λ s. s.now) authority_key_id) }
        requires own { HasKeyId (certificate_view fields) (option_map (λ s. s.now) subject_key_id) }
        ensures octets { (item_of result).octets ≡ octets.now }
        ensures class { IsClassOf octets.now (item_of result).class }
    {
        ReadItem::Certificate(CertificateItem::new(
            octets,
            fields,
            authority_key_id,
            subject_key_id,
        ))
    }

    /// The revocation list that these fields write.
    pub fn of_list(octets: &'a [u8], fields: ListFields<'a>) -> ReadItem<'a>
        requires { IsListItem octets.now (list_view fields) }
        ensures octets { (item_of result).octets ≡ octets.now }
        ensures class { IsClassOf octets.now (item_of result).class }
    {
        ReadItem::List(ListItem::new(octets, fields))
    }
}

/// How an item is read.
pub trait ReadsItem {
    /// Reads an item: its class, with its fields, and the key identifiers of a certificate
    /// (RFC 5280, 4.1, 5.1, 4.2.1.1 and 4.2.1.2). It looks at all of the octets.
    ///
    /// # Errors
    ///
    /// Out of memory. Octets that are neither a certificate nor a revocation list in their one
    /// spelling are no error, but `ReadItem::Other`.
    fn read_item<'a>(alloc: Global, octets: &'a [u8]) -> Result<ReadItem<'a>, OutOfMemory>
        ensures { IfOk result (λ item. ((item_of item).octets ≡ octets.now) × IsClassOf octets.now (item_of item).class) };
}

/// Reads items, and returns them in their order, each with its class and fields: what reasons are
/// given on, and what `certcheck::check_read` checks an answer on.
///
/// The only error is out of memory. It costs `R::read_item` on each item once, and keeps the fields
/// of all of them; `judged_items` keeps less.
pub fn read_items<'a, R: ReadsItem>(
    alloc: Global,
    items: &'a Items,
) -> Result<Vec<ReadItem<'a>>, OutOfMemory>
    ensures { IfOk result (λ read. AreClassed items.now.items (map item_of read.items)) }
{
    let mut read = Vec::with_capacity(alloc, items.len())?;
    for place in 0..items.len() {
        let item = R::read_item(alloc, items.get(place))?;
        read.push(item)?;
    }
    Ok(read)
}

/// Reads an item and judges it at a moment.
fn judged_item<'a, R: ReadsItem>(
    alloc: Global,
    octets: &'a [u8],
    moment: &DateTime,
) -> Result<JudgedItem<'a>, OutOfMemory>
    ensures { IfOk result (λ judged. (x : Item) × (x.octets ≡ octets.now) × IsClassOf octets.now x.class × IsJudged (time_view moment.now) x judged) }
{
    let item = R::read_item(alloc, octets)?;
    let judged = judge_item(alloc, &item, moment)?;
    Ok(judged)
}

/// Reads items and judges each by itself at a moment (RFC 5280, 6.1.3, 6.1.4 and 6.3), in their
/// order: what `nodes_by` builds a graph from.
///
/// The only error is out of memory. It costs `R::read_item` on each item once. Of what was read no
/// more is kept than `nodes_by` asks for: windows of the items, and the serial numbers of lists.
pub fn judged_items<'a, R: ReadsItem>(
    alloc: Global,
    items: &'a Items,
    moment: &DateTime,
) -> Result<Vec<JudgedItem<'a>>, OutOfMemory>
    ensures { IfOk result (λ judged. (classed : List Item) × AreClassed items.now.items classed × AreJudged (time_view moment.now) classed judged.items) }
{
    let mut judged = Vec::with_capacity(alloc, items.len())?;
    for place in 0..items.len() {
        let item = judged_item::<R>(alloc, items.get(place), moment)?;
        judged.push(item)?;
    }
    Ok(judged)
}
