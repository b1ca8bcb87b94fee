//! What items show of names and keys: the name under which an item was issued, and the name and key
//! of a certificate (RFC 5280, 4.1.2.4, 4.1.2.6 and 4.1.2.7). Of each item no more is kept.

ghost use Rattle.std.specs.Prelude.{◌≡◌, ℕ, List, IfOk};
ghost use Rattle.cert_model.specs.Class.{IsClassOf};
ghost use Rattle.cert_judge.specs.Classed.{AreClassed};
ghost use Rattle.cert_judge.specs.Items.{item_of};
ghost use Rattle.cert_judge.specs.Revoking.{Item};
ghost use Rattle.cert_questions.specs.Places.{IsShownOf, AreShown};

use asn1_core::OutOfMemory;
use cert_framing::Items;
use cert_graph::Place;
use cert_judge::{ReadItem, ReadsItem};
use certcheck::TreeReader;
use std::alloc::Global;

/// What an item shows: the name under which it was issued, and what it shows as a key holder.
#[derive(Clone, Copy, Debug)]
pub(crate) struct Shown<'a> {
    pub issuer: Option<&'a [u8]>,
    pub holder: Place<'a>,
}

/// What an item shows, by its class.
fn shown_of<'a>(item: &ReadItem<'a>) -> Shown<'a>
    ensures { IsShownOf (item_of item.now).class result }
{
    match item {
        ReadItem::Certificate(certificate) => Shown {
            issuer: Some(certificate.issuer),
            holder: Place {
                name: Some(certificate.subject),
                key: Some(certificate.key),
                id: None,
            },
        },
        ReadItem::List(list) => Shown {
            issuer: Some(list.issuer),
            holder: Place {
                name: None,
                key: None,
                id: None,
            },
        },
        ReadItem::Other(_) => Shown {
            issuer: None,
            holder: Place {
                name: None,
                key: None,
                id: None,
            },
        },
    }
}

fn item_shown<'a>(alloc: Global, octets: &'a [u8]) -> Result<Shown<'a>, OutOfMemory>
    ensures { IfOk result (λ shown. (x : Item) × (x.octets ≡ octets.now) × IsClassOf octets.now x.class × IsShownOf x.class shown) }
{
    let item = TreeReader::read_item(alloc, octets)?;
    Ok(shown_of(&item))
}

/// What items show, in their order.
pub(crate) fn all_shown<'a>(alloc: Global, items: &'a Items) -> Result<Vec<Shown<'a>>, OutOfMemory>
    ensures { IfOk result (λ shown. (classed : List Item) × AreClassed items.now.items classed × AreShown classed shown.items) }
{
    let mut all = Vec::with_capacity(alloc, items.len())?;
    for place in 0..items.len() {
        let one = item_shown(alloc, items.get(place))?;
        all.push(one)?;
    }
    Ok(all)
}
