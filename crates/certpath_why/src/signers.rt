//! Which certificates have an item's issuer as their subject and a key that vouches for the item:
//! for all items at once. A key and an item without a voucher cost nothing, and equal items and
//! equal keys are asked about once, and kept once.

ghost use Rattle.std.specs.Prelude.{◌≡◌, ◌↔◌, ◌⊎◌, ◌<◌, ℕ, Some, length, map, IfOk, IsTrue};
ghost use Rattle.cert_graph.specs.Entries.{IsAt};
ghost use Rattle.cert_judge.specs.Items.{item_of};
ghost use Rattle.cert_judge.specs.declared.items.ReadItem.{ReadItem};
ghost use Rattle.certpath_why.specs.Classes.{number_at};
ghost use Rattle.certpath_why.specs.Held.{AreSearchFirsts};
ghost use Rattle.certpath_why.specs.Question.{items_in, anchors_in, IsSigned};
ghost use Rattle.certpath_why.specs.Reached.{ArePositions};
ghost use Rattle.certpath_why.specs.Sides.{others_of, IsSide};
ghost use Rattle.certpath_why.specs.Signers.{AreOfIssuer, AreSignedBy, AreSignedFirsts, IsSignedBy, SignsAny, issued_place, issuer_name, member_place};

use crate::classes::{Classes, classes_of, numbers_at};
use crate::demanded::octets_of;
use crate::directory::Directory;
use crate::firsts::firsts_of;
use crate::holders::{Holders, holders_of};
use crate::question::Question;
use crate::side::Side;
use cert_graph::Place;
use cert_judge::{ReadItem, Vouch};
use std::alloc::{AllocError, Global};

/// The signers of items: the certificates that have an item's issuer's name and a key that vouches
/// for it.
#[derive(Drop)]
pub(crate) struct Signers<'a> {
    /// The items by their octets.
    pub(crate) classes: Classes<'a>,
    /// The certificates among the items.
    pub(crate) issuers: Holders<'a>,
    /// Those among the anchors.
    pub(crate) roots: Holders<'a>,
    /// For each number of octets the first for which the keys of the same issuers vouch.
    pub(crate) issuer_firsts: Vec<usize>,
    /// Those of the same anchors.
    pub(crate) root_firsts: Vec<usize>,
}

/// Returns the place of an item by its issuer, if it is a certificate or a list.
fn issued_place<'a>(item: &ReadItem<'a>) -> Place<'a>
    ensures { result ≡ issued_place item.now }
{
    let name = match item {
        ReadItem::Certificate(certificate) => Some(certificate.issuer),
        ReadItem::List(list) => Some(list.issuer),
        ReadItem::Other(_) => None,
    };
    Place {
        name,
        key: None,
        id: None,
    }
}

/// Returns the place of an item by its subject and key, if it is a certificate.
fn member_place<'a>(item: &ReadItem<'a>) -> Place<'a>
    ensures { result ≡ member_place item.now }
{
    match item {
        ReadItem::Certificate(certificate) => Place {
            name: Some(certificate.subject),
            key: Some(certificate.key),
            id: None,
        },
        _ => Place {
            name: None,
            key: None,
            id: None,
        },
    }
}

/// The items by their issuers.
fn issued_places<'a>(alloc: Global, items: &[ReadItem<'a>]) -> Result<Vec<Place<'a>>, AllocError>
    ensures { IfOk result (λ places. places.items ≡ map issued_place items.now) }
{
    let mut places = Vec::with_capacity(alloc, items.len())?;
    for item in items {
        places.push(issued_place(item))?;
    }
    Ok(places)
}

/// The certificates by their subjects and keys.
fn member_places<'a>(alloc: Global, items: &[ReadItem<'a>]) -> Result<Vec<Place<'a>>, AllocError>
    ensures { IfOk result (λ places. places.items ≡ map member_place items.now) }
{
    let mut places = Vec::with_capacity(alloc, items.len())?;
    for item in items {
        places.push(member_place(item))?;
    }
    Ok(places)
}

/// The octets of items.
fn octets_of_all<'a>(alloc: Global, items: &[ReadItem<'a>]) -> Result<Vec<&'a [u8]>, AllocError>
    ensures { IfOk result (λ octets. map (λ o. o.now) octets.items ≡ map (λ x. (item_of x).octets) items.now) }
{
    let mut octets = Vec::with_capacity(alloc, items.len())?;
    for item in items {
        octets.push(octets_of(item))?;
    }
    Ok(octets)
}

impl<'a> Signers<'a> {
    /// The signers of all items, among the items and among the anchors. The voucher is asked twice
    /// for each name, with each key of the name and the octets of each of its items once.
    pub(crate) fn new<V: Vouch>(
        alloc: Global,
        items: &[ReadItem<'a>],
        anchors: &[ReadItem<'a>],
        vouch: &V,
    ) -> Result<Signers<'a>, AllocError>
        ensures issuers { IfOk result (λ s. AreSignedBy (V.vouches_for vouch.now).Vouches items.now items.now s.classes s.issuers) }
        ensures roots { IfOk result (λ s. AreSignedBy (V.vouches_for vouch.now).Vouches items.now anchors.now s.classes s.roots) }
        ensures issuer_firsts { IfOk result (λ s. AreSignedFirsts (V.vouches_for vouch.now).Vouches items.now items.now s.classes s.issuer_firsts.items) }
        ensures root_firsts { IfOk result (λ s. AreSignedFirsts (V.vouches_for vouch.now).Vouches items.now anchors.now s.classes s.root_firsts.items) }
    {
        let octets = octets_of_all(alloc, items)?;
        let classes = classes_of(alloc, &octets)?;
        let issued = issued_places(alloc, items)?;
        let directory = Directory::new(alloc, &issued)?;
        let members = member_places(alloc, items)?;
        let issuers = holders_of(alloc, &directory, &classes, &members, vouch)?;
        let members = member_places(alloc, anchors)?;
        let roots = holders_of(alloc, &directory, &classes, &members, vouch)?;
        let issuer_firsts = firsts_of(alloc, &issuers.rows)?;
        let root_firsts = firsts_of(alloc, &roots.rows)?;
        Ok(Signers {
            classes,
            issuers,
            roots,
            issuer_firsts,
            root_firsts,
        })
    }
}

/// For each number of octets the first for which the keys of the same certificates vouch by another
/// voucher. It is asked once for each name, with each key of the name and the octets of each of its
/// items once.
pub(crate) fn firsts_by<V: Vouch, S: Vouch>(
    alloc: Global,
    question: &Question<'_, '_, V>,
    search: &S,
) -> Result<Vec<usize>, AllocError>
    requires { IsSigned V.Vouch question.now }
    ensures { IfOk result (λ firsts. AreSearchFirsts question.now (S.vouches_for search.now) firsts.items) }
{
    let items = question.found.items;
    let issued = issued_places(alloc, items)?;
    let directory = Directory::new(alloc, &issued)?;
    let members = member_places(alloc, items)?;
    let classes = &question.signers.classes;
    let issuers = holders_of(alloc, &directory, classes, &members, search)?;
    let firsts = firsts_of(alloc, &issuers.rows)?;
    Ok(firsts)
}

/// The certificates that signed the item at a position, whose issuer's name is given: a step for
/// each, and one for each key.
pub(crate) fn issuers_at<V: Vouch>(
    alloc: Global,
    question: &Question<'_, '_, V>,
    place: usize,
    name: &[u8],
) -> Result<Vec<usize>, AllocError>
    requires signed { IsSigned V.Vouch question.now }
    requires place { place < length question.now.found.now.items.now }
    ensures { (z : ReadItem) → IsAt question.now.found.now.items.now place (λ x. x ≡ z) → issuer_name (item_of z).class ≡ Some name.now
        → IfOk result (λ found. ArePositions (IsSignedBy (V.vouches_for question.now.vouch.now).Vouches (items_in question.now) (item_of z)) found.items) }
{
    let number = question.signers.classes.number(place);
    let found = question.signers.issuers.positions(alloc, number, name)?;
    Ok(found)
}

/// The certificates of a name that signed the item at a position, whose issuer has the name.
pub(crate) fn signers_at<V: Vouch>(
    alloc: Global,
    question: &Question<'_, '_, V>,
    side: &Side<'_, '_>,
    place: usize,
) -> Result<Vec<usize>, AllocError>
    requires side { IsSide V.Vouch question.now side.now }
    requires place { place < length question.now.found.now.items.now }
    ensures { (z : ReadItem) → IsAt question.now.found.now.items.now place (λ x. x ≡ z) → issuer_name (item_of z).class ≡ Some side.now.name.now
        → IfOk result (λ found. ArePositions (IsSignedBy (V.vouches_for question.now.vouch.now).Vouches (others_of side.now) (item_of z)) found.items) }
{
    let number = question.signers.classes.number(place);
    let found = side.holders.positions(alloc, number, side.name)?;
    Ok(found)
}

/// The certificates of a name that signed one of some items, whose issuer has the name. It costs a
/// step for each certificate, and one for each key and item that it vouches for. Equal keys and
/// equal items count once.
pub(crate) fn signers_of_any<V: Vouch>(
    alloc: Global,
    question: &Question<'_, '_, V>,
    side: &Side<'_, '_>,
    places: &[usize],
) -> Result<Vec<usize>, AllocError>
    requires side { IsSide V.Vouch question.now side.now }
    requires places { AreOfIssuer question.now.found.now.items.now side.now.name.now places.now }
    ensures { IfOk result (λ found. ArePositions (SignsAny (V.vouches_for question.now.vouch.now).Vouches question.now.found.now.items.now (others_of side.now) places.now) found.items) }
{
    let numbers = numbers_at(alloc, &question.signers.classes.numbers, places)?;
    let found = side.holders.positions_of_any(alloc, &numbers, side.name)?;
    Ok(found)
}

/// The number that the item at a position has in common with those for which the keys of the same
/// certificates vouch.
pub(crate) fn issuers_number<V: Vouch>(question: &Question<'_, '_, V>, place: usize) -> usize
    requires signed { IsSigned V.Vouch question.now }
    requires place { place < length question.now.found.now.items.now }
    ensures { result ≡ number_at question.now.signers.now.classes question.now.signers.now.issuer_firsts.items place }
{
    let signers = question.signers;
    signers.classes.number_by(&signers.issuer_firsts, place)
}

/// Likewise with those for which the keys of the same anchors do.
pub(crate) fn roots_number<V: Vouch>(question: &Question<'_, '_, V>, place: usize) -> usize
    requires signed { IsSigned V.Vouch question.now }
    requires place { place < length question.now.found.now.items.now }
    ensures { result ≡ number_at question.now.signers.now.classes question.now.signers.now.root_firsts.items place }
{
    let signers = question.signers;
    signers.classes.number_by(&signers.root_firsts, place)
}

/// Likewise with those that the same certificates of a side signed.
pub(crate) fn signers_number<V: Vouch>(
    question: &Question<'_, '_, V>,
    side: &Side<'_, '_>,
    place: usize,
) -> usize
    requires side { IsSide V.Vouch question.now side.now }
    requires place { place < length question.now.found.now.items.now }
    ensures { result ≡ number_at question.now.signers.now.classes side.now.firsts.now place }
{
    question.signers.classes.number_by(side.firsts, place)
}

fn is_either(one: bool, other: bool) -> bool
    ensures { IsTrue result ↔ (IsTrue one ⊎ IsTrue other) }
{
    one || other
}

/// Whether a certificate or an anchor signed the item at a position, whose issuer's name is given:
/// a step for each key, up to the first.
pub(crate) fn is_signed_at<V: Vouch>(
    question: &Question<'_, '_, V>,
    place: usize,
    name: &[u8],
) -> bool
    requires signed { IsSigned V.Vouch question.now }
    requires place { place < length question.now.found.now.items.now }
    ensures { (z : ReadItem) → IsAt question.now.found.now.items.now place (λ x. x ≡ z) → issuer_name (item_of z).class ≡ Some name.now
        → IsTrue result ↔ ((w : ℕ) × (IsSignedBy (V.vouches_for question.now.vouch.now).Vouches (items_in question.now) (item_of z) w
        ⊎ IsSignedBy (V.vouches_for question.now.vouch.now).Vouches (anchors_in question.now) (item_of z) w)) }
{
    let number = question.signers.classes.number(place);
    let by_issuer = question.signers.issuers.has_position(number, name);
    let by_root = question.signers.roots.has_position(number, name);
    is_either(by_issuer, by_root)
}
