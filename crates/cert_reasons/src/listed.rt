//! The lists of an issuer that are in force, and those of them that have an entry of a serial number
//! (RFC 5280, 5 and 6.3.3).

ghost use Rattle.std.specs.Prelude.{◌≡◌, ◌↔◌, ◌<◌, ℕ, Any, Contains, IsTrue, IfOk};
ghost use Rattle.std.specs.List.Sorted.{IsStrictlyIncreasing};
ghost use Rattle.cert_graph.specs.Entries.{IsAt};
ghost use Rattle.cert_judge.specs.Items.{IsListWith};
ghost use Rattle.cert_reasons.specs.Listed.{ArePlaces, IsOf, IsInForce, IsInForceAt, HasSerial, HasSerialAt, IsVouched, IsVouchedAt, AreListed};

use cert_judge::{ListItem, ReadItem, Vouch, has_entry, is_in_force};
use jiff::civil::DateTime;
use std::alloc::{AllocError, Global};

/// Places that are kept here, or were lent.
#[derive(Drop)]
pub(crate) enum Places<'b> {
    Own(Vec<usize>),
    Lent(&'b [usize]),
}

impl Places<'_> {
    ghost use Rattle.cert_reasons.specs.Listed.{places_in};

    pub(crate) fn as_slice(&self) -> &[usize]
        ensures { result.now ≡ places_in self.now }
    {
        match self {
            Places::Own(places) => places.as_slice(),
            Places::Lent(places) => places,
        }
    }
}

/// Places of lists of one issuer that are in force, in ascending order.
#[derive(Drop)]
pub(crate) struct Listed<'b> {
    pub(crate) in_force: Places<'b>,
    /// Of these, the lists that have an entry of a serial number.
    pub(crate) revoking: Vec<usize>,
}

fn is_list_in_force(list: &ListItem<'_>, moment: &DateTime, name: &[u8]) -> bool
    ensures { IsTrue result ↔ IsInForce moment.now name.now list.now }
{
    if list.issuer != name {
        return false;
    }
    is_in_force(&list.fields, moment)
}

fn is_item_in_force(item: &ReadItem<'_>, moment: &DateTime, name: &[u8]) -> bool
    ensures { IsTrue result ↔ IsListWith (IsInForce moment.now name.now) item.now }
{
    match item {
        ReadItem::List(list) => is_list_in_force(list, moment, name),
        _ => false,
    }
}

fn is_in_force_at(items: &[ReadItem<'_>], place: usize, moment: &DateTime, name: &[u8]) -> bool
    ensures { IsTrue result ↔ IsInForceAt items.now moment.now name.now place }
{
    match items.get(place) {
        Some(item) => is_item_in_force(item, moment, name),
        None => false,
    }
}

fn has_serial(item: &ReadItem<'_>, serial: &[u8]) -> bool
    ensures { IsTrue result ↔ IsListWith (HasSerial serial.now) item.now }
{
    match item {
        ReadItem::List(list) => has_entry(&list.fields.entries, serial),
        _ => false,
    }
}

fn has_serial_at(items: &[ReadItem<'_>], place: usize, serial: &[u8]) -> bool
    ensures { IsTrue result ↔ HasSerialAt items.now serial.now place }
{
    match items.get(place) {
        Some(item) => has_serial(item, serial),
        None => false,
    }
}

fn is_vouched<V: Vouch>(item: &ReadItem<'_>, vouch: &V, key: &[u8]) -> bool
    ensures { IsTrue result ↔ IsListWith (IsVouched (V.vouches_for vouch.now) key.now) item.now }
{
    match item {
        ReadItem::List(list) => vouch.vouches(key, list.octets),
        _ => false,
    }
}

fn is_vouched_at<V: Vouch>(items: &[ReadItem<'_>], place: usize, vouch: &V, key: &[u8]) -> bool
    ensures { IsTrue result ↔ IsVouchedAt (V.vouches_for vouch.now) items.now key.now place }
{
    match items.get(place) {
        Some(item) => is_vouched(item, vouch, key),
        None => false,
    }
}

/// Of places among which are those of the lists of an issuer, the lists of it that are in force.
pub(crate) fn in_force_among(
    alloc: Global,
    items: &[ReadItem<'_>],
    places: &[usize],
    moment: &DateTime,
    name: &[u8],
) -> Result<Vec<usize>, AllocError>
    requires ascends { IsStrictlyIncreasing places.now }
    requires complete { (p : ℕ) → IsAt items.now p (IsListWith (IsOf name.now)) → Contains places.now p }
    ensures { IfOk result (λ found. ArePlaces (IsInForceAt items.now moment.now name.now) found.items) }
{
    let mut found = Vec::new(alloc);
    for place in places {
        if is_in_force_at(items, *place, moment, name) {
            found.push(*place)?;
        }
    }
    Ok(found)
}

/// Of some lists, those that have an entry of a serial number.
fn with_serial(
    alloc: Global,
    items: &[ReadItem<'_>],
    lists: &[usize],
    serial: &[u8],
) -> Result<Vec<usize>, AllocError>
    requires { IsStrictlyIncreasing lists.now }
    ensures { IfOk result (λ found. ArePlaces (λ p. Contains lists.now p × HasSerialAt items.now serial.now p) found.items) }
{
    let mut found = Vec::new(alloc);
    for place in lists {
        if has_serial_at(items, *place, serial) {
            found.push(*place)?;
        }
    }
    Ok(found)
}

/// Of some lists, those that a key vouches for.
pub(crate) fn vouched_among<V: Vouch>(
    alloc: Global,
    items: &[ReadItem<'_>],
    lists: &[usize],
    vouch: &V,
    key: &[u8],
) -> Result<Vec<usize>, AllocError>
    requires { IsStrictlyIncreasing lists.now }
    ensures { IfOk result (λ found. ArePlaces (λ p. Contains lists.now p × IsVouchedAt (V.vouches_for vouch.now) items.now key.now p) found.items) }
{
    let mut found = Vec::new(alloc);
    for place in lists {
        if is_vouched_at(items, *place, vouch, key) {
            found.push(*place)?;
        }
    }
    Ok(found)
}

/// Whether a key vouches for one of some lists.
pub(crate) fn has_vouched<V: Vouch>(
    items: &[ReadItem<'_>],
    lists: &[usize],
    vouch: &V,
    key: &[u8],
) -> bool
    ensures { IsTrue result ↔ Any (IsVouchedAt (V.vouches_for vouch.now) items.now key.now) lists.now }
{
    for place in lists {
        if is_vouched_at(items, *place, vouch, key) {
            return true;
        }
    }
    false
}

/// The lists of an issuer that are in force and revoke a serial number, of places among which are
/// those of its lists. Costs one pass over the entries of its lists.
pub(crate) fn listed_among(
    alloc: Global,
    items: &[ReadItem<'_>],
    places: &[usize],
    moment: &DateTime,
    name: &[u8],
    serial: &[u8],
) -> Result<Listed<'static>, AllocError>
    requires ascends { IsStrictlyIncreasing places.now }
    requires complete { (p : ℕ) → IsAt items.now p (IsListWith (IsOf name.now)) → Contains places.now p }
    ensures { IfOk result (AreListed items.now moment.now name.now serial.now) }
{
    let in_force = in_force_among(alloc, items, places, moment, name)?;
    let revoking = with_serial(alloc, items, &in_force, serial)?;
    Ok(Listed {
        in_force: Places::Own(in_force),
        revoking,
    })
}

/// All places of so many items.
pub(crate) fn places_below(alloc: Global, count: usize) -> Result<Vec<usize>, AllocError>
    ensures ascends { IfOk result (λ places. IsStrictlyIncreasing places.items) }
    ensures exact { IfOk result (λ places. (p : ℕ) → Contains places.items p ↔ (p < count)) }
{
    let mut places = Vec::with_capacity(alloc, count)?;
    for place in 0..count {
        places.push(place)?;
    }
    Ok(places)
}
