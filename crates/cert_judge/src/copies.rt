//! Equal items brought together, so that who vouches is asked once for all copies of an item.

ghost use Rattle.std.specs.Prelude.{◌≡◌, ◌<◌, length, map, All, IsTrue, IfOk, slice_index_or};
ghost use Rattle.std.specs.List.Sorted.{IsStrictlyIncreasing};
ghost use Rattle.cert_judge.specs.Standing.{WithCertificate, WithList};
ghost use Rattle.cert_judge.specs.Copies.{IsSameList, AreAlike, AreAlikeAt, AreCopies, octets_at};

use crate::judged::{JudgedCertificate, JudgedItem, JudgedList};
use cert_graph::TextNumbers;
use cert_graph::lists::put;
use std::alloc::{AllocError, Global};

/// Places of items, brought together.
#[derive(Drop)]
pub(crate) struct Copies {
    /// The first place of each item, by the item's number.
    pub(crate) firsts: Vec<usize>,
    /// All its places in ascending order, by that number.
    pub(crate) lists: Vec<Vec<usize>>,
}

/// Returns whether an item is a certificate with equal octets and an equal serial number.
fn is_same_certificate(one: &JudgedCertificate<'_>, other: &JudgedItem<'_>) -> bool
    ensures { IsTrue result → WithCertificate (λ c. (one.now.octets.now ≡ c.octets.now) × (one.now.serial.now ≡ c.serial.now)) other.now }
{
    match other {
        JudgedItem::Certificate(other) => {
            one.octets == other.octets && one.serial == other.serial
        }
        _ => false,
    }
}

fn are_same(one: &[&[u8]], other: &[&[u8]]) -> bool
    ensures { IsTrue result → map (λ s. s.now) one.now ≡ map (λ s. s.now) other.now }
{
    one == other
}

/// Returns whether an item is a list with equal octets and serial numbers, and they are both in
/// force or both not.
fn is_same_list(one: &JudgedList<'_>, other: &JudgedItem<'_>) -> bool
    ensures { IsTrue result → WithList (IsSameList one.now) other.now }
{
    match other {
        JudgedItem::List(other) => {
            if one.octets != other.octets {
                return false;
            }
            if one.in_force != other.in_force {
                return false;
            }
            are_same(&one.serials, &other.serials)
        }
        _ => false,
    }
}

fn are_alike(one: &JudgedItem<'_>, other: &JudgedItem<'_>) -> bool
    ensures { IsTrue result → AreAlike one.now other.now }
{
    match one {
        JudgedItem::Certificate(one) => is_same_certificate(one, other),
        JudgedItem::List(one) => is_same_list(one, other),
        JudgedItem::Other => false,
    }
}

/// Whether the item at a place is a copy of the one at the first place of a number.
fn is_copy(items: &[JudgedItem<'_>], firsts: &[usize], number: usize, place: usize) -> bool
    ensures known { IsTrue result → number < length firsts.now }
    ensures alike { IsTrue result → AreAlikeAt items.now (slice_index_or firsts.now number 0) place }
{
    let Some(first) = firsts.get(number) else {
        return false;
    };
    let Some(one) = items.get(*first) else {
        return false;
    };
    let Some(other) = items.get(place) else {
        return false;
    };
    are_alike(one, other)
}

/// Equal items at some places, brought together. Takes as many comparisons of octets as a sorted
/// map of them, and one with the first copy for each place. Octets are compared by the last eight,
/// and whole if these are equal.
pub(crate) fn copies_of(
    alloc: Global,
    items: &[JudgedItem<'_>],
    places: &[usize],
) -> Result<Copies, AllocError>
    requires ascends { IsStrictlyIncreasing places.now }
    requires within { All (λ v. v < length items.now) places.now }
    ensures { IfOk result (λ copies. AreCopies items.now places.now copies.firsts.items (map (λ l. l.items) copies.lists.items)) }
{
    let mut known = TextNumbers::new(alloc);
    let mut firsts = Vec::new(alloc);
    let mut lists = Vec::new(alloc);
    for place in places {
        let octets = items[*place].octets();
        let number = match known.get(octets) {
            Some(number) => number,
            None => firsts.len(),
        };
        if is_copy(items, &firsts, number, *place) {
            put(&mut lists, number, *place)?;
        } else {
            known.insert(octets, firsts.len())?;
            firsts.push(*place)?;
            lists.push(vec![in alloc; *place]?)?;
        }
    }
    Ok(Copies { firsts, lists })
}

/// The octets of the items at some places.
pub(crate) fn octets_of<'a>(
    alloc: Global,
    items: &[JudgedItem<'a>],
    places: &[usize],
) -> Result<Vec<&'a [u8]>, AllocError>
    requires { All (λ v. v < length items.now) places.now }
    ensures { IfOk result (λ octets. map (λ o. o.now) octets.items ≡ octets_at items.now places.now) }
{
    let mut octets = Vec::with_capacity(alloc, places.len())?;
    for place in places {
        octets.push(items[*place].octets())?;
    }
    Ok(octets)
}
