//! Which keys vouch for which items, looked up by digests.

ghost use Rattle.std.specs.Prelude.{◌≡◌, ◌↔◌, ◌<◌, ℕ, List, length, IsTrue, IfOk, OnOk, IfSome, IsNone};
ghost use Rattle.std.specs.List.Sorted.{IsStrictlyIncreasing};
ghost use Rattle.sha2.specs.Sha256.{sha256};
ghost use Rattle.cert_graph.specs.Entries.{IsAt};
ghost use Rattle.cert_judge.specs.Rows.{AreRows};
ghost use Rattle.cert_vouchers.specs.Vouching.{HasPair, VouchesBy, ArePlaced, Puts, IsOf, IsAmong, IsFound, IsPlaced};

use crate::keys::Keys;
use cert_graph::lists::{empty_lists, put};
use std::alloc::{AllocError, Global};
use std::collections::{BTreeMap, BTreeSet};

/// The digests of the keys that vouch for an item, by the item's digest.
pub(crate) type Pairs = BTreeMap<[u8; 32], Keys>;

/// Computes the SHA-256 digests (FIPS 180-4) of keys and items, or remembers them.
pub(crate) trait Digests {
    fn key_digest(&self, key: &[u8]) -> [u8; 32]
        ensures { result ≡ sha256 key.now };

    fn item_digest(&self, item: &[u8]) -> [u8; 32]
        ensures { result ≡ sha256 item.now };
}

/// Whether there is no pair.
fn has_none(pairs: &Pairs) -> bool
    ensures { IsTrue result → (key item : List ℕ) → HasPair pairs.now key item → ⊥ }
{
    pairs.is_empty()
}

/// Whether a key vouches for an item.
pub(crate) fn has_pair<D: Digests>(pairs: &Pairs, digests: &D, key: &[u8], item: &[u8]) -> bool
    ensures { IsTrue result ↔ VouchesBy pairs.now key.now item.now }
{
    if has_none(pairs) {
        return false;
    }
    match pairs.get(&digests.item_digest(item)) {
        Some(keys) => keys.contains(&digests.key_digest(key)),
        None => false,
    }
}

/// The places of keys by their digests; none if two have one digest.
fn places_of<D: Digests>(
    alloc: Global,
    digests: &D,
    keys: &[&[u8]],
) -> Result<Option<BTreeMap<[u8; 32], usize>>, AllocError>
    ensures { IfOk result (λ o. IfSome o (λ m. ArePlaced keys.now (length keys.now) m)) }
{
    let mut places = BTreeMap::new(alloc);
    for (number, key) in keys.iter().enumerate() {
        let before = places.insert(digests.key_digest(*key), number)?;
        if before.is_some() {
            return Ok(None);
        }
    }
    Ok(Some(places))
}

/// Puts a place at the end of the row of the key that has this digest.
fn put_one(
    rows: &mut Vec<Vec<usize>>,
    places: &BTreeMap<[u8; 32], usize>,
    digest: &[u8; 32],
    place: usize,
) -> Result<(), AllocError>
    ensures { OnOk result (Puts rows.old.items rows.new.items (IsOf places.now digest.now) place) }
{
    match places.get(digest) {
        Some(number) => put(rows, *number, place),
        None => Ok(()),
    }
}

/// Puts a place at the end of the row of each key whose digest is in a set.
fn put_each(
    rows: &mut Vec<Vec<usize>>,
    places: &BTreeMap<[u8; 32], usize>,
    digests: &BTreeSet<[u8; 32]>,
    place: usize,
) -> Result<(), AllocError>
    ensures { OnOk result (Puts rows.old.items rows.new.items (IsAmong places.now digests.now) place) }
{
    for digest in digests.iter() {
        put_one(rows, places, digest, place)?;
    }
    Ok(())
}

/// Puts a place at the end of the row of each key that is one of an item's.
fn put_keys(
    rows: &mut Vec<Vec<usize>>,
    places: &BTreeMap<[u8; 32], usize>,
    keys: &Keys,
    place: usize,
) -> Result<(), AllocError>
    ensures { OnOk result (Puts rows.old.items rows.new.items (IsFound places.now keys.now) place) }
{
    match keys {
        Keys::One(digest) => put_one(rows, places, digest, place),
        Keys::Many(digests) => put_each(rows, places, digests, place),
    }
}

fn item_at<'a>(items: &[&'a [u8]], place: usize) -> Option<&'a [u8]>
    ensures found { IfSome result (λ o. IsAt items.now place (λ x. x.now ≡ o.now)) }
    ensures only { IsNone result → place < length items.now → ⊥ }
{
    match items.get(place) {
        Some(item) => Some(*item),
        None => None,
    }
}

/// Puts a place at the end of the row of each key that vouches for the item there.
fn put_item<D: Digests>(
    rows: &mut Vec<Vec<usize>>,
    places: &BTreeMap<[u8; 32], usize>,
    pairs: &Pairs,
    digests: &D,
    items: &[&[u8]],
    place: usize,
) -> Result<(), AllocError>
    ensures { OnOk result (Puts rows.old.items rows.new.items (IsPlaced pairs.now places.now items.now place) place) }
{
    let Some(item) = item_at(items, place) else {
        return Ok(());
    };
    let Some(keys) = pairs.get(&digests.item_digest(item)) else {
        return Ok(());
    };
    put_keys(rows, places, keys, place)
}

/// For each key the chosen items that it vouches for, in ascending order; none if two keys have
/// the same digest. Each key and each chosen item is digested once, and none if there is no key
/// or no pair.
pub(crate) fn rows_of<D: Digests>(
    alloc: Global,
    pairs: &Pairs,
    digests: &D,
    keys: &[&[u8]],
    items: &[&[u8]],
    chosen: &[usize],
) -> Result<Option<Vec<Vec<usize>>>, AllocError>
    requires { IsStrictlyIncreasing chosen.now }
    ensures { IfOk result (λ o. IfSome o (λ rows. AreRows (VouchesBy pairs.now) keys.now items.now chosen.now rows.items)) }
{
    let mut rows = empty_lists(alloc, keys.len())?;
    if keys.is_empty() {
        return Ok(Some(rows));
    }
    if has_none(pairs) {
        return Ok(Some(rows));
    }
    let Some(places) = places_of(alloc, digests, keys)? else {
        return Ok(None);
    };
    for place in chosen {
        put_item(&mut rows, &places, pairs, digests, items, *place)?;
    }
    Ok(Some(rows))
}
