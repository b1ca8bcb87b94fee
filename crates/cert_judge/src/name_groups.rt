//! Groups of certificates, name by name and key by key.

ghost use Rattle.std.specs.Prelude.{◌≡◌, ◌↔◌, ◌+◌, ◌++◌, ◌<◌, ℕ, List, [], length, map, All, Contains, IfOk, OnOk};
ghost use Rattle.std.specs.List.Sorted.{IsStrictlyIncreasing};
ghost use Rattle.cert_graph.specs.declared.places.Part.TheVariants.{Name, Key};
ghost use Rattle.cert_graph.specs.Places.{Shows};
ghost use Rattle.cert_graph.specs.Links.{Adds};
ghost use Rattle.cert_judge.specs.JudgedItems.{as_issued, as_member, as_anchor};
ghost use Rattle.cert_judge.specs.Copies.{AreIssuedRows};
ghost use Rattle.cert_judge.specs.NamedLinks.{IsNamedLink, IsNamedAnchor, IsSomeLink, IsSomeAnchor};

use crate::Vouch;
use crate::copies::{copies_of, octets_of};
use crate::judged::JudgedItem;
use crate::sides::link_sides;
use crate::standing::{issued_under, long_lists};
use cert_graph::{Bucket, Group, Part, Place, alike, between};
use std::alloc::{AllocError, Global};

/// The places of items as what was issued, then as issuers, and then of anchors.
fn places_of<'a>(
    alloc: Global,
    items: &[JudgedItem<'a>],
    anchors: &[JudgedItem<'a>],
) -> Result<Vec<Place<'a>>, AllocError>
    ensures { IfOk result (λ places. places.items ≡ (map as_issued items.now ++ map as_member items.now) ++ map as_anchor anchors.now) }
{
    let mut places = Vec::new(alloc);
    for item in items {
        places.push(item.as_issued())?;
    }
    for item in items {
        places.push(item.as_member())?;
    }
    for anchor in anchors {
        places.push(anchor.as_anchor())?;
    }
    Ok(places)
}

fn numbers_below(alloc: Global, count: usize) -> Result<Vec<usize>, AllocError>
    ensures ascends { IfOk result (λ numbers. IsStrictlyIncreasing numbers.items) }
    ensures exact { IfOk result (λ numbers. (v : ℕ) → Contains numbers.items v ↔ (v < count)) }
{
    let mut numbers = Vec::with_capacity(alloc, count)?;
    for number in 0..count {
        numbers.push(number)?;
    }
    Ok(numbers)
}

/// The keys of buckets.
fn keys_of<'a>(alloc: Global, buckets: &[Bucket<'a>]) -> Result<Vec<&'a [u8]>, AllocError>
    ensures { IfOk result (λ keys. keys.items ≡ map (λ b. b.text) buckets.now) }
{
    buckets.iter().map(|bucket| bucket.text).collect(alloc)
}

/// The places of buckets.
fn holders_of(alloc: Global, buckets: Vec<Bucket<'_>>) -> Result<Vec<Vec<usize>>, AllocError>
    ensures { IfOk result (λ holders. holders.items ≡ map (λ b. b.places) buckets.entry.items) }
{
    buckets
        .into_iter()
        .map(|bucket| bucket.places)
        .collect(alloc)
}

/// For each key the certificates at some places that it vouches for and that the lists at these
/// places leave valid, by the numbers of the places. `vouched_by_each` is called once.
fn issued_by_each<V: Vouch>(
    alloc: Global,
    items: &[JudgedItem<'_>],
    firsts: &[usize],
    keys: &[&[u8]],
    vouch: &V,
    demand_lists: bool,
) -> Result<Vec<Vec<usize>>, AllocError>
    requires { All (λ v. v < length items.now) firsts.now }
    ensures { IfOk result (λ rows. AreIssuedRows (V.vouches_for vouch.now).Vouches demand_lists items.now firsts.now keys.now (map (λ l. l.items) rows.items)) }
{
    let octets = octets_of(alloc, items, firsts)?;
    let numbers = numbers_below(alloc, firsts.len())?;
    let vouched = vouch.vouched_by_each(alloc, keys, &octets, &numbers)?;
    let long = long_lists(alloc, items, firsts)?;
    let mut rows = Vec::with_capacity(alloc, vouched.len())?;
    for number in 0..vouched.len() {
        let row = &vouched[number];
        rows.push(issued_under(alloc, items, &long, firsts, row, demand_lists)?)?;
    }
    Ok(rows)
}

/// The groups of one name, whose places these are: for each key under it, what that key vouches
/// for. Equal items are brought together first.
fn link_name<V: Vouch>(
    alloc: Global,
    groups: &mut Vec<Group>,
    all: &[Place<'_>],
    items: &[JudgedItem<'_>],
    anchors: usize,
    name: &[u8],
    places: &[usize],
    vouch: &V,
    demand_lists: bool,
) -> Result<(), AllocError>
    requires ascends { IsStrictlyIncreasing places.now }
    requires named { (v : ℕ) → Contains places.now v ↔ Shows Name all.now v name.now }
    requires keyless { (v : ℕ) (key : List ℕ) → v < length items.now → Shows Key all.now v key → ⊥ }
    requires counted { length all.now ≡ length items.now + length items.now + anchors }
    ensures { OnOk result (Adds (length items.now) groups.old.items groups.new.items (IsNamedLink (V.vouches_for vouch.now).Vouches demand_lists items.now all.now name.now)
        (IsNamedAnchor (V.vouches_for vouch.now).Vouches demand_lists items.now all.now anchors name.now)) }
{
    let issued = between(alloc, places, 0, items.len())?;
    let copies = copies_of(alloc, items, &issued)?;
    let buckets = alike(alloc, all, Part::Key, places)?;
    let keys = keys_of(alloc, &buckets)?;
    let holders = holders_of(alloc, buckets)?;
    let rows = issued_by_each(alloc, items, &copies.firsts, &keys, vouch, demand_lists)?;
    link_sides(
        alloc,
        groups,
        all,
        items.len(),
        anchors,
        &copies.lists,
        &holders,
        &rows,
    )?;
    Ok(())
}

/// The groups of all items and anchors.
pub(crate) fn groups_of<'a, V: Vouch>(
    alloc: Global,
    items: &[JudgedItem<'a>],
    anchors: &[JudgedItem<'a>],
    vouch: &V,
    demand_lists: bool,
) -> Result<Vec<Group>, AllocError>
    ensures { IfOk result (λ groups. Adds (length items.now) [] groups.items (IsSomeLink (V.vouches_for vouch.now).Vouches demand_lists items.now anchors.now)
        (IsSomeAnchor (V.vouches_for vouch.now).Vouches demand_lists items.now anchors.now)) }
{
    let all = places_of(alloc, items, anchors)?;
    let chosen = numbers_below(alloc, all.len())?;
    let buckets = alike(alloc, &all, Part::Name, &chosen)?;
    let mut groups = Vec::new(alloc);
    for bucket in &buckets {
        link_name(
            alloc,
            &mut groups,
            &all,
            items,
            anchors.len(),
            bucket.text,
            &bucket.places,
            vouch,
            demand_lists,
        )?;
    }
    Ok(groups)
}
