//! Links between copies of items and the holders of keys, on the side that has fewer places.
//!
//! If c copies of an item are linked to h holders of a key, either the key's group takes the c
//! places, or the item's group takes the h.

ghost use Rattle.std.specs.Prelude.{◌≡◌, ◌↔◌, ◌⊎◌, ◌+◌, ◌<◌, ◌≤◌, ◌^◌, ℕ, List, length, map, All, Contains, IfOk, OnOk};
ghost use Rattle.std.specs.List.Sorted.{IsStrictlyIncreasing};
ghost use Rattle.cert_graph.specs.Links.{Adds, IsPlaceLink, IsPlaceAnchor};
ghost use Rattle.cert_graph.specs.Lists.{AreFilled};
ghost use Rattle.cert_judge.specs.Copies.{IsIn, IsSided, IsLinkBy, IsAnchorBy, AreLinkable};

use cert_graph::lists::{empty_lists, put};
use cert_graph::{Group, Place, link_places};
use std::alloc::{AllocError, Global};

/// Adds a list of this number, if there is one.
fn append(all: &mut Vec<usize>, lists: &[Vec<usize>], number: usize) -> Result<(), AllocError>
    ensures { OnOk result ((v : ℕ) → Contains all.new.items v ↔ (Contains all.old.items v ⊎ IsIn (map (λ l. l.items) lists.now) number v)) }
{
    if let Some(list) = lists.get(number) {
        all.extend_from_slice(list)?;
    }
    Ok(())
}

/// Sorts places, and keeps one of equal ones.
fn put_in_order(places: &mut Vec<usize>)
    ensures ascends { IsStrictlyIncreasing places.new.items }
    ensures same { (v : ℕ) → Contains places.new.items v ↔ Contains places.old.items v }
{
    places.sort_unstable();
    places.dedup();
}

/// The lists of some numbers as one, in ascending order.
fn joined(alloc: Global, lists: &[Vec<usize>], numbers: &[usize]) -> Result<Vec<usize>, AllocError>
    ensures ascends { IfOk result (λ all. IsStrictlyIncreasing all.items) }
    ensures exact { IfOk result (λ all. (v : ℕ) → Contains all.items v ↔ ((d : ℕ) × Contains numbers.now d × IsIn (map (λ l. l.items) lists.now) d v)) }
{
    let mut all = Vec::new(alloc);
    for number in numbers {
        append(&mut all, lists, *number)?;
    }
    put_in_order(&mut all);
    Ok(all)
}

/// The numbers of a row, in two.
#[derive(Drop)]
struct Sides {
    /// Those whose lists are no longer than another.
    few: Vec<usize>,
    /// The others.
    many: Vec<usize>,
}

fn is_longer(lists: &[Vec<usize>], number: usize, other: usize) -> bool {
    match lists.get(number) {
        Some(list) => list.len() > other,
        None => false,
    }
}

/// The numbers of a row, apart by the lengths of their lists.
fn sides_of(
    alloc: Global,
    lists: &[Vec<usize>],
    row: &[usize],
    length: usize,
) -> Result<Sides, AllocError>
    ensures { IfOk result (λ sides. (d : ℕ) → Contains row.now d ↔ (Contains sides.few.items d ⊎ Contains sides.many.items d)) }
{
    let mut few = Vec::new(alloc);
    let mut many = Vec::new(alloc);
    for number in row {
        if is_longer(lists, *number, length) {
            many.push(*number)?;
        } else {
            few.push(*number)?;
        }
    }
    Ok(Sides { few, many })
}

/// Rows, each in two.
#[derive(Drop)]
struct SidesOfEach {
    few: Vec<Vec<usize>>,
    many: Vec<Vec<usize>>,
}

/// The numbers of each row, apart by whether their copies are more than the holders of the row's
/// key.
fn sides_of_each(
    alloc: Global,
    copies: &[Vec<usize>],
    holders: &[Vec<usize>],
    rows: &[Vec<usize>],
) -> Result<SidesOfEach, AllocError>
    requires { length holders.now ≡ length rows.now }
    ensures count { IfOk result (λ sides. length sides.few.items ≡ length rows.now) }
    ensures whole { IfOk result (λ sides. (k d : ℕ) → IsIn (map (λ l. l.items) rows.now) k d
        ↔ (IsIn (map (λ l. l.items) sides.few.items) k d ⊎ IsIn (map (λ l. l.items) sides.many.items) k d)) }
{
    let mut few = Vec::with_capacity(alloc, rows.len())?;
    let mut many = Vec::with_capacity(alloc, rows.len())?;
    for number in 0..rows.len() {
        let sides = sides_of(alloc, copies, &rows[number], holders[number].len())?;
        few.push(sides.few)?;
        many.push(sides.many)?;
    }
    Ok(SidesOfEach { few, many })
}

/// For each number below a count, the rows that have it.
fn rows_with(
    alloc: Global,
    rows: &[Vec<usize>],
    count: usize,
) -> Result<Vec<Vec<usize>>, AllocError>
    ensures { IfOk result (λ lists. AreFilled (IsIn (map (λ l. l.items) rows.now)) count (length rows.now) (map (λ l. l.items) lists.items)) }
{
    let mut lists = empty_lists(alloc, count)?;
    for (number, row) in rows.iter().enumerate() {
        for place in row {
            put(&mut lists, *place, number)?;
        }
    }
    Ok(lists)
}

/// Links, unless there is nothing to link.
fn link_some(
    alloc: Global,
    groups: &mut Vec<Group>,
    all: &[Place<'_>],
    items: usize,
    anchors: usize,
    linked: &[usize],
    holders: &[usize],
) -> Result<(), AllocError>
    requires linked_ascend { IsStrictlyIncreasing linked.now }
    requires holders_ascend { IsStrictlyIncreasing holders.now }
    requires linked_within { All (λ v. v < items) linked.now }
    requires holders_behind { All (λ v. items ≤ v) holders.now }
    requires fits { items + items < 2 ^ 64 }
    ensures { OnOk result (Adds items groups.old.items groups.new.items (IsPlaceLink all.now items linked.now holders.now) (IsPlaceAnchor items anchors linked.now holders.now)) }
{
    if linked.is_empty() {
        return Ok(());
    }
    if holders.is_empty() {
        return Ok(());
    }
    link_places(alloc, groups, all, items, anchors, linked, holders)
}

/// The groups of keys: the holders of each, and the copies of the numbers in its row.
fn link_keys(
    alloc: Global,
    groups: &mut Vec<Group>,
    all: &[Place<'_>],
    items: usize,
    anchors: usize,
    copies: &[Vec<usize>],
    holders: &[Vec<usize>],
    rows: &[Vec<usize>],
) -> Result<(), AllocError>
    requires linkable { AreLinkable items (map (λ l. l.items) copies.now) (map (λ l. l.items) holders.now) }
    requires count { length rows.now ≡ length holders.now }
    requires fits { items + items < 2 ^ 64 }
    ensures { OnOk result (Adds items groups.old.items groups.new.items
        (IsLinkBy (IsSided (map (λ l. l.items) rows.now) (map (λ l. l.items) copies.now) (map (λ l. l.items) holders.now)) all.now items)
        (IsAnchorBy (IsSided (map (λ l. l.items) rows.now) (map (λ l. l.items) copies.now) (map (λ l. l.items) holders.now)) items anchors)) }
{
    for number in 0..rows.len() {
        let linked = joined(alloc, copies, &rows[number])?;
        link_some(
            alloc,
            groups,
            all,
            items,
            anchors,
            &linked,
            &holders[number],
        )?;
    }
    Ok(())
}

/// The groups of items: the copies of each, and the holders of the keys whose rows have its number.
fn link_copies(
    alloc: Global,
    groups: &mut Vec<Group>,
    all: &[Place<'_>],
    items: usize,
    anchors: usize,
    copies: &[Vec<usize>],
    holders: &[Vec<usize>],
    rows: &[Vec<usize>],
) -> Result<(), AllocError>
    requires linkable { AreLinkable items (map (λ l. l.items) copies.now) (map (λ l. l.items) holders.now) }
    requires fits { items + items < 2 ^ 64 }
    ensures { OnOk result (Adds items groups.old.items groups.new.items
        (IsLinkBy (IsSided (map (λ l. l.items) rows.now) (map (λ l. l.items) copies.now) (map (λ l. l.items) holders.now)) all.now items)
        (IsAnchorBy (IsSided (map (λ l. l.items) rows.now) (map (λ l. l.items) copies.now) (map (λ l. l.items) holders.now)) items anchors)) }
{
    let keys = rows_with(alloc, rows, copies.len())?;
    for number in 0..copies.len() {
        let held = joined(alloc, holders, &keys[number])?;
        link_some(alloc, groups, all, items, anchors, &copies[number], &held)?;
    }
    Ok(())
}

/// Links copies to holders, where a row for each key has the numbers of the copies that are linked
/// to its holders. A number with c copies and a key with h holders take c or h places, whichever
/// are fewer, beside one list of all copies and one of all holders.
pub(crate) fn link_sides(
    alloc: Global,
    groups: &mut Vec<Group>,
    all: &[Place<'_>],
    items: usize,
    anchors: usize,
    copies: &[Vec<usize>],
    holders: &[Vec<usize>],
    rows: &[Vec<usize>],
) -> Result<(), AllocError>
    requires linkable { AreLinkable items (map (λ l. l.items) copies.now) (map (λ l. l.items) holders.now) }
    requires count { length holders.now ≡ length rows.now }
    requires fits { items + items < 2 ^ 64 }
    ensures { OnOk result (Adds items groups.old.items groups.new.items
        (IsLinkBy (IsSided (map (λ l. l.items) rows.now) (map (λ l. l.items) copies.now) (map (λ l. l.items) holders.now)) all.now items)
        (IsAnchorBy (IsSided (map (λ l. l.items) rows.now) (map (λ l. l.items) copies.now) (map (λ l. l.items) holders.now)) items anchors)) }
{
    let sides = sides_of_each(alloc, copies, holders, rows)?;
    link_keys(
        alloc, groups, all, items, anchors, copies, holders, &sides.few,
    )?;
    link_copies(
        alloc,
        groups,
        all,
        items,
        anchors,
        copies,
        holders,
        &sides.many,
    )?;
    Ok(())
}
