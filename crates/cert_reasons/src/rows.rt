//! Rows of serial numbers and places: which lists have an entry of a serial number, sorted, so that
//! it takes a look-up (RFC 5280, 5.1.2.6).

ghost use Rattle.std.specs.Prelude.{◌≡◌, ◌↔◌, ◌≤◌, ◌⊎◌, ℕ, List, map, Any, Contains, IsTrue, IfOk, OnOk};
ghost use Rattle.std.specs.List.{filter};
ghost use Rattle.std.specs.List.Sorted.{IsStrictlyIncreasing};
ghost use Rattle.std.specs.BTreeSet.{IsOrdered};
ghost use Rattle.cert_model.specs.Fields.{Entry};
ghost use Rattle.cert_model.specs.View.{entry_view};
ghost use Rattle.cert_judge.specs.Items.{IsListWith};
ghost use Rattle.cert_reasons.specs.Listed.{HasSerial, HasSerialAt};
ghost use Rattle.cert_reasons.specs.Rows.{HasRow, is_row_of, row_cmp};

use cert_judge::ReadItem;
use cert_model::fields::EntryFields;
use std::alloc::{AllocError, Global};
use std::collections::BTreeSet;

fn add_row<'a>(
    rows: &mut BTreeSet<(&'a [u8], usize)>,
    serial: &'a [u8],
    place: usize,
) -> Result<(), AllocError>
    ensures { OnOk result ((s : List ℕ) (p : ℕ) → HasRow rows.new s p ↔ (HasRow rows.old s p ⊎ ((serial.now ≡ s) × (place ≡ p)))) }
{
    rows.insert((serial, place))?;
    Ok(())
}

/// Adds a row for each serial number that entries have.
fn add_entries<'a>(
    rows: &mut BTreeSet<(&'a [u8], usize)>,
    entries: &[EntryFields<'a>],
    place: usize,
) -> Result<(), AllocError>
    ensures { OnOk result ((s : List ℕ) (p : ℕ) → HasRow rows.new s p
        ↔ (HasRow rows.old s p ⊎ (Any (λ (n : Entry). n.serial ≡ s) (map entry_view entries.now) × (place ≡ p)))) }
{
    for entry in entries {
        add_row(rows, entry.serial, place)?;
    }
    Ok(())
}

/// Adds a row for each serial number that an item has, if it is a list.
fn add_item<'a>(
    rows: &mut BTreeSet<(&'a [u8], usize)>,
    item: &ReadItem<'a>,
    place: usize,
) -> Result<(), AllocError>
    ensures { OnOk result ((s : List ℕ) (p : ℕ) → HasRow rows.new s p ↔ (HasRow rows.old s p ⊎ (IsListWith (HasSerial s) item.now × (place ≡ p)))) }
{
    match item {
        ReadItem::List(list) => add_entries(rows, &list.fields.entries, place),
        _ => Ok(()),
    }
}

/// Adds a row for each serial number that the item at a place has, if a list is there.
fn add_at<'a>(
    rows: &mut BTreeSet<(&'a [u8], usize)>,
    items: &[ReadItem<'a>],
    place: usize,
) -> Result<(), AllocError>
    ensures { OnOk result ((s : List ℕ) (p : ℕ) → HasRow rows.new s p ↔ (HasRow rows.old s p ⊎ (HasSerialAt items.now s place × (place ≡ p)))) }
{
    let Some(item) = items.get(place) else {
        return Ok(());
    };
    add_item(rows, item, place)?;
    Ok(())
}

/// The rows of the lists at some places. Costs a sort of their entries.
pub(crate) fn rows_of<'a>(
    alloc: Global,
    items: &[ReadItem<'a>],
    places: &[usize],
) -> Result<BTreeSet<(&'a [u8], usize)>, AllocError>
    ensures { IfOk result (λ rows. (s : List ℕ) (p : ℕ) → HasRow rows s p ↔ (Contains places.now p × HasSerialAt items.now s p)) }
{
    let mut rows = BTreeSet::new(alloc);
    for place in places {
        add_at(&mut rows, items, *place)?;
    }
    Ok(rows)
}

/// The places in the rows of a serial number.
fn found_places<'a>(
    alloc: Global,
    rows: &BTreeSet<(&'a [u8], usize)>,
    serial: &'a [u8],
) -> Result<Vec<usize>, AllocError>
    ensures ordered { OnOk result (IsOrdered row_cmp rows.now) }
    ensures found { IfOk result (λ found. found.items ≡ map (λ r. r.1) (filter (is_row_of serial.entry.now usize.MAX) rows.now.keys)) }
{
    rows.range((serial, 0)..=(serial, usize::MAX))
        .map(|row| row.1)
        .collect(alloc)
}

/// The places in the rows of a serial number, in ascending order. Costs a look-up, and a step for
/// each.
pub(crate) fn places_with<'a>(
    alloc: Global,
    rows: &BTreeSet<(&'a [u8], usize)>,
    serial: &'a [u8],
) -> Result<Vec<usize>, AllocError>
    ensures ascends { IfOk result (λ found. IsStrictlyIncreasing found.items) }
    ensures sound { IfOk result (λ found. (p : ℕ) → Contains found.items p → HasRow rows.now serial.entry.now p) }
    ensures complete { IfOk result (λ found. (p : ℕ) → p ≤ usize.MAX → HasRow rows.now serial.entry.now p → Contains found.items p) }
{
    let found = found_places(alloc, rows, serial)?;
    Ok(found)
}
