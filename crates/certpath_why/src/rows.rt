//! Lists of positions, to which others are added.

ghost use Rattle.std.specs.Prelude.{◌≡◌, ◌∷◌, ◌<◌, [], ℕ, Vec, length, slice_index_or, OnOk};
ghost use Rattle.std.specs.declared.alloc.Global.{Global};
ghost use Rattle.certpath_why.specs.Adding.{Adds, IsRowOf};

use std::alloc::AllocError;

/// Adds positions to the list at a place, if there is one.
fn add_to(lists: &mut Vec<Vec<usize>>, item: usize, added: &[usize]) -> Result<(), AllocError>
    ensures { OnOk result (Adds (IsRowOf (item ∷ []) added.now) lists.old.items lists.new.items) }
{
    if item >= lists.len() {
        return Ok(());
    }
    let list = &mut lists[item];
    list.extend_from_slice(added)?;
    Ok(())
}

/// Adds positions to the lists at some places.
pub(crate) fn add_row(
    lists: &mut Vec<Vec<usize>>,
    row: &[usize],
    added: &[usize],
) -> Result<(), AllocError>
    ensures { OnOk result (Adds (IsRowOf row.now added.now) lists.old.items lists.new.items) }
{
    for item in row {
        add_to(lists, *item, added)?;
    }
    Ok(())
}

/// Returns the positions in the list at a place.
pub(crate) fn row_at(lists: &[Vec<usize>], place: usize) -> &[usize]
    requires { place < length lists.now }
    ensures { (r : Vec ℕ Global) → result.now ≡ (slice_index_or lists.now place r).items }
{
    lists[place].as_slice()
}
