//! Lists of positions in ascending order.

ghost use Rattle.std.specs.Prelude.{◌↔◌, ℕ, Contains, IfOk, OnOk};
ghost use Rattle.std.specs.List.Sorted.{IsStrictlyIncreasing};
ghost use Rattle.certpath_why.specs.Reached.{ArePositions};

use std::alloc::{AllocError, Global};

/// Sorts positions, and keeps one of equal ones.
pub(crate) fn put_in_order(positions: &mut Vec<usize>) -> Result<(), AllocError>
    ensures ascend { OnOk result (IsStrictlyIncreasing positions.new.items) }
    ensures kept { OnOk result ((p : ℕ) → Contains positions.new.items p ↔ Contains positions.old.items p) }
{
    positions.sort()?;
    positions.dedup();
    Ok(())
}

/// Returns some positions in ascending order, each once.
pub(crate) fn in_order(alloc: Global, positions: &[usize]) -> Result<Vec<usize>, AllocError>
    ensures { IfOk result (λ found. ArePositions (Contains positions.now) found.items) }
{
    let mut found = Vec::new(alloc);
    found.extend_from_slice(positions)?;
    put_in_order(&mut found)?;
    Ok(found)
}
