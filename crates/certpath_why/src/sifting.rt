//! Positions by whether they are in some ranges: a binary search for each.

ghost use Rattle.std.specs.Prelude.{◌↔◌, Contains, IfOk, IsTrue};
ghost use Rattle.std.specs.List.Sorted.{IsStrictlyIncreasing};
ghost use Rattle.certpath_why.specs.Cuts.{AreSpaced};
ghost use Rattle.certpath_why.specs.Ranges.{IsInRanges};
ghost use Rattle.certpath_why.specs.Reached.{ArePositions};

use crate::cuts::range_at;
use crate::ranges::Range;
use std::alloc::{AllocError, Global};

fn is_in(ranges: &[Range], place: usize) -> bool
    requires { AreSpaced 0 ranges.now }
    ensures { IsTrue result ↔ IsInRanges ranges.now place }
{
    match range_at(ranges, place) {
        Some(_) => true,
        None => false,
    }
}

/// Those of some positions that are in one of some ranges.
pub(crate) fn within(
    alloc: Global,
    places: &[usize],
    ranges: &[Range],
) -> Result<Vec<usize>, AllocError>
    requires places { IsStrictlyIncreasing places.now }
    requires ranges { AreSpaced 0 ranges.now }
    ensures { IfOk result (λ found. ArePositions (λ w. Contains places.now w × IsInRanges ranges.now w) found.items) }
{
    let mut found = Vec::new(alloc);
    for place in places {
        if !is_in(ranges, *place) {
            continue;
        }
        found.push(*place)?;
    }
    Ok(found)
}

/// Those that are in none.
pub(crate) fn outside(
    alloc: Global,
    places: &[usize],
    ranges: &[Range],
) -> Result<Vec<usize>, AllocError>
    requires places { IsStrictlyIncreasing places.now }
    requires ranges { AreSpaced 0 ranges.now }
    ensures { IfOk result (λ found. ArePositions (λ w. Contains places.now w × (IsInRanges ranges.now w → ⊥)) found.items) }
{
    let mut found = Vec::new(alloc);
    for place in places {
        if is_in(ranges, *place) {
            continue;
        }
        found.push(*place)?;
    }
    Ok(found)
}
