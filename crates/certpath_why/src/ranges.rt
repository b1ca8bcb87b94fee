//! Positions as ranges.

ghost use Rattle.std.specs.Prelude.{◌≡◌, ◌↔◌, ◌+◌, ◌++◌, ◌∷◌, ◌<◌, ℕ, List, [], Contains, IfOk, OnOk, IsTrue};
ghost use Rattle.std.specs.List.Sorted.{IsStrictlyIncreasing};
ghost use Rattle.certpath_why.specs.Ranges.{AreRanges};

use std::alloc::{AllocError, Global};

/// Positions from one to another, both of them in it.
#[derive(Clone, Copy, Debug)]
pub(crate) struct Range {
    pub(crate) first: usize,
    pub(crate) last: usize,
}

/// Whether a position comes right after a range.
fn follows(range: &Range, place: usize) -> bool
    ensures { IsTrue result ↔ (place ≡ range.now.last + 1) }
{
    range.last < place && place - range.last == 1
}

/// Adds a position that comes after all others.
fn add_place(ranges: &mut Vec<Range>, place: usize) -> Result<(), AllocError>
    ensures { OnOk result ((ps : List ℕ) → ((p : ℕ) → Contains ps p → p < place) → AreRanges (Contains ps) ranges.old.items → AreRanges (Contains (ps ++ place ∷ [])) ranges.new.items) }
{
    let mut range = Range {
        first: place,
        last: place,
    };
    if let Some(before) = ranges.pop() {
        if follows(&before, place) {
            range.first = before.first;
        } else {
            ranges.push(before)?;
        }
    }
    ranges.push(range)?;
    Ok(())
}

/// The ranges of some positions.
pub(crate) fn ranges_of(alloc: Global, places: &[usize]) -> Result<Vec<Range>, AllocError>
    requires { IsStrictlyIncreasing places.now }
    ensures { IfOk result (λ ranges. AreRanges (Contains places.now) ranges.items) }
{
    let mut ranges = Vec::new(alloc);
    for place in places {
        add_place(&mut ranges, *place)?;
    }
    Ok(ranges)
}
