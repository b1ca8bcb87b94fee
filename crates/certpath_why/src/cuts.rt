//! Ranges without some positions: the first of them, and how many there are. It costs a binary
//! search for each position that is left out, and 20 steps at most besides.

ghost use Rattle.std.specs.Prelude.{◌≡◌, ◌↔◌, ◌++◌, ◌+◌, ◌<◌, ◌≤◌, ℕ, List, [], Contains, IfOk, IfSome, IsNone, IsTrue, OnOk, None, Some, drop, length, slice_index_or, take};
ghost use Rattle.std.specs.List.Sorted.{IsStrictlyIncreasing};
ghost use Rattle.certpath_why.specs.Cuts.{ahead, opened, AreBelow, AreSpaced, IsBack, CutsTo, IsCutOf, IsFront, IsReadied, IsReady, IsTaken};
ghost use Rattle.certpath_why.specs.Ranges.{IsInRanges};
ghost use Rattle.certpath_why.specs.declared.ranges.Range.{Range};

use crate::listed::front_of;
use crate::ranges::{Range, ranges_of};
use std::alloc::{AllocError, Global};

/// So many ranges are kept at most.
pub(crate) const MOST_SHOWN: usize = 20;

/// The first of some ranges, and how many there are.
#[derive(Drop)]
pub(crate) struct Cut {
    pub(crate) shown: Vec<Range>,
    pub(crate) count: usize,
}

impl Cut {
    /// Of no ranges.
    pub(crate) fn new(alloc: Global) -> Cut
        ensures { CutsTo [] result }
    {
        Cut {
            shown: Vec::new(alloc),
            count: 0,
        }
    }

    /// Of these ranges.
    pub(crate) fn of(alloc: Global, ranges: &[Range]) -> Result<Cut, AllocError>
        ensures { IfOk result (CutsTo ranges.now) }
    {
        let mut cut = Cut::new(alloc);
        cut.extend(ranges)?;
        Ok(cut)
    }

    /// A cut of these ranges with memory of its own.
    pub(crate) fn copied(&self, alloc: Global) -> Result<Cut, AllocError>
        ensures { IfOk result (λ cut. (rs : List Range) → CutsTo rs self.now → CutsTo rs cut) }
    {
        let mut shown = Vec::new(alloc);
        shown.extend_from_slice(&self.shown)?;
        Ok(Cut {
            shown,
            count: self.count,
        })
    }

    /// Adds ranges after the others. That there are more than can be counted is out of memory.
    fn extend(&mut self, ranges: &[Range]) -> Result<(), AllocError>
        ensures { OnOk result ((rs : List Range) → CutsTo rs self.old → CutsTo (rs ++ ranges.now) self.new) }
    {
        let Some(count) = self.count.checked_add(ranges.len()) else {
            return Err(AllocError);
        };
        let room = MOST_SHOWN.saturating_sub(self.shown.len());
        self.shown.extend_from_slice(front_of(ranges, room))?;
        self.count = count;
        Ok(())
    }

    /// Adds a range, if there is one.
    fn push(&mut self, range: Option<Range>) -> Result<(), AllocError>
        ensures { OnOk result ((rs : List Range) → CutsTo rs self.old → CutsTo (rs ++ opened range) self.new) }
    {
        match range {
            Some(range) => self.extend(&[range]),
            None => Ok(()),
        }
    }
}

/// Whether a position is in a range.
fn holds(range: &Range, place: usize) -> bool
    ensures { IsTrue result ↔ ((range.now.first ≤ place) × (place ≤ range.now.last)) }
{
    range.first <= place && place <= range.last
}

/// The positions of a range before one of them.
fn front_part(range: &Range, place: usize) -> Option<Range>
    ensures { IsFront range.now place result }
{
    if range.first < place {
        return Some(Range {
            first: range.first,
            last: place - 1,
        });
    }
    None
}

/// The positions of a range after one of them.
fn back_part(range: &Range, place: usize) -> Option<Range>
    ensures { IsBack range.now place result }
{
    if place < range.last {
        return Some(Range {
            first: place + 1,
            last: range.last,
        });
    }
    None
}

/// How many ranges end before a position, by a binary search.
fn count_before(ranges: &[Range], place: usize) -> usize
    ensures bound { result ≤ length ranges.now }
    ensures before { AreSpaced 0 ranges.now → (k : ℕ) (d : Range) → k < result → (slice_index_or ranges.now k d).last < place }
    ensures past { AreSpaced 0 ranges.now → (d : Range) → result < length ranges.now → place ≤ (slice_index_or ranges.now result d).last }
{
    ranges.partition_point(|range| range.last < place)
}

/// The number of the range that has a position.
pub(crate) fn range_at(ranges: &[Range], place: usize) -> Option<usize>
    ensures found { IfSome result (λ i. (i < length ranges.now) × ((d : Range) → ((slice_index_or ranges.now i d).first ≤ place) × (place ≤ (slice_index_or ranges.now i d).last))) }
    ensures none { IsNone result → AreSpaced 0 ranges.now → IsInRanges ranges.now place → ⊥ }
{
    let at = count_before(ranges, place);
    if at >= ranges.len() {
        return None;
    }
    if holds(&ranges[at], place) {
        Some(at)
    } else {
        None
    }
}

/// The ranges of some positions.
pub(crate) fn cut_of(alloc: Global, places: &[usize]) -> Result<Cut, AllocError>
    requires { IsStrictlyIncreasing places.now }
    ensures { IfOk result (IsCutOf (Contains places.now)) }
{
    let ranges = ranges_of(alloc, places)?;
    let cut = Cut::of(alloc, &ranges)?;
    Ok(cut)
}

/// Ranges that are gone over in their order: those that are done, what is left of the one that was
/// begun, and all others.
#[derive(Drop)]
struct Walk<'b> {
    cut: Cut,
    begun: Option<Range>,
    rest: &'b [Range],
}

impl Walk<'_> {
    /// Whether what is left of the range that was begun has a position.
    fn has_open(&self, place: usize) -> bool
        ensures { IsTrue result ↔ IsInRanges (opened self.now.begun) place }
    {
        match self.begun {
            Some(range) => holds(&range, place),
            None => false,
        }
    }

    /// Begins a range. All before it are done then.
    fn begin(&mut self, at: usize) -> Result<(), AllocError>
        requires { at < length self.now.rest.now }
        ensures cut { OnOk result ((done : List Range) → CutsTo done self.old.cut → CutsTo ((done ++ opened self.old.begun) ++ take at self.old.rest.now) self.new.cut) }
        ensures begun { OnOk result ((d : Range) → self.new.begun ≡ Some (slice_index_or self.old.rest.now at d)) }
        ensures rest { OnOk result (self.new.rest.now ≡ drop (at + 1) self.old.rest.now) }
    {
        self.cut.push(self.begun)?;
        self.cut.extend(&self.rest[..at])?;
        self.begun = Some(self.rest[at]);
        self.rest = &self.rest[at + 1..];
        Ok(())
    }

    /// Begins the range that has a position, if there is one.
    fn go_to(&mut self, place: usize) -> Result<(), AllocError>
        ensures { OnOk result ((done : List Range) → CutsTo done self.old.cut → AreSpaced 0 (done ++ ahead self.old) → AreBelow place done → IsReadied place (done ++ ahead self.old) self.new) }
    {
        if self.has_open(place) {
            return Ok(());
        }
        let Some(at) = range_at(self.rest, place) else {
            return Ok(());
        };
        self.begin(at)?;
        Ok(())
    }

    /// Leaves a position out of the range that was begun, if it is there.
    fn split(&mut self, place: usize) -> Result<(), AllocError>
        ensures { OnOk result ((done : List Range) → CutsTo done self.old.cut → AreSpaced 0 (done ++ ahead self.old) → IsReady place done self.old → IsTaken place (done ++ ahead self.old) self.new) }
    {
        let Some(range) = self.begun else {
            return Ok(());
        };
        if !holds(&range, place) {
            return Ok(());
        }
        self.cut.push(front_part(&range, place))?;
        self.begun = back_part(&range, place);
        Ok(())
    }

    /// Leaves a position out, which comes after all that is done.
    fn take_out(&mut self, place: usize) -> Result<(), AllocError>
        ensures { OnOk result ((done : List Range) → CutsTo done self.old.cut → AreSpaced 0 (done ++ ahead self.old) → AreBelow place done → IsTaken place (done ++ ahead self.old) self.new) }
    {
        self.go_to(place)?;
        self.split(place)?;
        Ok(())
    }
}

/// The ranges of those positions of some ranges that aren't left out. Each that is left out is
/// looked for by a binary search.
pub(crate) fn ranges_but(
    alloc: Global,
    all: &[Range],
    left_out: &[usize],
) -> Result<Cut, AllocError>
    requires all { AreSpaced 0 all.now }
    requires left_out { IsStrictlyIncreasing left_out.now }
    ensures { IfOk result (IsCutOf (λ w. IsInRanges all.now w × (Contains left_out.now w → ⊥))) }
{
    let mut walk = Walk {
        cut: Cut::new(alloc),
        begun: None,
        rest: all,
    };
    for place in left_out {
        walk.take_out(*place)?;
    }
    let mut cut = walk.cut;
    cut.push(walk.begun)?;
    cut.extend(walk.rest)?;
    Ok(cut)
}
