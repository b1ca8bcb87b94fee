//! One mark for each position of a list of items: whether it was reached, or prevents a path.

ghost use Rattle.std.specs.Prelude.{◌≡◌, ◌≢◌, ◌↔◌, ◌<◌, ◌⊎◌, ℕ, length, Contains, IfOk, IsTrue};
ghost use Rattle.certpath_why.specs.Found.{AreMarked, IsMarked};
ghost use Rattle.certpath_why.specs.Reached.{ArePositions};

use std::alloc::{AllocError, Global};

/// Returns so many marks, none of them set.
pub(crate) fn no_marks(alloc: Global, count: usize) -> Result<Vec<bool>, AllocError>
    ensures count { IfOk result (λ marks. length marks.items ≡ count) }
    ensures none { IfOk result (λ marks. (u : ℕ) → IsMarked marks.items u → ⊥) }
{
    let mut marks = Vec::with_capacity(alloc, count)?;
    for _place in 0..count {
        marks.push(false)?;
    }
    Ok(marks)
}

/// Whether a position is marked; none is from the end of the marks on.
pub(crate) fn is_marked(marks: &[bool], place: usize) -> bool
    ensures { IsTrue result ↔ IsMarked marks.now place }
{
    match marks.get(place) {
        Some(mark) => *mark,
        None => false,
    }
}

/// Marks a position.
pub(crate) fn put_mark(marks: &mut Vec<bool>, place: usize)
    requires { place < length marks.now.items }
    ensures count { length marks.new.items ≡ length marks.old.items }
    ensures exact { (u : ℕ) → IsMarked marks.new.items u ↔ (IsMarked marks.old.items u ⊎ (u ≡ place)) }
{
    marks[place] = true;
}

/// Marks some positions: a step for each.
pub(crate) fn mark_all(marks: &mut Vec<bool>, places: &[usize])
    requires { (u : ℕ) → Contains places.now u → u < length marks.now.items }
    ensures { AreMarked (Contains places.now) marks.old.items marks.new.items }
{
    for place in places {
        put_mark(marks, *place);
    }
}

/// Whether a position is marked, and isn't the one that is left out.
fn is_marked_but(marks: &[bool], left: usize, place: usize) -> bool
    ensures { IsTrue result ↔ (IsMarked marks.now place × (place ≢ left)) }
{
    is_marked(marks, place) && place != left
}

/// Returns the positions that are marked, in ascending order, without one that is left out.
pub(crate) fn marked_but(
    alloc: Global,
    marks: &[bool],
    left: usize,
) -> Result<Vec<usize>, AllocError>
    ensures { IfOk result (λ places. ArePositions (λ v. IsMarked marks.now v × (v ≢ left)) places.items) }
{
    let mut places = Vec::new(alloc);
    for place in 0..marks.len() {
        if !is_marked_but(marks, left, place) {
            continue;
        }
        places.push(place)?;
    }
    Ok(places)
}
