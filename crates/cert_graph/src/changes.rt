//! Rows kept as changes: a row is kept by the entries in which it differs from the row before it.

ghost use Rattle.std.specs.Prelude.{◌≡◌, ◌↔◌, [], ◌∷◌, length, map, replicate, All, IfOk, IsTrue};
ghost use Rattle.cert_graph.specs.declared.reach.Reach.TheVariants.{No};
ghost use Rattle.cert_graph.specs.Adequate.{at_row, changed, rows_by};
ghost use Rattle.cert_graph.specs.Changes.{last_by};

use crate::Reach;
use std::alloc::{AllocError, Global};

/// What a row holds at a position where the row before it holds another reach.
#[derive(Clone, Copy, Debug)]
pub struct Change {
    pub position: usize,
    pub reach: Reach,
}

/// A row that reaches nothing.
pub(crate) fn row_of_none(alloc: Global, count: usize) -> Result<Vec<Reach>, AllocError>
    ensures { IfOk result (λ row. row.items ≡ replicate count No) }
{
    vec![in alloc; Reach::No; count]
}

/// Makes a row the next one by its changes.
pub(crate) fn make(row: &mut [Reach], changes: &[Change])
    ensures { row.new ≡ changed row.old changes.now }
{
    for change in changes {
        if change.position < row.len() {
            row[change.position] = change.reach;
        }
    }
}

/// Returns the rows that come of some changes, each of `width` entries: the first from a row of
/// `No`, each further one from the one before.
pub fn rows_of(
    alloc: Global,
    count: usize,
    steps: &[Vec<Change>],
) -> Result<Vec<Vec<Reach>>, AllocError>
    ensures { IfOk result (λ rows. map (λ r. r.items) rows.items ≡ rows_by (replicate count No) (map (λ s. s.items) steps.now)) }
{
    let mut rows = Vec::with_capacity(alloc, steps.len())?;
    let mut row = row_of_none(alloc, count)?;
    for step in steps {
        make(&mut row, step);
        rows.push(Vec::from_slice(alloc, &row)?)?;
    }
    Ok(rows)
}

/// Returns the last of the rows that come of some changes; a row of `No` if there is none.
pub(crate) fn last_row(
    alloc: Global,
    count: usize,
    steps: &[Vec<Change>],
) -> Result<Vec<Reach>, AllocError>
    ensures { IfOk result (λ row. row.items ≡ last_by (replicate count No) (map (λ s. s.items) steps.now)) }
{
    let mut row = row_of_none(alloc, count)?;
    for step in steps {
        make(&mut row, step);
    }
    Ok(row)
}

/// Returns a copy of the changes of each row.
pub(crate) fn copied(alloc: Global, steps: &[Vec<Change>]) -> Result<Vec<Vec<Change>>, AllocError>
    ensures { IfOk result (λ copy. map (λ s. s.items) copy.items ≡ map (λ s. s.items) steps.now) }
{
    let mut copy = Vec::with_capacity(alloc, steps.len())?;
    for step in steps {
        copy.push(Vec::from_slice(alloc, step)?)?;
    }
    Ok(copy)
}

/// Returns whether two reaches are equal.
fn is_same(first: Reach, second: Reach) -> bool
    ensures { IsTrue result ↔ first ≡ second }
{
    if !first.is_at_most(second) {
        return false;
    }
    second.is_at_most(first)
}

/// Where a row differs from another of its length, and what it holds there.
fn changes_between(
    alloc: Global,
    before: &[Reach],
    row: &[Reach],
) -> Result<Vec<Change>, AllocError>
    requires { length before.now ≡ length row.now }
    ensures { IfOk result (λ changes. changed before.now changes.items ≡ row.now) }
{
    let mut changes = Vec::new(alloc);
    for position in 0..row.len() {
        let reach = row[position];
        if !is_same(before[position], reach) {
            changes.push(Change { position, reach })?;
        }
    }
    Ok(changes)
}

/// One row as its changes against a row of nothing.
pub(crate) fn steps_of(alloc: Global, row: &[Reach]) -> Result<Vec<Vec<Change>>, AllocError>
    ensures { IfOk result (λ steps. rows_by (replicate (length row.now) No) (map (λ s. s.items) steps.items) ≡ row.now ∷ []) }
{
    let none = row_of_none(alloc, row.len())?;
    let changes = changes_between(alloc, &none, row)?;
    let mut steps = Vec::with_capacity(alloc, 1)?;
    steps.push(changes)?;
    Ok(steps)
}

/// Returns rows of a width as the changes of each: the first from a row of `No`, each further one
/// from the one before.
///
/// The only error is out of memory. Goes over all entries once.
pub fn steps_of_rows(
    alloc: Global,
    width: usize,
    rows: &[Vec<Reach>],
) -> Result<Vec<Vec<Change>>, AllocError>
    requires { All (λ r. length r.items ≡ width) rows.now }
    ensures { IfOk result (λ steps. rows_by (replicate width No) (map (λ s. s.items) steps.items) ≡ map (λ r. r.items) rows.now) }
{
    let mut steps = Vec::with_capacity(alloc, rows.len())?;
    let mut before = row_of_none(alloc, width)?;
    for row in rows {
        let changes = changes_between(alloc, &before, row)?;
        make(&mut before, &changes);
        steps.push(changes)?;
    }
    Ok(steps)
}

/// What a row of a width holds at a position that comes of a row of nothing by some changes.
pub(crate) fn reach_by(width: usize, changes: &[Change], position: usize) -> Reach
    ensures { result ≡ at_row (changed (replicate width No) changes.now) position }
{
    let mut reach = Reach::No;
    if position < width {
        for change in changes {
            if change.position == position {
                reach = change.reach;
            }
        }
    }
    reach
}
