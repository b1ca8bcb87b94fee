//! A table of rows that come of changes, tested in the memory of two rows.

ghost use Rattle.std.specs.Prelude.{◌≡◌, ℕ, ◌+◌, ◌<◌, ◌↔◌, [], List, length, map, replicate, slice_index_or, All, IsTrue, IfOk, IfSome, IfNone};
ghost use Rattle.cert_graph.specs.declared.reach.Reach.{Reach};
ghost use Rattle.cert_graph.specs.declared.reach.Reach.TheVariants.{No};
ghost use Rattle.cert_graph.specs.Changes.{last_by, touched};
ghost use Rattle.cert_graph.specs.Reach.{IsAtMost};
ghost use Rattle.cert_graph.specs.Adequate.{at_row, changed, rows_by};
ghost use Rattle.cert_graph.specs.Groups.{HoldsEachLimit, FollowsRow, FollowsAt};
ghost use Rattle.cert_graph.specs.Issuing.{AreMemberships};
ghost use Rattle.cert_graph.specs.Inventory.{StandsAtLast};
ghost use Rattle.cert_graph.specs.Nodes.{graph_of};
ghost use Rattle.cert_graph.specs.Tables.{IsTable};

use crate::changes::{make, row_of_none};
use crate::issuing::{is_wide, memberships_of, places_at};
use crate::rows::{follows_row, holds_all_passed, holds_each_limit};
use crate::{Change, Nodes, Reach, reach_at};
use std::alloc::{AllocError, Global};

/// Whether a row follows another and holds its limits, by all groups.
fn follows_whole(nodes: &Nodes, before: &[Reach], row: &[Reach]) -> bool
    ensures { IsTrue result ↔ (HoldsEachLimit nodes.now row.now × FollowsRow nodes.now before.now row.now) }
{
    if !holds_each_limit(nodes, row) {
        return false;
    }
    follows_row(nodes, before, row)
}

/// Whether a row follows another in the groups at some places.
fn follows_at(nodes: &Nodes, before: &[Reach], row: &[Reach], places: &[usize]) -> bool
    requires { All (λ k. k < length nodes.now.groups.items) places.now }
    ensures { IsTrue result ↔ FollowsAt nodes.now before.now row.now places.now }
{
    for place in places {
        if !holds_all_passed(nodes, before, row, &nodes.groups[*place]) {
            return false;
        }
    }
    true
}

/// Whether a row follows another in the groups of which some changes are of a member.
fn follows_some(
    nodes: &Nodes,
    places: &[Vec<usize>],
    before: &[Reach],
    row: &[Reach],
    changes: &[Change],
) -> bool
    requires { All (λ l. All (λ k. k < length nodes.now.groups.items) l.items) places.now }
    ensures { IsTrue result ↔ FollowsAt nodes.now before.now row.now (touched (map (λ l. l.items) places.now) changes.now) }
{
    for change in changes {
        let own = places_at(places, change.position);
        if !follows_at(nodes, before, row, own) {
            return false;
        }
    }
    true
}

/// Whether a change is to no less than a row holds.
fn is_rise(row: &[Reach], change: &Change) -> bool
    ensures { IsTrue result ↔ IsAtMost (at_row row.now change.now.position) change.now.reach }
{
    reach_at(row, change.position).is_at_most(change.reach)
}

/// Whether each of some changes is to no less than a row holds.
fn rises(row: &[Reach], changes: &[Change]) -> bool
    ensures { IsTrue result ↔ All (λ x. IsAtMost (at_row row.now x.position) x.reach) changes.now }
{
    changes.iter().all(|change| is_rise(row, change))
}

/// Whether the row of a step, by its number from 0, follows the one before it and holds its limits,
/// where that one holds them and follows the one before it. If no entry falls, only the groups
/// matter of which a member rose last.
fn goes_on(
    nodes: &Nodes,
    places: &[Vec<usize>],
    steps: &[Vec<Change>],
    number: usize,
    before: &[Reach],
    row: &[Reach],
) -> bool
    requires within { number < length steps.now }
    requires places { AreMemberships nodes.now (map (λ l. l.items) places.now) }
    ensures { row.now ≡ changed before.now (slice_index_or (map (λ s. s.items) steps.now) number []) → (0 < number → HoldsEachLimit nodes.now before.now)
        → ((k : ℕ) → k + 1 ≡ number → (older : List Reach) × (before.now ≡ changed older (slice_index_or (map (λ s. s.items) steps.now) k [])) × FollowsRow nodes.now older before.now)
        → IsTrue result ↔ (HoldsEachLimit nodes.now row.now × FollowsRow nodes.now before.now row.now) }
{
    if number == 0 {
        return follows_whole(nodes, before, row);
    }
    if !rises(before, &steps[number]) {
        return follows_whole(nodes, before, row);
    }
    let last = &steps[number - 1];
    if is_wide(nodes, places, last) {
        return follows_whole(nodes, before, row);
    }
    follows_some(nodes, places, before, row, last)
}

/// The last of the rows that come of some changes, the first against a row of `No`, if they are a
/// table.
///
/// The only error is out of memory. Holds two rows at a time. Goes over all groups and their lists
/// once, and again for each row that falls somewhere; else over those groups of which a member
/// rose.
fn last_of_table(
    alloc: Global,
    nodes: &Nodes,
    steps: &[Vec<Change>],
) -> Result<Option<Vec<Reach>>, AllocError>
    ensures table { IfOk result (λ o. IfSome o (λ row. IsTable (graph_of nodes.now) (rows_by (replicate (length nodes.now.items.items) No) (map (λ s. s.items) steps.now)))) }
    ensures last { IfOk result (λ o. IfSome o (λ row. row.items ≡ last_by (replicate (length nodes.now.items.items) No) (map (λ s. s.items) steps.now))) }
    ensures none { IfOk result (λ o. IfNone o (IsTable (graph_of nodes.now) (rows_by (replicate (length nodes.now.items.items) No) (map (λ s. s.items) steps.now)) → ⊥)) }
{
    let places = memberships_of(alloc, nodes)?;
    let mut before = row_of_none(alloc, nodes.items.len())?;
    let mut row = row_of_none(alloc, nodes.items.len())?;
    for (number, step) in steps.iter().enumerate() {
        make(&mut row, step);
        if !goes_on(nodes, &places, steps, number, &before, &row) {
            return Ok(None);
        }
        make(&mut before, step);
    }
    Ok(Some(row))
}

/// Whether the rows that come of some changes, the first against a row of `No`, are a table.
pub(crate) fn is_table(
    alloc: Global,
    nodes: &Nodes,
    steps: &[Vec<Change>],
) -> Result<bool, AllocError>
    ensures { IfOk result (λ yes. IsTrue yes ↔ IsTable (graph_of nodes.now) (rows_by (replicate (length nodes.now.items.items) No) (map (λ s. s.items) steps.now))) }
{
    match last_of_table(alloc, nodes, steps)? {
        Some(_) => Ok(true),
        None => Ok(false),
    }
}

/// Whether the rows that come of some changes, the first against a row of `No`, are a table of
/// which the last row, if there is one, is its own successor.
pub(crate) fn is_standing_table(
    alloc: Global,
    nodes: &Nodes,
    steps: &[Vec<Change>],
) -> Result<bool, AllocError>
    ensures { IfOk result (λ yes. IsTrue yes ↔ (IsTable (graph_of nodes.now) (rows_by (replicate (length nodes.now.items.items) No) (map (λ s. s.items) steps.now)) × StandsAtLast (graph_of nodes.now) (rows_by (replicate (length nodes.now.items.items) No) (map (λ s. s.items) steps.now)))) }
{
    match last_of_table(alloc, nodes, steps)? {
        Some(row) => Ok(follows_row(nodes, &row, &row)),
        None => Ok(false),
    }
}
