//! The groups that issued each item: the links, seen from the item.

ghost use Rattle.std.specs.Prelude.{◌≡◌, [], length, map, slice_index_or, IfOk};
ghost use Rattle.cert_graph.specs.Issuing.{IssuedBy, AreMemberships};
ghost use Rattle.cert_graph.specs.Lists.{AreFilled};

use crate::lists::{empty_lists, put};
use crate::{Change, Nodes};
use std::alloc::{AllocError, Global};

/// Returns for each item the groups that issued it, by their positions among the groups, ascending:
/// the way from an item to its issuers.
///
/// The only error is out of memory. Goes once over all items and the links of all groups.
pub fn groups_of(alloc: Global, nodes: &Nodes) -> Result<Vec<Vec<usize>>, AllocError>
    ensures { IfOk result (λ lists. AreFilled (IssuedBy nodes.now.groups.items) (length nodes.now.items.items) (length nodes.now.groups.items) (map (λ l. l.items) lists.items)) }
{
    let mut lists = empty_lists(alloc, nodes.items.len())?;
    for (place, group) in nodes.groups.iter().enumerate() {
        for item in &group.issued {
            put(&mut lists, *item, place)?;
        }
    }
    Ok(lists)
}

/// For each item the groups of which it is a member, by their positions among the groups,
/// ascending.
///
/// The only error is out of memory. Goes once over all items and the members of all groups.
pub(crate) fn memberships_of(alloc: Global, nodes: &Nodes) -> Result<Vec<Vec<usize>>, AllocError>
    ensures { IfOk result (λ lists. AreMemberships nodes.now (map (λ l. l.items) lists.items)) }
{
    let mut lists = empty_lists(alloc, nodes.items.len())?;
    for (place, group) in nodes.groups.iter().enumerate() {
        for item in &group.members {
            put(&mut lists, *item, place)?;
        }
    }
    Ok(lists)
}

/// The groups of which the item at a position is a member; none past the last.
pub(crate) fn places_at(places: &[Vec<usize>], position: usize) -> &[usize]
    ensures { result.now ≡ slice_index_or (map (λ l. l.items) places.now) position [] }
{
    match places.get(position) {
        Some(own) => own,
        None => &[],
    }
}

/// Whether the groups of which some changes are of a member have more members and links than there
/// are items. Then all groups may as well be gone over.
pub(crate) fn is_wide(nodes: &Nodes, places: &[Vec<usize>], step: &[Change]) -> bool {
    let mut work = 0usize;
    for change in step {
        if let Some(own) = places.get(change.position) {
            for place in own {
                if let Some(group) = nodes.groups.get(*place) {
                    work = work.saturating_add(group.members.len());
                    work = work.saturating_add(group.issued.len());
                }
            }
        }
        if work > nodes.items.len() {
            return true;
        }
    }
    false
}
