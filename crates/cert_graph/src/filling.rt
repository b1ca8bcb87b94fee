//! The three lists of a group, collected from the entries: members, anchors, and what was issued.

ghost use Rattle.std.specs.Prelude.{length, map, IfOk};
ghost use Rattle.cert_graph.specs.Lists.{AreFilled};
ghost use Rattle.cert_graph.specs.Entries.{BelongsTo, LinkedTo, AnchorIn};

use crate::Entry;
use crate::lists::{empty_lists, put};
use std::alloc::{AllocError, Global};

/// Returns the entries of each group, by position. The only error is out of memory.
pub fn members_of(
    alloc: Global,
    entries: &[Entry],
    groups: usize,
) -> Result<Vec<Vec<usize>>, AllocError>
    ensures { IfOk result (λ lists. AreFilled (BelongsTo entries.now) groups (length entries.now) (map (λ l. l.items) lists.items)) }
{
    let mut lists = empty_lists(alloc, groups)?;
    for (position, entry) in entries.iter().enumerate() {
        for own in &entry.groups {
            put(&mut lists, *own, position)?;
        }
    }
    Ok(lists)
}

/// Returns the anchors of each group, by position. The only error is out of memory.
pub fn anchors_of(
    alloc: Global,
    anchors: &[Option<usize>],
    groups: usize,
) -> Result<Vec<Vec<usize>>, AllocError>
    ensures { IfOk result (λ lists. AreFilled (AnchorIn anchors.now) groups (length anchors.now) (map (λ l. l.items) lists.items)) }
{
    let mut lists = empty_lists(alloc, groups)?;
    for (position, anchor) in anchors.iter().enumerate() {
        if let Some(group) = *anchor {
            put(&mut lists, group, position)?;
        }
    }
    Ok(lists)
}

/// Returns the entries that are linked to each group, by position. The only error is out of memory.
pub fn issued_of(
    alloc: Global,
    entries: &[Entry],
    groups: usize,
) -> Result<Vec<Vec<usize>>, AllocError>
    ensures { IfOk result (λ lists. AreFilled (LinkedTo entries.now) groups (length entries.now) (map (λ l. l.items) lists.items)) }
{
    let mut lists = empty_lists(alloc, groups)?;
    for (position, entry) in entries.iter().enumerate() {
        for group in &entry.links {
            put(&mut lists, *group, position)?;
        }
    }
    Ok(lists)
}
