//! Nodes built from entries: each entry names the groups that it is in and those that it is linked
//! to.

ghost use Rattle.std.specs.Prelude.{◌≡◌, ◌↔◌, ℕ, length, map, All, IfOk};
ghost use Rattle.std.specs.List.Sorted.{IsStrictlyIncreasing};
ghost use Rattle.cert_graph.specs.Laws.{Agrees};
ghost use Rattle.cert_graph.specs.Nodes.{graph_of};
ghost use Rattle.cert_graph.specs.Entries.{graph_by};

use crate::filling::{anchors_of, issued_of, members_of};
use crate::{Entry, Group, Node, Nodes};
use std::alloc::{AllocError, Global};
use std::mem;

fn nodes_of(alloc: Global, entries: &[Entry]) -> Result<Vec<Node>, AllocError>
    ensures { IfOk result (λ nodes. nodes.items ≡ map (λ e. e.node) entries.now) }
{
    entries.iter().map(|entry| entry.node).collect(alloc)
}

// Groups of three lists each, in the lists' order.
fn joined(
    alloc: Global,
    mut members: Vec<Vec<usize>>,
    mut anchors: Vec<Vec<usize>>,
    mut issued: Vec<Vec<usize>>,
) -> Result<Vec<Group>, AllocError>
    requires as_many_anchors { length anchors.items ≡ length members.items }
    requires as_many_issued { length issued.items ≡ length members.items }
    requires members_ascend { All (λ l. IsStrictlyIncreasing l.items) members.items }
    requires anchors_ascend { All (λ l. IsStrictlyIncreasing l.items) anchors.items }
    requires issued_ascend { All (λ l. IsStrictlyIncreasing l.items) issued.items }
    ensures members { IfOk result (λ groups. map (λ g. g.members.items) groups.items ≡ map (λ l. l.items) members.items) }
    ensures anchors { IfOk result (λ groups. map (λ g. g.anchors.items) groups.items ≡ map (λ l. l.items) anchors.items) }
    ensures issued { IfOk result (λ groups. map (λ g. g.issued.items) groups.items ≡ map (λ l. l.items) issued.items) }
{
    let mut groups = Vec::new(alloc);
    for place in 0..members.len() {
        let its_members = mem::replace(&mut members[place], Vec::new(alloc));
        let its_anchors = mem::replace(&mut anchors[place], Vec::new(alloc));
        let its_issued = mem::replace(&mut issued[place], Vec::new(alloc));
        groups.push(Group {
            members: its_members,
            anchors: its_anchors,
            issued: its_issued,
        })?;
    }
    Ok(groups)
}

impl Nodes {
    /// Returns the nodes of entries and anchors, with `groups` groups. An entry names the groups
    /// that it is in and those that it is linked to, and an anchor its group, by numbers from 0; a
    /// number that no group has is ignored. An anchor without a group is in none. The only error is
    /// out of memory.
    pub fn new(
        alloc: Global,
        entries: &[Entry],
        anchors: &[Option<usize>],
        groups: usize,
    ) -> Result<Nodes, AllocError>
        ensures agrees { IfOk result (λ nodes. Agrees (graph_of nodes) (graph_by entries.now anchors.now groups)) }
        ensures links { IfOk result (λ nodes. (v w : ℕ) → (graph_of nodes).Edge v w ↔ (graph_by entries.now anchors.now groups).Edge v w) }
    {
        let items = nodes_of(alloc, entries)?;
        let members = members_of(alloc, entries, groups)?;
        let anchors = anchors_of(alloc, anchors, groups)?;
        let issued = issued_of(alloc, entries, groups)?;
        let groups = joined(alloc, members, anchors, issued)?;
        Ok(Nodes { items, groups })
    }
}
