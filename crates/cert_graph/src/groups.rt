//! Groups of a graph made of places.

ghost use Rattle.std.specs.Prelude.{◌≡◌, ◌↔◌, ◌+◌, ◌++◌, ◌<◌, ◌≤◌, ◌^◌, ℕ, All, OnOk, IfOk, Contains};
ghost use Rattle.std.specs.List.Sorted.{IsStrictlyIncreasing};
ghost use Rattle.cert_graph.specs.Links.{Adds, IsIdLink, IsPlaceLink, IsPlaceAnchor};

use crate::buckets::alike;
use crate::nodes::Group;
use crate::places::{Part, Place};
use crate::sifting::{between, identified};
use std::alloc::{AllocError, Global};

// One group more, unless it links nothing.
fn push_group(
    groups: &mut Vec<Group>,
    items: usize,
    members: Vec<usize>,
    anchors: Vec<usize>,
    issued: Vec<usize>,
) -> Result<(), AllocError>
    requires members_ascend { IsStrictlyIncreasing members.items }
    requires anchors_ascend { IsStrictlyIncreasing anchors.items }
    requires issued_ascend { IsStrictlyIncreasing issued.items }
    requires members_within { All (λ v. v < items) members.items }
    requires issued_within { All (λ v. v < items) issued.items }
    ensures { OnOk result (Adds items groups.old.items groups.new.items
        (λ v w. Contains issued.items v × Contains members.items w) (λ v a. Contains issued.items v × Contains anchors.items a)) }
{
    if issued.is_empty() {
        return Ok(());
    }
    groups.push(Group {
        members,
        anchors,
        issued,
    })?;
    Ok(())
}

// Two lists as one.
fn joined(alloc: Global, first: &[usize], second: &[usize]) -> Result<Vec<usize>, AllocError>
    ensures { IfOk result (λ both. both.items ≡ first.now ++ second.now) }
{
    let mut both = Vec::with_capacity(alloc, first.len())?;
    both.extend_from_slice(first)?;
    both.extend_from_slice(second)?;
    Ok(both)
}

// Links between places with one key identifier.
fn link_ids(
    alloc: Global,
    groups: &mut Vec<Group>,
    all: &[Place<'_>],
    items: usize,
    places: &[usize],
) -> Result<(), AllocError>
    requires { IsStrictlyIncreasing places.now }
    ensures { OnOk result (Adds items groups.old.items groups.new.items (IsIdLink all.now items places.now) (λ v a. ⊥)) }
{
    let buckets = alike(alloc, all, Part::Id, places)?;
    for bucket in &buckets {
        let issued = between(alloc, &bucket.places, 0, items)?;
        let owners = between(alloc, &bucket.places, items, items)?;
        push_group(groups, items, owners, Vec::new(alloc), issued)?;
    }
    Ok(())
}

/// Adds to `groups` the links from each of the places `linked` to each of `holders`. `all` has
/// three lists one after another: the items as what was issued, `items` in number, the items as
/// issuers, and `anchors` anchors. A link to an issuer requires equal key identifiers if both
/// places have one. The only error is out of memory.
pub fn link_places(
    alloc: Global,
    groups: &mut Vec<Group>,
    all: &[Place<'_>],
    items: usize,
    anchors: usize,
    linked: &[usize],
    holders: &[usize],
) -> Result<(), AllocError>
    requires linked_ascend { IsStrictlyIncreasing linked.now }
    requires holders_ascend { IsStrictlyIncreasing holders.now }
    requires linked_within { All (λ v. v < items) linked.now }
    requires holders_behind { All (λ v. items ≤ v) holders.now }
    requires fits { items + items < 2 ^ 64 }
    ensures { OnOk result (Adds items groups.old.items groups.new.items (IsPlaceLink all.now items linked.now holders.now) (IsPlaceAnchor items anchors linked.now holders.now)) }
{
    let members = between(alloc, holders, items, items)?;
    let unnamed = identified(alloc, all, linked, false)?;
    push_group(groups, items, members, Vec::new(alloc), unnamed)?;
    let anchors = between(alloc, holders, items + items, anchors)?;
    let everyone = Vec::from_slice(alloc, linked)?;
    push_group(groups, items, Vec::new(alloc), anchors, everyone)?;
    let named = identified(alloc, all, linked, true)?;
    let unowned = identified(alloc, all, holders, false)?;
    let unowned = between(alloc, &unowned, items, items)?;
    push_group(groups, items, unowned, Vec::new(alloc), named)?;
    let places = joined(alloc, linked, holders)?;
    link_ids(alloc, groups, all, items, &places)?;
    Ok(())
}
