//! The groups of each fit item, kept so that a round goes over what changed alone.

ghost use Rattle.std.specs.Prelude.{◌≡◌, ◌<◌, ◌↔◌, [], length, map, All, IfOk, IfSome, OnOk, IsTrue};
ghost use Rattle.cert_search.specs.Rising.{ArePlaces, AreAnchored, AreNoted};

use cert_graph::{Group, Nodes};
use smallvec::SmallVec;
use std::alloc::{AllocError, Global};

/// The groups that one item is a member of, by their positions among the groups. Two are kept
/// inline: a certificate is in the group of its name and key, and in that of its key identifier.
/// More are in an allocation.
pub(crate) type Places = SmallVec<usize, 2>;

/// Whether a group has an anchor.
pub(crate) fn has_anchor(group: &Group) -> bool
    ensures { IsTrue result ↔ (0 < length group.now.anchors.items) }
{
    !group.anchors.is_empty()
}

/// Returns the groups that have an anchor, by their positions among the groups.
pub(crate) fn anchored_of(alloc: Global, nodes: &Nodes) -> Result<Vec<usize>, AllocError>
    ensures { IfOk result (λ anchored. AreAnchored nodes.now anchored.items) }
{
    let mut anchored = Vec::new(alloc);
    for (place, group) in nodes.groups.iter().enumerate() {
        if has_anchor(group) {
            anchored.push(place)?;
        }
    }
    Ok(anchored)
}

/// Notes one group at each of its fit members.
fn note(nodes: &Nodes, group: &Group, place: usize, places: &mut [Places]) -> Result<(), AllocError>
    requires { All (λ w. w < length places.old) group.now.members.items }
    ensures { OnOk result (AreNoted nodes.now group.now place (map (λ l. l.items) places.old) (map (λ l. l.items) places.new)) }
{
    for w in &group.members {
        if nodes.is_fit(*w) {
            places[*w].push(place)?;
        }
    }
    Ok(())
}

/// A list of no places for each item.
fn empty_places(alloc: Global, number: usize) -> Result<Vec<Places>, AllocError>
    ensures count { IfOk result (λ places. length places.items ≡ number) }
    ensures empty { IfOk result (λ places. All (λ l. l.items ≡ []) places.items) }
{
    let mut places = Vec::with_capacity(alloc, number)?;
    for _ in 0..number {
        places.push(SmallVec::new(alloc))?;
    }
    Ok(places)
}

/// Returns the groups that each fit item is a member of, by their positions among the groups, and
/// none for the other items.
fn places_of(alloc: Global, nodes: &Nodes) -> Result<Vec<Places>, AllocError>
    ensures { IfOk result (λ places. ArePlaces nodes.now (map (λ l. l.items) places.items)) }
{
    let mut places = empty_places(alloc, nodes.items.len())?;
    for (place, group) in nodes.groups.iter().enumerate() {
        note(nodes, group, place, &mut places)?;
    }
    Ok(places)
}

/// The groups that each fit item is a member of, as they were noted before, or else noted now.
pub(crate) fn noted(
    alloc: Global,
    nodes: &Nodes,
    places: Option<Vec<Places>>,
) -> Result<Vec<Places>, AllocError>
    requires { IfSome places (λ known. ArePlaces nodes.now (map (λ l. l.items) known.items)) }
    ensures { IfOk result (λ known. ArePlaces nodes.now (map (λ l. l.items) known.items)) }
{
    match places {
        Some(known) => Ok(known),
        None => places_of(alloc, nodes),
    }
}
