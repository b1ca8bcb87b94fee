//! Graphs of four kinds and of any size, each with its target at position 0.

ghost use Rattle.std.specs.Prelude.{◌≡◌, ◌∷◌, [], length, IfOk, IsTrue};

use cert_graph::{Entry, Node, Nodes};
use std::alloc::{AllocError, Global};

/// How many certificates have one name and key.
const GROUP: usize = 100;

/// How many certificates are on each path.
const LAYERS: usize = 10;

/// Groups of a hundred in ten layers: each certificate is linked to three groups of the next layer, those of the last
/// to an anchor.
pub fn layered(alloc: Global, count: usize) -> Result<Nodes, AllocError>
    ensures { IfOk result (λ nodes. length nodes.items.items ≡ count) }
{
    let groups = count / GROUP;
    let width = (groups / LAYERS).max(1);
    let mut entries = Vec::with_capacity(alloc, count)?;
    for position in 0..count {
        let own = position / GROUP;
        let layer = own / width;
        // every other one has a limit that its place in a path just keeps
        let limit = if position % 2 == 0 {
            u32::try_from(layer).ok()
        } else {
            None
        };
        let mut links = Vec::with_capacity(alloc, 3)?;
        if layer + 1 < LAYERS {
            for link in 0..3 {
                links.push((layer + 1) * width + (own + 7 * link) % width)?;
            }
        } else {
            links.push(groups)?;
        }
        entries.push(Entry {
            node: certificate(true, false, limit),
            groups: one_of(alloc, own)?,
            links,
        })?;
    }
    Nodes::new(alloc, &entries, &[Some(groups)], groups + 1)
}

/// A target, and equal self-issued certificates that it is linked to: each is linked to all of them and to an anchor.
pub fn equal(alloc: Global, count: usize) -> Result<Nodes, AllocError>
    ensures { IfOk result (λ nodes. length nodes.items.items ≡ count) }
{
    let mut entries = Vec::with_capacity(alloc, count)?;
    for position in 0..count {
        let mut links = Vec::with_capacity(alloc, 2)?;
        links.push(0)?;
        let mut groups = Vec::new(alloc);
        let is_target = position == 0;
        if !is_target {
            links.push(1)?;
            groups.push(0)?;
        }
        entries.push(Entry {
            node: certificate(!is_target, !is_target, Some(0)),
            groups,
            links,
        })?;
    }
    Nodes::new(alloc, &entries, &[Some(1)], 2)
}

/// A chain: each certificate is linked to the next, the last to an anchor.
pub fn chain(alloc: Global, count: usize) -> Result<Nodes, AllocError>
    ensures { IfOk result (λ nodes. length nodes.items.items ≡ count) }
{
    linked_from(alloc, count, 0)
}

/// A chain that the target does not reach.
pub fn apart(alloc: Global, count: usize) -> Result<Nodes, AllocError>
    ensures { IfOk result (λ nodes. length nodes.items.items ≡ count) }
{
    linked_from(alloc, count, 1)
}

// Certificates of which each from a position on is linked to the next, the last to an anchor.
fn linked_from(alloc: Global, count: usize, first: usize) -> Result<Nodes, AllocError>
    ensures { IfOk result (λ nodes. length nodes.items.items ≡ count) }
{
    let mut entries = Vec::with_capacity(alloc, count)?;
    for position in 0..count {
        let mut links = Vec::with_capacity(alloc, 1)?;
        if position >= first {
            links.push(position + 1)?;
        }
        entries.push(Entry {
            node: certificate(true, false, None),
            groups: one_of(alloc, position)?,
            links,
        })?;
    }
    Nodes::new(alloc, &entries, &[Some(count)], count.saturating_add(1))
}

// One group alone.
fn one_of(alloc: Global, group: usize) -> Result<Vec<usize>, AllocError>
    ensures { IfOk result (λ groups. groups.items ≡ group ∷ []) }
{
    let mut groups = Vec::with_capacity(alloc, 1)?;
    groups.push(group)?;
    Ok(groups)
}

// A certificate that may stand in a path.
fn certificate(fit: bool, self_issued: bool, limit: Option<u32>) -> Node
    ensures judged { IsTrue result.certificate × IsTrue result.usable }
    ensures issuer { (result.fit ≡ fit) × (result.self_issued ≡ self_issued) × (result.limit ≡ limit) }
{
    Node {
        certificate: true,
        usable: true,
        fit,
        self_issued,
        limit,
    }
}
