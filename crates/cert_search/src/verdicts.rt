//! The verdict on one item by the rows of a search for all items.

ghost use Rattle.std.specs.Prelude.{◌≡◌, ◌↔◌, ◌<◌, ℕ, ◌+◌, [], List, length, map, replicate, IsTrue, IfOk};
ghost use Rattle.cert_graph.specs.declared.reach.Reach.{Reach};
ghost use Rattle.cert_graph.specs.declared.reach.Reach.TheVariants.{No};
ghost use Rattle.cert_graph.specs.declared.nodes.Nodes.{Nodes};
ghost use Rattle.cert_graph.specs.Adequate.{row_of, rows_by};
ghost use Rattle.cert_graph.specs.Inventory.{IsAdequateVerdict};
ghost use Rattle.cert_graph.specs.Least.{IsLeast, IsLeastOption};
ghost use Rattle.cert_graph.specs.Lookup.{IsLookup};
ghost use Rattle.cert_graph.specs.Nodes.{graph_of};
ghost use Rattle.cert_search.specs.Inventory.{AreAllRows, LeadsOn, LeadsAt, IsPathBy};
ghost use Rattle.cert_search.specs.Rows.{IsRun, Opens};

use crate::walk::walk;
use cert_graph::{Change, Lookup, Nodes, Verdict};
use std::alloc::{AllocError, Global};

/// Whether a row, given by its number from 0, reaches some issuer of a target.
fn leads_on(lookup: &Lookup, row: usize, target: usize) -> bool
    ensures { (nodes : Nodes) (rows : List (List Reach)) → IsLookup nodes rows lookup.now → row < length rows → IsTrue result ↔ LeadsOn (graph_of nodes) target (row_of rows row) }
{
    match lookup.least_next(row, target, 0) {
        Some(_) => true,
        None => false,
    }
}

/// The first of some rows, given by their number, that reaches some issuer of a target.
fn first_open(lookup: &Lookup, number: usize, target: usize) -> Option<usize>
    ensures { (nodes : Nodes) (rows : List (List Reach)) → IsLookup nodes rows lookup.now → length rows ≡ number → IsLeastOption (LeadsAt (graph_of nodes) target rows) result }
{
    for place in 0..number {
        if leads_on(lookup, place, target) {
            return Some(place);
        }
    }
    None
}

/// The path of the target alone.
fn alone(alloc: Global, nodes: &Nodes, target: usize, anchor: usize) -> Result<Verdict, AllocError>
    requires usable { (graph_of nodes.now).Usable target }
    requires least { IsLeast ((graph_of nodes.now).AnchorEdge target) anchor }
    ensures { IfOk result (IsPathBy (graph_of nodes.now) [] target) }
{
    let mut positions = Vec::with_capacity(alloc, 1)?;
    positions.push(target)?;
    Ok(Verdict::FirstPath { positions, anchor })
}

/// What is said of one item by the rows of a search to its end, given by their changes.
pub(crate) fn verdict_of(
    alloc: Global,
    nodes: &Nodes,
    lookup: &Lookup,
    steps: &[Vec<Change>],
    target: usize,
) -> Result<Verdict, AllocError>
    requires lookup { IsLookup nodes.now (rows_by (replicate (length nodes.now.items.items) No) (map (λ s. s.items) steps.now)) lookup.now }
    requires rows { AreAllRows (graph_of nodes.now) (rows_by (replicate (length nodes.now.items.items) No) (map (λ s. s.items) steps.now)) }
    ensures { IfOk result (IsAdequateVerdict (graph_of nodes.now) (rows_by (replicate (length nodes.now.items.items) No) (map (λ s. s.items) steps.now)) target) }
{
    if !nodes.is_certificate(target) {
        return Ok(Verdict::NoCertificate);
    }
    if !nodes.is_usable(target) {
        return Ok(Verdict::Pathless);
    }
    if let Some(anchor) = lookup.least_anchor(nodes, target) {
        return alone(alloc, nodes, target, anchor);
    }
    if !leads_on(lookup, steps.len() - 1, target) {
        return Ok(Verdict::Pathless);
    }
    match first_open(lookup, steps.len(), target) {
        Some(place) => walk(alloc, nodes, lookup, &steps[..place + 1], target),
        None => Ok(Verdict::Pathless),
    }
}
